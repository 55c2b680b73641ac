//! All servers of a chart, over disks in memory, as a script drives them, line by line.
//!
//! - Promises: a `World` acts each line as the counting machine does, by some outcome of a record in
//!   doubt, and ends as it does: its replies and its ending are a play (`runs_are_plays`). It is
//!   stopped by its messages only if a play's pass their limit (`refusals_pass`). A line only adds
//!   messages (`messages_stay`). `Mail` keeps each message once, and refuses it just where all would
//!   be too many bytes.
//! - Doesn't say: that memory suffices, nor anything of a world that a fault left.
//! - A caller has `wf_drive::drive` run a script's lines on a world that was started of its chart.
//! - A change of what a line does begins in `wf_machine`, one of what holds between two lines in
//!   `specs/Fleets.antt`, one of what a message's bytes are in `specs/Sent.antt`.
#![tactic(auto)]

mod fault;
mod fleet;
mod laws;
mod mail;
mod world;

pub use fault::ActFault;
pub use laws::{
    ended_worlds_work, messages_stay, messages_stay_to_end, refusals_pass, runs_are_plays,
};
pub use mail::{Mail, Sent};
pub use world::World;
