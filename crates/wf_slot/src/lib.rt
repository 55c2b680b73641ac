//! One unit of a world: its server over a disk in memory, or what is left of it while it is down.
//!
//! - Promises: a `Slot` answers each line of a play as the counting machine does, and is seen as the
//!   server that counts for it. After a crash at any stroke a recovery finds the history that stood
//!   for sure, or the one with the record in doubt.
//! - Doesn't say: that memory suffices. After a refusal for want of it a unit is some unit.
//! - A caller: `wf_world` keeps a slot for each unit of a chart.
//! - A change of what a line does to a unit begins in `wf_machine`, one of what stays in doubt in
//!   `specs/Seats.antt`.
#![tactic(auto)]

mod fuse;
mod held;
mod sight;
mod slot;

pub use slot::Slot;
