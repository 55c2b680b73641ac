//! Servers that act lines one after another, and the call that runs a script of lines on them,
//! whatever the servers are.
//!
//! - Promises: `drive` has the servers act each line once, in order, and then finish. The replies
//!   and the ending are a run of the servers' own relations. A fault comes only if such a run leads
//!   to it.
//! - Doesn't say: what these relations are: each kind of servers says that.
//! - A caller: `wf_top` drives the servers of a chart for the command `play`.
//! - A command that runs a script on servers begins here: it says what its servers' state, lines
//!   and replies are.
#![tactic(auto)]

mod running;
mod servers;

pub use running::{DriveFault, Driven, drive};
pub use servers::Servers;
