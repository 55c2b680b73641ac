//! The texts of the central run: the lines of its script, and the replies.
//!
//! - Promises: `read_central` reads a script as its lines, or refuses its first line outside the
//!   grammar. `run_central` answers the defined text of a run, or that it gets too long. Each may
//!   run out of memory instead.
//! - Doesn't say: what of a refused line is wrong.
//! - A caller: `wf_top` answers the command `central` with `run_central`.
//! - A change of a line of the script begins in `specs/Script.antt`, one of a reply in
//!   `specs/Replies.antt`.
#![tactic(auto)]

mod central;
mod reply;
mod script;

pub use central::{RunFault, run_central};
pub use reply::{Reply, append_fault, append_shown, append_vars, reply_line};
pub use script::{CentralLine, read_central};
