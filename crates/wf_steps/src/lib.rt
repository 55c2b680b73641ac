//! A unit without its disk: its history, what its part makes of it, and how both are read from a
//! journal.
//!
//! - Promises: a `Replica` has a history that records made, each of which may follow those before
//!   it, and shows the view, the items and the two last updates that the definitions make of its
//!   part and this history. `recover` reads it from a journal, or answers the first body that is
//!   wrong. `admit` and `turn` take no memory.
//! - Doesn't say: that memory is found; that histories of different units agree.
//! - A caller: `wf_server` keeps a replica beside its journal.
//! - A change of what a record makes of a history begins in `specs/Records.antt`.
#![tactic(auto)]

mod bodies;
mod fault;
mod fitting;
mod following;
mod history;
mod laws;
mod prepared;
mod preparing;
mod recovery;
mod replica;
mod rule;

pub use fault::{HeadNames, RecoverFault};
pub use fitting::is_fit;
pub use history::{Admission, History, TurnDone};
pub use laws::{admit_in_range, made_is_sound, turn_in_range, updates_in_range};
pub use prepared::Prepared;
pub use recovery::{RecoverRefused, recover};
pub use replica::{Replica, ReplicaRefused, no_update};
