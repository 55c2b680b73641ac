//! Rounds of units, clients and workers by numbers alone: how many rounds there are, how far the
//! units come, and how long an item may stay open.
//!
//! - Promises: each public function is a law and has nothing to do. If a round does what
//!   `specs/Rounds.antt` says, there are at most client lines + goal + 1 rounds before the end, and
//!   then all units have taken one number of steps.
//! - Doesn't say: that any program does such rounds.
//! - A caller: none; no crate depends on it.
//! - A change of what a round does begins in `specs/Rounds.antt`.
#![tactic(auto)]

mod laws;

pub use laws::{host_is_on_time, items_are_taken_in_time, rows_come_in};
