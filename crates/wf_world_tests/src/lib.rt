//! Tests: all servers of a chart, after a play.
//!
//! - Tries: what a world lends, and what the disks hold that it leaves, against a play that was
//!   worked out by hand.
//! - Promises: nothing. No crate depends on it.
//! - A caller: the gate runs its tests.
//! - A change begins here if a world leaves or lends something else.
#![tactic(auto)]

#[cfg(test)]
mod closed;
#[cfg(test)]
mod lent;
#[cfg(test)]
mod plays;
