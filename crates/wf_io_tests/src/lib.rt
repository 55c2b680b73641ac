//! Tests: the adapters over std's readers, writers and clock, and calls that no command makes.
//!
//! - Tries: that the end of a reader is no fault, and that a call which a signal interrupts is made
//!   again; calls of `wf_actions` and of `wf_activities`.
//! - Promises: nothing. No crate depends on it.
//! - A caller: the gate runs its tests.
//! - A change begins here if an adapter is to be tried over another reader or writer.
#![tactic(auto)]

#[cfg(test)]
mod adapters;
#[cfg(test)]
mod calls;
