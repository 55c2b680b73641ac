//! Tests: sets over several words, and transitions that fire by them.
//!
//! - Tries: numbers on both sides of a word's end, and a thousand transitions of which one is enabled.
//! - Promises: nothing. No crate depends on it.
//! - A caller: the gate runs its tests.
//! - A change begins here if sets of another width are to be tried.
#![tactic(auto)]

#[cfg(test)]
mod sets;
