//! Tests: the call that runs a script, over servers that no play has.
//!
//! - Tries: servers that give out numbers, under `drive`.
//! - Promises: nothing. No crate depends on it.
//! - A caller: the gate runs its tests.
//! - A change begins here if another kind of servers is to be tried.
#![tactic(auto)]

#[cfg(test)]
mod driven;
