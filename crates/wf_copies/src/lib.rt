//! Tests: copies and comparisons of the types of `wf_model`.
//!
//! - Tries: that a copy is told to be the same as its original, and other values not.
//! - Promises: nothing. No crate depends on it.
//! - A caller: the gate runs its tests.
//! - A change begins here if a type of `wf_model` gets another field.
#![tactic(auto)]

#[cfg(test)]
mod types;
