//! Tests: calls that no command makes, each over small charts.
//!
//! - Tries: charts that no text means, which the checker refuses, and canonical texts.
//! - Promises: nothing. No crate depends on it.
//! - A caller: the gate runs its tests.
//! - A change begins here if a fault is to be tried that no text can have.
#![tactic(auto)]

#[cfg(test)]
mod by_hand;
#[cfg(test)]
mod printed;
