//! Tests: updates and records as bytes, against bytes that were worked out by hand.
//!
//! - Tries: the ends of each range, each byte changed, and the longest update.
//! - Promises: nothing. No crate depends on it.
//! - A caller: the gate runs its tests.
//! - A change begins here if a field of an update or a record gets other bytes.
#![tactic(auto)]

#[cfg(test)]
mod digits;
#[cfg(test)]
mod longest;
#[cfg(test)]
mod records;
#[cfg(test)]
mod updates;
