//! Tests: the server of one unit over a disk in memory, and what units say of each other's histories.
//!
//! - Tries: the bytes that a server writes, what it shows and sends, the merged list of a unit, the journals on which it starts and those that it refuses,
//!   each answer to an update that comes, and all steps that there are, against bytes and answers that
//!   were worked out by hand.
//! - Promises: nothing. No crate depends on it.
//! - A caller: the gate runs its tests.
//! - A change begins here if a server gets another answer.
#![tactic(auto)]

#[cfg(test)]
mod agreement;
#[cfg(test)]
mod charts;
#[cfg(test)]
mod coming;
#[cfg(test)]
mod journals;
#[cfg(test)]
mod odd;
#[cfg(test)]
mod servers;
#[cfg(test)]
mod shown;
#[cfg(test)]
mod steps;
#[cfg(test)]
mod work;
