//! Tests: what no clause of disks, shelves and journals says, and each of their calls once.
//!
//! - Tries: a disk in memory that stops, fails and crashes; a journal on it that is started again;
//!   a shelf.
//! - Promises: nothing. No crate depends on it.
//! - A caller: the gate runs its tests.
//! - A change begins here if another failure of a disk is to be tried.
#![tactic(auto)]

#[cfg(test)]
mod journal;
#[cfg(test)]
mod memory;
#[cfg(test)]
mod shelf;
