//! Tests: worked inputs over the top call, with ends and disks in memory that fail.
//!
//! - Tries: which bytes a run writes, and with which status it ends, also if a read, a write or a
//!   disk fails; and what is left on the disk then.
//! - Promises: nothing. No crate depends on it.
//! - Doesn't try: what the built program writes; `scripts/rows` does.
//! - A caller: the gate runs its tests.
//! - A change begins here if a run is to be tried with ends that fail.
#![tactic(auto)]

#[cfg(test)]
mod faults;
#[cfg(test)]
mod inputs;
#[cfg(test)]
mod run;
#[cfg(test)]
mod trail;
