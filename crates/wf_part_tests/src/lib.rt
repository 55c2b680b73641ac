//! Tests: parts, views and the central run side by side, over small charts.
//!
//! - Tries: what each unit tells of a step and what each peer is sent of it, as texts worked out by
//!   hand; that the parts' run and the central run say the same of each step.
//! - Promises: nothing. No crate depends on it.
//! - A caller: the gate runs its tests.
//! - A change begins here if another chart is to be run in both ways.
#![tactic(auto)]

#[cfg(test)]
mod beside;
#[cfg(test)]
mod calls;
#[cfg(test)]
mod charts;
#[cfg(test)]
mod made;
#[cfg(test)]
mod rows;
#[cfg(test)]
mod runs;
#[cfg(test)]
mod told;
#[cfg(test)]
mod tries;
