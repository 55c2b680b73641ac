//! Tests: what a host's script says, and the text of what came of it.
//!
//! - Tries: scripts that are refused by a line itself, by the lines before it, and behind the last
//!   line; one job with all that it has; and one report.
//! - Promises: nothing. No crate depends on it.
//! - A caller: the gate runs its tests.
//! - A change begins here if another line of a host's script is to be tried.
#![tactic(auto)]

#[cfg(test)]
mod refused;
#[cfg(test)]
mod reported;
#[cfg(test)]
mod shop;
#[cfg(test)]
mod told;
