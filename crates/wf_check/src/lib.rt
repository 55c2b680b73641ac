//! The first rule that a chart breaks. A chart that breaks none is accepted.
//!
//! - Promises: `first_fault` answers the first rule that the chart breaks, or that it breaks none.
//!   `judge` and `check` seal a chart exactly if it breaks none; `judge` gives any other back. Two
//!   laws say that a chart breaks no rule exactly if it is accepted. Each call may run out of memory
//!   instead; a law says that the definition never does.
//! - Doesn't say: which other rules the chart breaks.
//! - A caller: `wf_top` judges the chart that it has read.
//! - A change of what is accepted begins in `wf_model`, in `specs/Accepted.antt`; one of the order
//!   of the rules in `specs/FirstFault.antt`.
#![tactic(auto)]

mod checker;
mod distinct;
mod fault;
mod known;
mod laws;
mod moves;
mod names;
mod numbers;
mod shape;
mod sizes;
mod sorts;
mod tree;

pub use checker::{check, first_fault, judge};
pub use fault::{CheckFault, TypePlace, What};
pub use laws::{accepted_has_no_fault, checking_has_memory, faultless_is_accepted};
