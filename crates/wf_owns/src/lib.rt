//! What a unit's own update is like, on every view of its part, also on one that no run leads to.
//!
//! - Promises: it is in the ranges and orders that the format asks for, if its outers are at the
//!   unit, with items from 1 on, and are at most 64. Its values, and those of views that take in
//!   such updates, have their sorts. Each public function is a law and has nothing to do.
//! - Doesn't say: that a run leads to the view.
//! - A caller: the proofs of `wf_worlds` show by it that all that is sent can be spelled.
//! - A change of a bound of the format shows here.
#![tactic(auto)]

mod laws;

pub use laws::{
    absorbed_is_sorted, cut_is_fit, first_is_sorted, own_in_range, own_is_fit, part_is_sorted,
    sees_sorts,
};
