//! What holds of a chart over all its steps: the numbers of items, what is closed and counted, and
//! what decides a step.
//!
//! - Promises: each public function is a law of the central run and has nothing to do. An item
//!   keeps its number, and a closed one stays closed. If the entries of each step may come, at most
//!   one entry of the run completes an item.
//! - Doesn't say: that two states that see the same give their items the same numbers.
//! - A caller: the proofs of `wf_histories` cite these laws for the items of a merged list.
//! - A change of how items are numbered or completed shows here.
#![tactic(auto)]

mod laws;

pub use laws::{
    closed_for_good, closed_is_completed, completed_once, counts_open_starts, items_are_starts,
    no_second_completion, numbers_go_on, starts_are_in_order, starts_go_on, starts_have_units,
    starts_keep_numbers, step_goes_by_sight,
};
