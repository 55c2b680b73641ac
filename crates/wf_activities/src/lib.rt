//! Items: the starts of activities, numbered from 1 at each unit. `Items` has those of one unit,
//! `AllItems` those of all units of a chart, with the admission rule.
//!
//! - Promises: a completion is refused exactly if the rule refuses it. A step closes what its
//!   entries complete, and adds and numbers what it starts. The counts of open items are those that
//!   the definition counts. After a step that runs out of memory all is as before.
//! - Doesn't say: that it finds memory. Only `Items::grow` does, if there is room for its items.
//! - A caller: `wf_central::CentralState` keeps the `AllItems` of its chart.
//! - A change begins here if more is to be known of an item.
#![tactic(auto)]

mod admission;
mod all_items;
mod completions;
mod counts;
mod growing;
mod items;
mod laws;
mod numbers;
mod outputs;
mod starts;
mod tables;

pub use admission::is_event_at;
pub use all_items::AllItems;
pub use completions::done_bits;
pub use items::Items;
pub use laws::{
    closed_stays_closed, closes_one, completes_by_admission, counts_open_items, grows_by_step,
    keeps_numbers,
};
pub use outputs::has_sort;
pub use starts::is_listed;
