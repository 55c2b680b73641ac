//! The items of a unit: which are done, and who did which.
//!
//! - Promises: `worklist` gives the items in order of number, done exactly if an admission of the
//!   history completes them. On a `Board` an item is with the worker to whom it was last assigned,
//!   and an assignment leaves who has the other items. If memory runs out, the item is with whom it
//!   was.
//! - Doesn't say: that the worker does the item.
//! - A caller: `wf_slot` lists the items of a server with `worklist`. A `Board` has none.
//! - A change begins here if more is to be known of who did an item.
#![tactic(auto)]

mod board;
mod listing;

pub use board::Board;
pub use listing::{Item, worklist};
