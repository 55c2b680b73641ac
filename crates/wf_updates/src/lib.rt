//! Views that are held in memory, and what a peer is sent of an update.
//!
//! - Promises: `View::first` is the first view of the unit's part. `absorb` takes in a step exactly
//!   as the definition says, or runs out of memory and leaves the view as it was. `relevant`
//!   answers what a peer is sent of an update.
//! - Doesn't say: that it finds memory. `absorb` asks that no count passes 32 bits.
//! - A caller: `wf_steps` keeps a unit's view from turn to turn, for `mentor play`.
//! - A change begins here if a step is to be taken in in another way. What it does is defined in
//!   `wf_views`.
#![tactic(auto)]

mod after;
mod cut;
mod first;
mod gather;
mod now;
mod numbers;
mod sets;
mod tables;
mod view;

pub use cut::relevant;
pub use sets::{event_set, known_state_set};
pub use tables::{entry_at, table_of};
pub use view::View;
