//! The part of each unit, worked out from the components of the chart.
//!
//! - Promises: `part_of` answers the part that the definition gives, and so nothing else of the
//!   chart. `split_text` answers the defined text of all parts.
//! - Doesn't say: that it finds memory. Both ask for the components of this chart.
//! - A caller: `wf_top` answers the command `split` with `split_text`.
//! - A change of a line of `split` begins in `specs/SplitText.antt`; one of what a unit is given in
//!   `wf_parts`.
#![tactic(auto)]

mod holding;
mod knowing;
mod lists;
mod marks;
mod part;
mod peers;
mod reading;
mod split;

pub use part::part_of;
pub use split::split_text;
