//! What the units of a chart do together, worked out from their parts and from their histories.
//!
//! - Promises: `shares` answers, for each step of a central run, the share of each unit. `merged`
//!   answers the merged list of the units' histories; if they agree, it is a run of the chart, over
//!   which each unit shows the central state. Both refuse only if memory runs out.
//! - Doesn't say: that servers did so; `wf_histories` says when histories agree.
//! - A caller: `wf_world` works out the merged list of its units' histories as a play ends, with
//!   `places_by_turn` and `places_in_order`. No command shows shares.
//! - A change of what a share is begins in `Shares` of `wf_lockstep`, one of the merged list in
//!   `Agreement` of `wf_histories`.
#![tactic(auto)]

mod contributions;
mod merging;

pub use contributions::shares;
pub use merging::{merged, places_by_turn, places_in_order};
