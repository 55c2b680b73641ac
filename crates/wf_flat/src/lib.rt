//! A step by parts: what a unit makes of its view by its part alone, and the run of all parts side
//! by side.
//!
//! - Promises: `own_step` answers the update that the definitions make of a part and a view of it,
//!   also of a view that no run leads to. `lockstep` answers the updates of the run of all parts.
//!   Each may run out of memory instead.
//! - Doesn't say: that the parts are those of one chart. The law of `wf_lockstep` says what the run
//!   is if they are.
//! - A caller: `wf_projection` works out the shares of a central run with `lockstep`.
//! - A change of the step begins in `wf_semantics` and `wf_views`; here only how it is worked out.
#![tactic(auto)]

mod firing;
mod flips;
mod gathered;
mod lock;
mod sighting;
mod steps;

pub use lock::lockstep;
pub use steps::own_step;
