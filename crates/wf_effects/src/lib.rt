//! What the fired transitions of a step do beside moving: the store, the raised events and the
//! starts.
//!
//! - Promises: `effects` answers what the definitions give for these transitions in their order,
//!   and each variable keeps its sort. It refuses only if memory runs out.
//! - Doesn't say: which transitions fire.
//! - A caller: `wf_central::CentralState::step`, once it knows what fires.
//! - A change of what an action does begins in `specs/Effects.antt` of `wf_semantics`.
#![tactic(auto)]

mod firing;
mod gathered;
mod outcome;
mod raised;

pub use firing::effects;
pub use outcome::Effects;
