//! The tables of a chart, worked out once: which states are above a state, the scopes of
//! transitions, what these enter, and which states are in by default.
//!
//! - Promises: the tables are those that the definitions give for an accepted chart. For numbers of
//!   the chart `scope`, `enters`, `above` and `lineage` answer what the definitions say.
//! - Doesn't say: what these answer for a number that the chart doesn't have.
//! - A caller: `wf_central` works out `Scopes::of` a chart before the first step.
//! - A change begins here if a step has to look up what it walks for now.
#![tactic(auto)]

mod defaults;
mod entries;
mod lineages;
mod scope;
mod scopes;

pub use defaults::default_bits;
pub use scopes::Scopes;
