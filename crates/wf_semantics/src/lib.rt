//! What a chart does, as definitions: which states are in, which transitions fire, what a step
//! writes, raises and starts, what a unit may admit, and the central run, step by step.
//!
//! - Promises: each public function is a law of these definitions and has nothing to do. For every
//!   accepted chart a step leads from a configuration to a configuration, and what fires in a run
//!   are the enabled transitions that no enabled one blocks.
//! - Doesn't say: that anything fires.
//! - A caller: `wf_central::CentralState::step` promises the `next_state` of `specs/Run.antt`.
//! - A change of a rule of the step begins here, in the file of that rule. The laws then tell what
//!   else has to change.
#![tactic(auto)]

mod laws;

pub use laws::{
    configuration_is_its_bits, default_is_configuration, entry_tree_fits, run_goes_by_rule,
    scope_is_lowest, trees_read, walk_fires_by_rule, walk_keeps_configurations, walk_moves_by_rule,
};
