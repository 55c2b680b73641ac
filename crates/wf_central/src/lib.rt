//! The central run of a chart: its state, step by step, and the outers that were admitted for the
//! next step.
//!
//! - Promises: a step leads to the next state that the definitions give, and notes what fired and
//!   what was started. An outer is refused exactly if the rule refuses it. A refusal leaves the run
//!   as it was, and so does a call that runs out of memory.
//! - Doesn't say: that a step finds memory. It asks for fewer than 20,000 steps before.
//! - A caller: `wf_audit::run_central` makes a run of the lines of a script.
//! - A change begins here if a step is to be done in another way. What it does is defined in
//!   `wf_semantics`.
#![tactic(auto)]

mod outputs;
mod passes;
mod pending;
mod run;
mod snapshot;
mod state;

pub use run::CentralRun;
pub use state::CentralState;
