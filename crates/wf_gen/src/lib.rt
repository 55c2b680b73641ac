//! Input of some size from a number: a chart of three units, and a script that admits a thousand
//! events. The same number gives the same input.
//!
//! - Promises: `gen_text` answers the text that the definition of its name gives, or runs out of
//!   memory. A law says that the chart of each number is accepted.
//! - Doesn't say: that the draws are like chance, or what a run of the script does.
//! - A caller: `wf_top`, for the command `gen`.
//! - A change of what is drawn begins in `specs/Draws.antt`, of the chart in `specs/GenChart.antt`,
//!   and of the script in `specs/GenScript.antt`.
#![tactic(auto)]

mod chart;
mod draws;
mod laws;
mod script;
mod states;
mod text;
mod transitions;

pub use laws::generated_is_accepted;
pub use text::gen_text;
