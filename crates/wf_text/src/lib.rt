//! The text of a chart. Each rule of its grammar is a definition, and the function that reads it
//! has the rule's name.
//!
//! - Promises: `read_chart` answers the chart that the definition `chart_of` gives for the text, or
//!   its fault with line and column, or that memory ran out.
//! - Doesn't say: that the chart is accepted.
//! - A caller: `wf_top::mentor` reads the chart of every input with `read_chart`.
//! - A change of the chart's grammar begins in the definition of the rule.
#![tactic(auto)]

mod actions;
mod chart_fault;
mod declarations;
mod places;
mod states;
mod text;
mod transitions;

pub use chart_fault::ChartFault;
pub use text::read_chart;
