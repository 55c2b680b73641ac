//! The grammar of charts and of expressions as relations, and laws that the readers say the same.
//!
//! - Promises: a text means a chart exactly if its tokens are a text of that chart by the grammar,
//!   and they are a text of at most one chart. The same holds of expressions within the limits on
//!   nodes and parentheses. Each public function is a law and has nothing to do.
//! - Doesn't say: which fault a text has that means no chart.
//! - A caller: the proofs of `wf_readback` show by these laws what the canonical text means.
//! - A change of the chart's grammar is made here too, in the relation of the rule.
#![tactic(auto)]

mod chart_laws;
mod laws;

pub use chart_laws::{chart_read_is_spelled, chart_spelled_is_read, spells_one_chart};
pub use laws::{read_is_spelled, spelled_is_read, spells_one};
