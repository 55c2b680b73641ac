//! The canonical text of an accepted chart.
//!
//! - Promises: `print_chart` answers the text that the definition `chart_text` gives, or runs out
//!   of memory. Laws say, if its texts are of text characters, that it is printable, that each line
//!   ends with LF, and that none is empty or begins with `-`.
//! - Doesn't say: what the text means; that is `wf_readback`.
//! - A caller: `wf_gen` prints the chart that it makes of a number.
//! - A change of the canonical text begins in the definition of the line.
#![tactic(auto)]

mod chart;
mod declarations;
mod expressions;
mod laws;
mod states;
mod transitions;
mod words;

pub use chart::print_chart;
pub use laws::{states_read, text_is_lined};
