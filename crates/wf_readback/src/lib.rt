//! The canonical text of a chart is read back as that chart, and it is made of printable lines.
//!
//! - Promises: the canonical text of an accepted chart is a text of this chart by the grammar. It
//!   means this chart if it has at most as many tokens, or as many bytes, as a text may have
//!   tokens. A public function is a law and has nothing to do, or reads a chart to show that a law
//!   fits it.
//! - Doesn't say: that the text has at most 4 MiB, which the reader asks for too.
//! - A caller: none; who prints a chart with `wf_print::print_chart` may call
//!   `checked_is_read_back`.
//! - A change of the canonical text is made here too, in `proofs/ChartSpans.antt`.
#![tactic(auto)]

mod checked;
mod held;
mod laws;

pub use checked::{checked_is_lined, checked_is_read_back, checked_is_spelled};
pub use held::chart_is_held;
pub use laws::{
    chart_is_read_back, chart_is_spelled, cut_is_answered, cuts_are_equal, meant_is_text_of,
    short_text_is_read_back, text_of_few_is_meant,
};
