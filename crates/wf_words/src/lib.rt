//! The names of a chart's parts by their numbers, transitions, and numbers in decimal, as written
//! texts have them.
//!
//! - Promises: a name is that of the part, or empty if the chart has no such part. `append_number`
//!   adds a number in decimal, or runs out of memory and leaves the text as it was.
//!   `add_transitions` adds transitions by their numbers.
//! - Doesn't say: what stands around a name.
//! - A caller: `wf_audit` writes its replies with them.
//! - A change begins here if a part is to be named otherwise in all texts.
#![tactic(auto)]

mod names;
mod numbers;
mod transitions;

pub use names::{act_name, event_name, state_name, unit_name, var_name};
pub use numbers::append_number;
pub use transitions::add_transitions;
