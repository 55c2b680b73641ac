//! The lines that tell of a chart that it is accepted, or why a chart, a script or a report is
//! refused.
//!
//! - Promises: each call answers the line that its definition gives, or runs out of memory.
//! - Doesn't say: whether there is such a fault; that is for the caller to know.
//! - A caller: `wf_top` answers with `check_fault_line` if a chart breaks a rule.
//! - A change of a fault's wording begins in its definition: `specs/TextFaults.antt`,
//!   `specs/CheckFaults.antt` or `specs/Scripts.antt`.
#![tactic(auto)]

mod accepted;
mod check;
mod script;
mod text;

pub use accepted::accepted_line;
pub use check::check_fault_line;
pub use script::{script_line, too_long_report, too_many_lines};
pub use text::text_fault_line;
