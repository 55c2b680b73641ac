//! The components of a chart, worked out by its tables, and the lines that show them.
//!
//! - Promises: `orthogonalise` answers the components that the definition gives, with the blockers
//!   of each transition. The line of a component is the defined one. If memory runs out, a text
//!   that was to grow is as before.
//! - Doesn't say: that it finds memory.
//! - A caller: `wf_top` cuts a chart with `orthogonalise` for the command `split`.
//! - A change of what a component is begins in `specs/Components.antt` of `wf_parts`; one of its
//!   line in `specs/Lines.antt`.
#![tactic(auto)]

mod components;
mod lines;

pub use components::orthogonalise;
pub use lines::{append_component, append_transitions, guard_text};
