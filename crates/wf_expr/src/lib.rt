//! What an expression is: before it runs its size, its numbers and its sort, and over a snapshot
//! its value.
//!
//! - Promises: `type_of` answers the sort that the rules give, or their fault. `value` answers the
//!   value that the rules give, or their fault, and a value has the expression's sort. Neither
//!   takes memory.
//! - Doesn't say: anything of the value of an expression that has no sort.
//! - A caller: `wf_effects::effects` works out each assigned value with `value`.
//! - A change of an operator begins in `wf_model`, in `specs/Sorts.antt` and `specs/Values.antt`.
#![tactic(auto)]

mod arithmetic;
mod known;
mod size;
mod snapshot;
mod sorts;
mod values;

pub use known::is_known_expr;
pub use size::has_at_most;
pub use snapshot::Snapshot;
pub use sorts::type_of;
pub use values::{outcome, value};
