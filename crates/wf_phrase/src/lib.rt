//! Expressions, literals and sorts in a chart's text. The function that reads a rule of their
//! grammar has the rule's name.
//!
//! - Promises: `expr`, `literal` and `sort` answer what the rules in `specs/` answer, with their
//!   precedence, sizes and faults; `expr` may run out of memory instead. After a fault of `sort` the
//!   cursor is as before, and after one of `literal` too, or after its `-`.
//! - Doesn't say: that an expression has a sort; where the cursor is after a fault of `expr`.
//! - A caller: `wf_text` reads the guard of a transition with `expr`.
//! - A change of an operator or of its precedence begins in `specs/Operators.antt` or
//!   `specs/Expressions.antt`.
#![tactic(auto)]

mod expression;
mod literals;
mod operators;
mod rules;

pub use expression::expr;
pub use literals::{literal, sort};
