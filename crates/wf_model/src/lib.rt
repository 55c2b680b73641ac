//! The types that every crate speaks of, and the definitions that change least: limits, names,
//! sorts and values of expressions, and which charts are accepted.
//!
//! - Promises: a `List`, `Name` or `Txt` changes only as its methods say, and not at all when a
//!   method runs out of memory. A copy equals its original. The chart in a `Checked` is accepted.
//! - Doesn't say: how much room a list has.
//! - A caller: `wf_top` reads a `Chart` from text, and seals it as `Checked` if it breaks no rule.
//! - A change begins here if it changes a limit (its number in `specs/Limits.antt`, its constant in
//!   `src/limits.rt`), a type of a chart, which charts are accepted, or what an expression is
//!   worth.
#![tactic(auto)]

mod bits;
mod chart;
mod checked;
mod duplicate;
mod expr;
mod fault;
mod ids;
pub mod limits;
mod list;
mod name;
mod outer;
mod same;
mod status;
mod step_notes;
mod txt;
mod update;
mod value;

pub use bits::Bits;
pub use chart::{Action, Activity, Chart, Event, Kind, State, Transition, Variable};
pub use checked::Checked;
pub use duplicate::Duplicate;
pub use expr::{Expr, Fault, Op, TypeFault};
pub use fault::{Failed, NoMemory};
pub use ids::{ActId, EventId, StateId, TransId, UnitId, VarId};
pub use list::{Bytes, List};
pub use name::{Name, is_digit, is_letter, is_name, is_reserved, is_word_char};
pub use outer::{Entry, Outer, OuterFault, Output};
pub use same::Same;
pub use status::Status;
pub use step_notes::StepNotes;
pub use txt::{Txt, is_text_char};
pub use update::{StartAt, UnitSet, Update, Write};
pub use value::{Sort, Val};
