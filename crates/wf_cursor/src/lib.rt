//! What every rule of the grammar reads by: the tokens that are left, and the names and parts that
//! were declared so far.
//!
//! - Promises: a call answers what the step of its name in `specs/Input.antt` answers. A call that
//!   is refused leaves the cursor as it was, also if memory runs out.
//! - Doesn't say: in which order the calls come; that is the grammar's to say.
//! - A caller: `wf_phrase::expr` takes the tokens of an expression from a `Cursor`.
//! - A change begins here if it adds a word, a sign or a kind of name.
#![tactic(auto)]

mod cursor;
mod fault;
mod laws;
mod names;
mod piece;
mod value;

pub use cursor::Cursor;
pub use fault::TextFault;
pub use laws::names_are_not_reserved;
pub use names::Declared;
pub use piece::Piece;
pub use value::{number_up_to, short_text};
