//! A text is cut into tokens.
//!
//! - Promises: `tokens` answers the tokens that the definition `tokens_of` gives, or its first
//!   fault: the first byte that begins no token, or the first token too many. `line_tokens` does so
//!   for a line of a script, where the number of tokens has no limit.
//! - Doesn't say: what a token means; that is for `wf_cursor`.
//! - A caller: `wf_text::read_chart` cuts a chart's text with `tokens`.
//! - A change of a token begins in `specs/Lex.antt`.
#![tactic(auto)]

mod laws;
mod lex;
mod token;

pub use laws::{lines_have_no_limit, tokens_are_slices};
pub use lex::{line_tokens, tokens};
pub use token::{LexFault, Token, TokenKind};
