//! Why a text means no chart, and where.
ghost use Rattle.std.specs.Prelude.{◌≡◌, ◌≤◌, length};
ghost use Rattle.wf_model.specs.Limits.{max_input};
ghost use Rattle.wf_text.specs.ChartFaults as spec;

use crate::places::{Place, place_of};
use wf_cursor::TextFault;
use wf_lex::Token;

/// Why a text means no chart, with the line and the column where that shows. Both count bytes from 1.
#[derive(Clone, Copy)]
pub enum ChartFault {
    /// No token starts with this byte.
    BadByte { line: u32, col: u32 },
    /// The first token above the limit starts here.
    TooManyTokens { line: u32, col: u32 },
    /// No rule goes on with the token here.
    Syntax { line: u32, col: u32 },
    /// The name here isn't declared as what is wanted.
    UnknownName { line: u32, col: u32 },
    /// The name here was declared before.
    DoubleName { line: u32, col: u32 },
    /// What stands here is too large.
    Oversize { line: u32, col: u32 },
    /// Memory ran out.
    NoMemory,
}

// Where a token starts, or the end of the text where there is no such token.
fn token_place(text: &[u8], tokens: &[Token], at: usize) -> Place
    requires { length text.now ≤ max_input }
    ensures { result ≡ spec.token_place text.now tokens.now at }
{
    let start = match tokens.get(at) {
        Some(token) => token.start as usize,
        None => text.len(),
    };
    place_of(text, start)
}

/// The fault with its place, of a text with these tokens. Linear in the text.
#[tactic(auto, unfolding(crate::specs::ChartFaults::placed_fault))]
pub fn placed_fault(text: &[u8], tokens: &[Token], fault: TextFault) -> ChartFault
    requires { length text.now ≤ max_input }
    ensures { result ≡ spec.placed_fault text.now tokens.now fault }
{
    match fault {
        TextFault::BadByte { at } => {
            let Place { line, col } = place_of(text, at as usize);
            ChartFault::BadByte { line, col }
        }
        TextFault::TooManyTokens { at } => {
            let Place { line, col } = place_of(text, at as usize);
            ChartFault::TooManyTokens { line, col }
        }
        TextFault::Syntax { at } => {
            let Place { line, col } = token_place(text, tokens, at);
            ChartFault::Syntax { line, col }
        }
        TextFault::UnknownName { at } => {
            let Place { line, col } = token_place(text, tokens, at);
            ChartFault::UnknownName { line, col }
        }
        TextFault::DoubleName { at } => {
            let Place { line, col } = token_place(text, tokens, at);
            ChartFault::DoubleName { line, col }
        }
        TextFault::Oversize { at } => {
            let Place { line, col } = token_place(text, tokens, at);
            ChartFault::Oversize { line, col }
        }
        TextFault::NoMemory => ChartFault::NoMemory,
    }
}
