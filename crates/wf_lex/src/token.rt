//! Tokens, and why a text has none.
ghost use Rattle.std.specs.Prelude.{◌≡◌};
ghost use Rattle.wf_lex.specs.declared.token.LexFault.TheVariants.{NoMemory};

use std::alloc::AllocFailed;

/// A kind of token.
#[derive(Clone, Copy)]
pub enum TokenKind {
    /// A letter, and letters, digits and `_`.
    Word,
    /// Digits.
    Int,
    /// Text characters between two quotes.
    Text,
    /// One of `; : , { } ( ) = != < <= > >= + - * / % :=`.
    Sign,
}

/// A token: its kind, the place of its first byte and the place behind its last one. Places count from 0.
#[derive(Clone, Copy)]
pub struct Token {
    pub kind: TokenKind,
    pub start: u32,
    pub end: u32,
}

/// Why a text has no tokens.
#[derive(Clone, Copy)]
pub enum LexFault {
    /// No token starts with the byte at this place.
    BadByte { at: u32 },
    /// The first token above the limit starts at this place.
    TooManyTokens { at: u32 },
    /// Memory ran out.
    NoMemory,
}

impl<T: Drop> From<AllocFailed<T>> for LexFault {
    ghost from_gives = { λ _ e. e ≡ NoMemory };

    fn from(_e: AllocFailed<T>) -> LexFault {
        LexFault::NoMemory
    }
}
