//! Why a text means no chart.
ghost use Rattle.std.specs.Prelude.{◌≡◌};
ghost use Rattle.wf_cursor.specs.Fault.{fault_of};
ghost use Rattle.wf_cursor.specs.declared.fault.TextFault.TheVariants.{NoMemory};

use wf_lex::LexFault;

/// Why a text means no chart. The first two faults name a byte by its place, the others a token by its number,
/// which at the end of the text is the number of all tokens. Both count from 0.
#[derive(Clone, Copy)]
pub enum TextFault {
    /// No token starts with this byte.
    BadByte { at: u32 },
    /// The first token above the limit starts with this byte.
    TooManyTokens { at: u32 },
    /// No text of the grammar has this token behind those before it.
    Syntax { at: usize },
    /// This name isn't declared as what is wanted here.
    UnknownName { at: usize },
    /// This name was declared before.
    DoubleName { at: usize },
    /// This name, Text or Int is too large, this brace or parenthesis is one too many open ones, or this token would
    /// make one node too many of its expression.
    Oversize { at: usize },
    /// Memory ran out.
    NoMemory,
}

impl From<LexFault> for TextFault {
    ghost from_gives = { λ e fault. fault ≡ fault_of e };

    fn from(e: LexFault) -> TextFault {
        match e {
            LexFault::BadByte { at } => TextFault::BadByte { at },
            LexFault::TooManyTokens { at } => TextFault::TooManyTokens { at },
            LexFault::NoMemory => TextFault::NoMemory,
        }
    }
}

impl From<wf_model::NoMemory> for TextFault {
    ghost from_gives = { λ _ fault. fault ≡ NoMemory };

    fn from(_e: wf_model::NoMemory) -> TextFault {
        TextFault::NoMemory
    }
}
