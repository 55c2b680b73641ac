//! How the tokens of a text may be read.
ghost use Rattle.std.specs.Prelude.{◌≡◌, ◌≢◌, ℕ, List, Err, false};
ghost use Rattle.wf_lex.specs.declared.token.LexFault.TheVariants.{TooManyTokens};
ghost use Rattle.wf_lex.specs.Lex.{line_tokens_of, tokens_of};
ghost use Rattle.wf_lex.specs.Slices.{AreSlices};

use crate::Token;

/// Each token of a text is its slice, the one that `token_at` answers there. Tokens stand in order, and around them
/// stand blanks and comments alone.
pub fn tokens_are_slices(text: &[u8], tokens: &[Token])
    requires { tokens_of text.now ≡ Ok tokens.now }
    ensures { AreSlices false 0 text.now tokens.now }
{}

/// A line never has too many tokens.
pub fn lines_have_no_limit()
    ensures { (line : List ℕ) (at : ℕ) → line_tokens_of line ≢ Err (TooManyTokens at) }
{}
