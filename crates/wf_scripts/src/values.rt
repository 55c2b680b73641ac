//! The values of a script.
ghost use Rattle.std.specs.Prelude.{◌≡◌, ◌≤◌, ◌<◌, ◌^◌, pos, neg_ℤ, IfSome};
ghost use Rattle.wf_scripts.specs.Values as spec;

use wf_cursor::{number_up_to, short_text};
use wf_lex::{Token, TokenKind};
use wf_model::Val;
use wf_model::limits::MAX_INT;

/// The bytes of a token of the line.
pub fn text_at<'a>(line: &'a [u8], token: &Token) -> &'a [u8]
    ensures { result.now ≡ spec.text_at line.now token.now }
{
    let end = line.len().min(token.end as usize);
    let start = end.min(token.start as usize);
    &line[start..end]
}

fn int_by(most: u64, kind: TokenKind, spelling: &[u8]) -> Option<u64>
    requires { most < u64.MAX }
    ensures value { result ≡ spec.int_by most kind spelling.now }
    ensures fits { IfSome result (λ number. number ≤ most) }
{
    match kind {
        TokenKind::Int => number_up_to(most, spelling),
        TokenKind::Word | TokenKind::Text | TokenKind::Sign => None,
    }
}

/// The number of an Int, where it is at most this. Linear in its digits.
pub fn int_at(most: u64, line: &[u8], token: &Token) -> Option<u64>
    requires { most < u64.MAX }
    ensures value { result ≡ spec.int_at most line.now token.now }
    ensures fits { IfSome result (λ number. number ≤ most) }
{
    int_by(most, token.kind, text_at(line, token))
}

fn truth(word: &[u8]) -> Option<Val>
    ensures { result ≡ spec.truth word.now }
{
    if word == b"true".as_slice() {
        Some(Val::Bool(true))
    } else if word == b"false".as_slice() {
        Some(Val::Bool(false))
    } else {
        None
    }
}

// The value that one token is.
fn single_value(kind: TokenKind, spelling: &[u8]) -> Option<Val>
    ensures { result ≡ spec.single_value kind spelling.now }
{
    match kind {
        TokenKind::Word => truth(spelling),
        TokenKind::Int => Some(Val::Int(number_up_to(MAX_INT, spelling)? as i64)),
        TokenKind::Text => Some(Val::Text(short_text(spelling)?)),
        TokenKind::Sign => None,
    }
}

// The number below zero.
fn below_zero(number: u64) -> i64
    requires { number ≤ 2 ^ 63 }
    ensures { result ≡ neg_ℤ (pos number) }
{
    (0 - number as i128) as i64
}

fn negative_int(minus: &[u8], int: Option<u64>) -> Option<Val>
    requires { IfSome int (λ number. number ≤ 2 ^ 63) }
    ensures { result ≡ spec.negative_int minus.now int }
{
    if minus == b"-".as_slice() {
        Some(Val::Int(below_zero(int?)))
    } else {
        None
    }
}

/// The value that these tokens are: `true`, `false`, an Int, `-` and an Int, or a Text. None where they are something
/// else, a number that no value has, or a Text of over 64 characters. Linear in their bytes.
#[tactic(auto, unfolding(crate::specs::Values::value_of))]
pub fn value_of(line: &[u8], tokens: &[Token]) -> Option<Val>
    ensures { result ≡ spec.value_of line.now tokens.now }
{
    match tokens {
        [token] => single_value(token.kind, text_at(line, token)),
        [minus, int] => negative_int(text_at(line, minus), int_at(MAX_INT + 1, line, int)),
        _ => None,
    }
}
