//! Values: truths, integers and texts.
ghost use Rattle.std.specs.Prelude.{◌≤◌};
ghost use Rattle.wf_model.specs.Txt.{is_text_char as is_text};
ghost use Rattle.wf_codec.specs.Reading.{Reads, byte_that, bytes_that};
ghost use Rattle.wf_codec.specs.Fields.{bool_at, int_at, text_at, value_at};
ghost use Rattle.wf_model.specs.Limits.{max_text};

use crate::fault::{FieldFault, Misfit};
use crate::field::{bad_field, u8_in, u64_of};
use wf_model::limits::MAX_TEXT;
use wf_model::{Txt, Val, is_text_char};

/// The sort of a truth, the first byte of its value.
pub const BOOL: u8 = 0;

/// The sort of an integer.
pub const INT: u8 = 1;

/// The sort of a text.
pub const TEXT: u8 = 2;

/// A text character.
#[tactic(auto, unfolding(crate::specs::Reading::byte_that))]
fn char_of(bytes: &[u8]) -> Result<(u8, &[u8]), FieldFault>
    ensures { Reads result (byte_that is_text bytes.now) }
{
    match bytes {
        [] => Err(FieldFault::Misfit(Misfit::Short)),
        [c, rest @ ..] => {
            if is_text_char(*c) {
                Ok((*c, rest))
            } else {
                Err(bad_field(bytes))
            }
        }
    }
}

/// So many text characters, at most 64. Linear in them.
fn chars_of(count: u8, bytes: &[u8]) -> Result<(Txt, &[u8]), FieldFault>
    requires { count ≤ max_text }
    ensures { Reads result (bytes_that is_text count bytes.now) }
{
    let mut text = Txt::new();
    let mut rest = bytes;
    for _ in 0..count {
        let (c, after) = char_of(rest)?;
        text.push(c);
        rest = after;
    }
    Ok((text, rest))
}

/// A truth behind its sort.
#[tactic(auto, unfolding(crate::specs::Fields::bool_at))]
fn bool_of(bytes: &[u8]) -> Result<(Val, &[u8]), FieldFault>
    ensures { Reads result (bool_at bytes.now) }
{
    let (truth, rest) = u8_in(bytes, 0, 2)?;
    Ok((Val::Bool(truth == 1), rest))
}

/// An integer behind its sort.
#[tactic(auto, unfolding(crate::specs::Fields::int_at))]
fn int_of(bytes: &[u8]) -> Result<(Val, &[u8]), FieldFault>
    ensures { Reads result (int_at bytes.now) }
{
    let (number, rest) = u64_of(bytes)?;
    Ok((Val::Int(number.cast_signed()), rest))
}

/// A text behind its sort.
#[tactic(auto, using(crate::proofs::ReadFields::byte_is_below), unfolding(crate::specs::Fields::text_at))]
fn text_of(bytes: &[u8]) -> Result<(Val, &[u8]), FieldFault>
    ensures { Reads result (text_at bytes.now) }
{
    let (len, rest) = u8_in(bytes, 0, MAX_TEXT as u64 + 1)?;
    // Not by `?`, which has no proof yet at a text beside a slice.
    match chars_of(len, rest) {
        Ok((text, rest)) => Ok((Val::Text(text), rest)),
        Err(fault) => Err(fault),
    }
}

/// A value behind its sort, which is a byte: a truth, an integer or a text.
#[tactic(auto, unfolding(crate::specs::Fields::value_at))]
pub fn value_of(bytes: &[u8]) -> Result<(Val, &[u8]), FieldFault>
    ensures { Reads result (value_at bytes.now) }
{
    let (sort, rest) = u8_in(bytes, u64::from(BOOL), u64::from(TEXT) + 1)?;
    match sort {
        BOOL => bool_of(rest),
        INT => int_of(rest),
        _ => text_of(rest),
    }
}
