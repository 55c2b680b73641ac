//! The names of a head.
ghost use Rattle.std.specs.Prelude.{◌≡◌};
ghost use Rattle.wf_codec.specs.Reading.{ReadsAs, Reads, byte_that, bytes_that};
ghost use Rattle.wf_codec.specs.Records.{head_name_at};
ghost use Rattle.wf_codec.specs.Records as spec;

use crate::fault::{FieldFault, Misfit};
use crate::field::{bad_field, u8_in};
use std::alloc::Global;
use wf_model::limits::MAX_NAME;
use wf_model::{Name, is_word_char};

/// A name behind its length. Linear in it.
#[tactic(auto, unfolding(crate::specs::Records::head_name_at))]
pub fn head_name_of(alloc: Global, bytes: &[u8]) -> Result<(Name, &[u8]), FieldFault>
    ensures { Reads result (head_name_at bytes.now) }
{
    let (len, rest) = u8_in(bytes, 1, MAX_NAME as u64 + 1)?;
    let (chars, rest) = head_chars_of(len, rest)?;
    let name = Name::new(alloc, chars)?;
    Ok((name, rest))
}

/// So many characters of a name, lent. Linear in them.
fn head_chars_of(count: u8, bytes: &[u8]) -> Result<(&[u8], &[u8]), FieldFault>
    ensures { ReadsAs (λ x. (x.0.now, x.1.now)) result (bytes_that spec.is_head_char count bytes.now) }
{
    let mut rest = bytes;
    for _ in 0..count {
        let (_, after) = head_char_of(rest)?;
        rest = after;
    }
    Ok(bytes.split_at(usize::from(count)))
}

/// A character of a name.
#[tactic(auto, unfolding(crate::specs::Reading::byte_that))]
fn head_char_of(bytes: &[u8]) -> Result<(u8, &[u8]), FieldFault>
    ensures { Reads result (byte_that spec.is_head_char bytes.now) }
{
    match bytes {
        [] => Err(FieldFault::Misfit(Misfit::Short)),
        [c, rest @ ..] => {
            if is_head_char(*c) {
                Ok((*c, rest))
            } else {
                Err(bad_field(bytes))
            }
        }
    }
}

/// Whether the byte may stand in a name.
fn is_head_char(byte: u8) -> bool
    ensures { result ≡ spec.is_head_char byte }
{
    is_word_char(byte) || byte == b'-'
}
