//! Names, and the words that may be one.
ghost use Rattle.std.specs.Prelude.{◌≡◌, IfOk};
ghost use Rattle.std.specs.Str.{bytes_eq};
ghost use Rattle.wf_model.specs.Names as spec;

use crate::limits::MAX_NAME;
use crate::{Bytes, Duplicate, List, NoMemory};
use std::alloc::Global;
use std::marker::Model;

/// The bytes of a name.
#[derive(Debug, Drop)]
pub struct Name {
    bytes: Bytes,
}

impl Model for Name {
    ghost use Rattle.std.specs.Prelude.{List, ℕ};

    ghost Value = { List ℕ };

    ghost view = { λ name. name.bytes };
}

impl Name {
    /// A name of these bytes.
    pub fn new(alloc: Global, bytes: &[u8]) -> Result<Name, NoMemory>
        ensures { IfOk result (λ name. name ≡ bytes.now) }
    {
        Ok(Name {
            bytes: List::from_slice(alloc, bytes)?,
        })
    }

    /// The bytes, lent.
    pub fn as_bytes(&self) -> &[u8]
        ensures { result.now ≡ self.now }
    {
        self.bytes.as_slice()
    }
}

impl Duplicate for Name {
    fn copy(&self, alloc: Global) -> Result<Name, NoMemory> {
        Name::new(alloc, self.as_bytes())
    }
}

/// Whether the byte is an ASCII letter.
pub fn is_letter(byte: u8) -> bool
    ensures { result ≡ spec.is_letter byte }
{
    byte.is_ascii_uppercase() || byte.is_ascii_lowercase()
}

/// Whether the byte is an ASCII digit.
pub fn is_digit(byte: u8) -> bool
    ensures { result ≡ spec.is_digit byte }
{
    byte.is_ascii_digit()
}

/// Whether the byte may stand in a word behind its first letter.
pub fn is_word_char(byte: u8) -> bool
    ensures { result ≡ spec.is_word_char byte }
{
    is_letter(byte) || is_digit(byte) || byte == b'_'
}

fn is_same_word(word: &[u8], other: &[u8]) -> bool
    ensures { result ≡ bytes_eq word.now other.now }
{
    word == other
}

fn is_declaring(word: &[u8]) -> bool
    ensures { result ≡ spec.is_declaring word.now }
{
    is_same_word(word, b"chart")
        || is_same_word(word, b"unit")
        || is_same_word(word, b"event")
        || is_same_word(word, b"var")
        || is_same_word(word, b"activity")
        || is_same_word(word, b"at")
        || is_same_word(word, b"gives")
        || is_same_word(word, b"basic")
        || is_same_word(word, b"or")
        || is_same_word(word, b"and")
}

fn is_moving(word: &[u8]) -> bool
    ensures { result ≡ spec.is_moving word.now }
{
    is_same_word(word, b"from")
        || is_same_word(word, b"to")
        || is_same_word(word, b"on")
        || is_same_word(word, b"if")
        || is_same_word(word, b"do")
        || is_same_word(word, b"raise")
        || is_same_word(word, b"start")
}

fn is_valued(word: &[u8]) -> bool
    ensures { result ≡ spec.is_valued word.now }
{
    is_same_word(word, b"true")
        || is_same_word(word, b"false")
        || is_same_word(word, b"not")
        || is_same_word(word, b"in")
        || is_same_word(word, b"count")
        || is_same_word(word, b"done")
        || is_same_word(word, b"bool")
        || is_same_word(word, b"int")
        || is_same_word(word, b"text")
}

/// Whether the word is one of the language's own.
#[tactic(auto, unfolding(crate::specs::Names::is_reserved))]
pub fn is_reserved(word: &[u8]) -> bool
    ensures { result ≡ spec.is_reserved word.now }
{
    is_declaring(word) || is_moving(word) || is_valued(word)
}

fn is_word(bytes: &[u8]) -> bool
    ensures { result ≡ spec.is_word bytes.now }
{
    match bytes {
        [] => false,
        [first, rest @ ..] => is_letter(*first) && are_word_chars(rest),
    }
}

fn are_word_chars(bytes: &[u8]) -> bool
    ensures { result ≡ spec.are_word_chars bytes.now }
{
    bytes.iter().all(|byte| is_word_char(*byte))
}

/// Whether the bytes may be a name: a word of at most 32 bytes that isn't reserved. Linear in the bytes.
#[tactic(auto, unfolding(crate::specs::Names::is_name))]
pub fn is_name(bytes: &[u8]) -> bool
    ensures { result ≡ spec.is_name bytes.now }
{
    bytes.len() <= MAX_NAME && is_word(bytes) && !is_reserved(bytes)
}
