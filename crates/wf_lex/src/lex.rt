//! The tokenizer.
ghost use Rattle.std.specs.Prelude.{◌≡◌, ◌≤◌, length, take_while, IfSome, IfOk};
ghost use Rattle.wf_model.specs.Names as names;
ghost use Rattle.wf_model.specs.Txt as txt;
ghost use Rattle.wf_lex.specs.Lex as spec;
ghost use Rattle.wf_model.specs.Limits.{max_input, max_tokens};
ghost use Rattle.wf_model.specs.Steps.{Gives};

use crate::{LexFault, Token, TokenKind};
use std::alloc::Global;
use wf_model::limits::MAX_TOKENS;
use wf_model::{List, is_digit, is_letter, is_text_char, is_word_char};

fn is_blank(byte: u8) -> bool
    ensures { result ≡ spec.is_blank byte }
{
    byte == b' ' || byte == b'\t' || byte == b'\r' || byte == b'\n'
}

fn word_len(bytes: &[u8]) -> usize
    ensures exact { result ≡ length (take_while names.is_word_char bytes.now) }
    ensures within { result ≤ length bytes.now }
{
    bytes.iter().take_while(|byte| is_word_char(**byte)).count()
}

fn digits_len(bytes: &[u8]) -> usize
    ensures exact { result ≡ length (take_while names.is_digit bytes.now) }
    ensures within { result ≤ length bytes.now }
{
    bytes.iter().take_while(|byte| is_digit(**byte)).count()
}

fn text_len(bytes: &[u8]) -> usize
    ensures { result ≡ length (take_while txt.is_text_char bytes.now) }
{
    bytes.iter().take_while(|byte| is_text_char(**byte)).count()
}

// How many bytes of the token follow its opening quote.
fn text_rest(bytes: &[u8]) -> Option<usize>
    ensures exact { result ≡ spec.text_rest bytes.now }
    ensures within { IfSome result (λ n. n ≤ length bytes.now) }
{
    let len = text_len(bytes);
    if len < bytes.len() && bytes[len] == b'"' {
        Some(len + 1)
    } else {
        None
    }
}

// How many bytes of the token follow its first one.
fn sign_rest(first: u8, bytes: &[u8]) -> Option<usize>
    ensures exact { result ≡ spec.sign_rest first bytes.now }
    ensures within { IfSome result (λ n. n ≤ length bytes.now) }
{
    let joins = bytes.len() > 0 && bytes[0] == b'=';
    match first {
        b';' | b',' | b'{' | b'}' | b'(' | b')' | b'=' | b'+' | b'-' | b'*' | b'/' | b'%' => Some(
            0,
        ),
        b':' | b'<' | b'>' => Some(if joins { 1 } else { 0 }),
        b'!' if joins => Some(1),
        _ => None,
    }
}

// The token that begins with this byte.
#[tactic(auto, unfolding(crate::specs::Lex::token_at))]
fn token_at(first: u8, bytes: &[u8]) -> Option<(TokenKind, usize)>
    ensures exact { result ≡ spec.token_at first bytes.now }
    ensures within { IfSome result (λ t. t.1 ≤ length bytes.now) }
{
    if is_letter(first) {
        Some((TokenKind::Word, word_len(bytes)))
    } else if is_digit(first) {
        Some((TokenKind::Int, digits_len(bytes)))
    } else if first == b'"' {
        Some((TokenKind::Text, text_rest(bytes)?))
    } else {
        Some((TokenKind::Sign, sign_rest(first, bytes)?))
    }
}

// The tokens of the text, of which it may have so many, or its first fault.
#[tactic(auto, unfolding(crate::specs::Lex::tokens_up_to))]
fn tokens_up_to(alloc: Global, text: &[u8], most: usize) -> Result<List<Token>, LexFault>
    requires { length text.now ≤ max_input }
    ensures exact { Gives LexFault.NoMemory result (spec.tokens_up_to most text.now) }
    ensures few { IfOk result (λ found. length found ≤ most) }
{
    let mut found = Vec::new(alloc);
    let mut at = 0;
    let mut in_comment = false;
    while at < text.len() {
        let byte = text[at];
        if in_comment {
            in_comment = byte != b'\n';
            at += 1;
        } else if is_blank(byte) {
            at += 1;
        } else if byte == b'#' {
            in_comment = true;
            at += 1;
        } else {
            let Some((kind, rest)) = token_at(byte, &text[at + 1..]) else {
                return Err(LexFault::BadByte { at: at as u32 });
            };
            if found.len() == most {
                return Err(LexFault::TooManyTokens { at: at as u32 });
            }
            let end = at + 1 + rest;
            found.push(Token {
                kind,
                start: at as u32,
                end: end as u32,
            })?;
            at = end;
        }
    }
    Ok(List::from_vec(found))
}

/// The tokens of a chart's text, or its first fault: the byte that starts no token or the token above the limit,
/// whichever stands first. In time and memory linear in the text.
#[tactic(auto, unfolding(crate::specs::Lex::tokens_of, crate::specs::Lex::tokens_up_to))]
pub fn tokens(alloc: Global, text: &[u8]) -> Result<List<Token>, LexFault>
    requires { length text.now ≤ max_input }
    ensures exact { Gives LexFault.NoMemory result (spec.tokens_of text.now) }
    ensures few { IfOk result (λ found. length found ≤ max_tokens) }
{
    tokens_up_to(alloc, text, MAX_TOKENS)
}

/// The tokens of a line, however many, or its first fault: the byte that starts no token. In time and memory linear in
/// the line.
#[tactic(auto, unfolding(crate::specs::Lex::line_tokens_of, crate::specs::Lex::tokens_up_to))]
pub fn line_tokens(alloc: Global, line: &[u8]) -> Result<List<Token>, LexFault>
    requires { length line.now ≤ max_input }
    ensures { Gives LexFault.NoMemory result (spec.line_tokens_of line.now) }
{
    tokens_up_to(alloc, line, line.len())
}
