//! Literals, and the words of sorts.
ghost use Rattle.std.specs.Prelude.{◌≡◌, ◌≤◌, ◌^◌, pos, neg_ℤ, OnErr};
ghost use Rattle.wf_cursor.specs.Input.{ReadsExactly, next};
ghost use Rattle.wf_phrase.specs.Literals as spec;
ghost use Rattle.wf_phrase.specs.Minus.{behind_minus};

use wf_cursor::{Cursor, Piece, TextFault};
use wf_model::{Sort, Val};

// The number below zero.
fn below_zero(number: u64) -> i64
    requires { number ≤ 2 ^ 63 }
    ensures { result ≡ neg_ℤ (pos number) }
{
    (0 - number as i128) as i64
}

#[tactic(auto, unfolding(crate::specs::Literals::number))]
fn number(cursor: &mut Cursor<'_>) -> Result<Val, TextFault>
    ensures reads { ReadsExactly (spec.number cursor.old) result cursor.new }
    ensures stays { OnErr result (cursor.new ≡ cursor.old) }
{
    let number = cursor.int()?;
    Ok(Val::Int(number as i64))
}

#[tactic(auto, unfolding(crate::specs::Literals::negative_number))]
fn negative_number(cursor: &mut Cursor<'_>) -> Result<Val, TextFault>
    ensures reads { ReadsExactly (spec.negative_number cursor.old) result cursor.new }
    ensures stays { OnErr result (cursor.new ≡ next cursor.old) }
{
    cursor.take();
    let number = cursor.negated_int()?;
    Ok(Val::Int(below_zero(number)))
}

#[tactic(auto, unfolding(crate::specs::Literals::characters))]
fn characters(cursor: &mut Cursor<'_>) -> Result<Val, TextFault>
    ensures reads { ReadsExactly (spec.characters cursor.old) result cursor.new }
    ensures stays { OnErr result (cursor.new ≡ cursor.old) }
{
    Ok(Val::Text(cursor.text()?))
}

/// Reads a literal: `true`, `false`, an Int, `-` and an Int, or a Text. An Int is at most 9223372036854775807, and
/// behind `-` at most 9223372036854775808; a greater one is `Oversize`, and so is a Text of over 64 characters. At a
/// fault the cursor stands as before, or behind the `-` if the next token was one. Takes no memory.
#[tactic(auto, unfolding(crate::specs::Literals::literal))]
pub fn literal(cursor: &mut Cursor<'_>) -> Result<Val, TextFault>
    ensures reads { ReadsExactly (spec.literal cursor.old) result cursor.new }
    ensures stays { OnErr result (cursor.new ≡ behind_minus cursor.old) }
{
    match cursor.peek() {
        Some(Piece::True) => {
            cursor.take();
            Ok(Val::Bool(true))
        }
        Some(Piece::False) => {
            cursor.take();
            Ok(Val::Bool(false))
        }
        Some(Piece::Int) => number(cursor),
        Some(Piece::Minus) => negative_number(cursor),
        Some(Piece::Text) => characters(cursor),
        _ => Err(cursor.syntax()),
    }
}

fn sort_named(piece: Option<Piece>) -> Option<Sort>
    ensures { result ≡ spec.sort_named piece }
{
    match piece {
        Some(Piece::BoolSort) => Some(Sort::Bool),
        Some(Piece::IntSort) => Some(Sort::Int),
        Some(Piece::TextSort) => Some(Sort::Text),
        _ => None,
    }
}

/// Reads the word of a sort: `bool`, `int` or `text`. Any other token is `Syntax`, and leaves the cursor as it was. Takes
/// no memory.
#[tactic(auto, unfolding(crate::specs::Literals::sort))]
pub fn sort(cursor: &mut Cursor<'_>) -> Result<Sort, TextFault>
    ensures reads { ReadsExactly (spec.sort cursor.old) result cursor.new }
    ensures stays { OnErr result (cursor.new ≡ cursor.old) }
{
    match sort_named(cursor.peek()) {
        Some(sort) => {
            cursor.take();
            Ok(sort)
        }
        None => Err(cursor.syntax()),
    }
}
