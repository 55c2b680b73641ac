//! States.
ghost use Rattle.std.specs.Prelude.{◌≡◌, Some, length};
ghost use Rattle.wf_cursor.specs.Input.{Reads, ReadsExactly, piece};
ghost use Rattle.wf_text.specs.States as spec;

use std::alloc::Global;
use wf_cursor::{Cursor, Declared, Piece, TextFault};
use wf_model::limits::MAX_OPEN;
use wf_model::{Kind, State, StateId};

fn kind_of(piece: Option<Piece>) -> Option<Kind>
    ensures { result ≡ spec.kind_of piece }
{
    match piece {
        Some(Piece::Basic) => Some(Kind::Basic),
        Some(Piece::Or) => Some(Kind::Or),
        Some(Piece::And) => Some(Kind::And),
        _ => None,
    }
}

#[tactic(auto, unfolding(crate::specs::States::kind))]
fn kind(cursor: &mut Cursor<'_>) -> Result<Kind, TextFault>
    ensures { ReadsExactly (spec.kind cursor.old) result cursor.new }
{
    match kind_of(cursor.peek()) {
        Some(kind) => {
            cursor.take();
            Ok(kind)
        }
        None => Err(cursor.syntax()),
    }
}

/// A state up to its unit.
#[tactic(auto, unfolding(crate::specs::States::head))]
fn head(
    alloc: Global,
    cursor: &mut Cursor<'_>,
    parent: Option<StateId>,
) -> Result<StateId, TextFault>
    ensures { Reads (spec.head parent cursor.old) result cursor.new }
{
    let kind = kind(cursor)?;
    let id = cursor.next_state();
    let name = cursor.new_name(alloc, Declared::State(id))?;
    cursor.expect(Piece::At)?;
    let unit = cursor.unit()?;
    cursor.add_state(State {
        name,
        kind,
        parent,
        unit,
    })?;
    Ok(id)
}

/// A state, under which so many braces may open.
#[cycle(nested)]
#[tactic(auto, unfolding(crate::specs::States::state_with))]
fn state(
    alloc: Global,
    cursor: &mut Cursor<'_>,
    parent: Option<StateId>,
    depth: usize,
) -> Result<(), TextFault>
    ensures { Reads (spec.state depth parent cursor.old) result cursor.new }
{
    let id = head(alloc, cursor, parent)?;
    match cursor.peek() {
        Some(Piece::Semicolon) => {
            cursor.take();
            Ok(())
        }
        Some(Piece::OpenBrace) => block(alloc, cursor, id, depth),
        _ => Err(cursor.syntax()),
    }
}

/// The children of a state from the opening brace on, where this one and those under it may be so many.
#[cycle(nested)]
fn block(
    alloc: Global,
    cursor: &mut Cursor<'_>,
    parent: StateId,
    depth: usize,
) -> Result<(), TextFault>
    ensures { Reads (spec.block depth parent cursor.old) result cursor.new }
{
    if depth == 0 {
        return Err(cursor.oversize_fault());
    }
    cursor.take();
    children(alloc, cursor, parent, depth - 1)
}

/// The children of a state behind the opening brace.
#[cycle(nested)]
fn children(
    alloc: Global,
    cursor: &mut Cursor<'_>,
    parent: StateId,
    depth: usize,
) -> Result<(), TextFault>
    ensures { Reads (spec.children (spec.state depth (Some parent)) cursor.old) result cursor.new }
{
    for _turn in 0..cursor.tokens_left() {
        if cursor.eat(Piece::CloseBrace) {
            return Ok(());
        }
        state(alloc, cursor, Some(parent), depth)?;
    }
    Err(cursor.syntax())
}

/// Reads the root with all that is in it, if a state comes next.
#[tactic(auto, unfolding(crate::specs::States::root))]
pub fn root(alloc: Global, cursor: &mut Cursor<'_>) -> Result<(), TextFault>
    ensures { Reads (spec.root cursor.old) result cursor.new }
{
    match kind_of(cursor.peek()) {
        Some(_kind) => state(alloc, cursor, None, MAX_OPEN),
        None => Ok(()),
    }
}
