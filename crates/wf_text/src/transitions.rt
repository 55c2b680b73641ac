//! Transitions.
ghost use Rattle.std.specs.Prelude.{length};
ghost use Rattle.wf_cursor.specs.Input.{Reads, ReadsExactly};
ghost use Rattle.wf_text.specs.Transitions as spec;

use crate::actions::effects;
use std::alloc::Global;
use wf_cursor::{Cursor, Piece, TextFault};
use wf_model::{EventId, Expr, List, Transition};
use wf_phrase::expr;

#[tactic(auto, unfolding(crate::specs::Transitions::event_if_any))]
fn event_if_any(cursor: &mut Cursor<'_>) -> Result<Option<EventId>, TextFault>
    ensures { ReadsExactly (spec.event_if_any cursor.old) result cursor.new }
{
    if cursor.eat(Piece::On) {
        Ok(Some(cursor.event()?))
    } else {
        Ok(None)
    }
}

#[tactic(auto, unfolding(crate::specs::Transitions::guard_if_any))]
fn guard_if_any(alloc: Global, cursor: &mut Cursor<'_>) -> Result<Option<Expr>, TextFault>
    ensures { Reads (spec.guard_if_any cursor.old) result cursor.new }
{
    if cursor.eat(Piece::If) {
        Ok(Some(expr(alloc, cursor)?))
    } else {
        Ok(None)
    }
}

#[tactic(auto, unfolding(crate::specs::Transitions::transition))]
fn transition(alloc: Global, cursor: &mut Cursor<'_>) -> Result<Transition, TextFault>
    ensures { Reads (spec.transition cursor.old) result cursor.new }
{
    cursor.expect(Piece::From)?;
    let source = cursor.state()?;
    cursor.expect(Piece::To)?;
    let target = cursor.state()?;
    let event = event_if_any(cursor)?;
    let guard = guard_if_any(alloc, cursor)?;
    let actions = effects(alloc, cursor)?;
    cursor.expect(Piece::Semicolon)?;
    Ok(Transition {
        source,
        target,
        event,
        guard,
        actions,
    })
}

/// Reads all transitions that come next.
pub fn transitions(alloc: Global, cursor: &mut Cursor<'_>) -> Result<List<Transition>, TextFault>
    ensures { Reads (spec.transitions cursor.old) result cursor.new }
{
    let mut found = List::new(alloc);
    for _turn in 0..cursor.tokens_left() {
        if !cursor.sees(Piece::From) {
            return Ok(found);
        }
        let next = transition(alloc, cursor)?;
        found.push(next)?;
    }
    Ok(found)
}
