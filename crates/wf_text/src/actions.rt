//! Actions of transitions.
ghost use Rattle.std.specs.Prelude.{length};
ghost use Rattle.wf_cursor.specs.Input.{Reads, ReadsExactly};
ghost use Rattle.wf_text.specs.Transitions as spec;

use std::alloc::Global;
use wf_cursor::{Cursor, Piece, TextFault};
use wf_model::{Action, List};
use wf_phrase::expr;

#[tactic(auto, unfolding(crate::specs::Transitions::assignment))]
fn assignment(alloc: Global, cursor: &mut Cursor<'_>) -> Result<Action, TextFault>
    ensures { Reads (spec.assignment cursor.old) result cursor.new }
{
    let x = cursor.variable()?;
    cursor.expect(Piece::Assign)?;
    let value = expr(alloc, cursor)?;
    Ok(Action::Assign(x, value))
}

#[tactic(auto, unfolding(crate::specs::Transitions::raise_action))]
fn raise_action(cursor: &mut Cursor<'_>) -> Result<Action, TextFault>
    ensures { ReadsExactly (spec.raise_action cursor.old) result cursor.new }
{
    cursor.take();
    let event = cursor.event()?;
    Ok(Action::Raise(event))
}

#[tactic(auto, unfolding(crate::specs::Transitions::start_action))]
fn start_action(cursor: &mut Cursor<'_>) -> Result<Action, TextFault>
    ensures { ReadsExactly (spec.start_action cursor.old) result cursor.new }
{
    cursor.take();
    let act = cursor.activity()?;
    Ok(Action::Start(act))
}

#[tactic(auto, unfolding(crate::specs::Transitions::action))]
fn action(alloc: Global, cursor: &mut Cursor<'_>) -> Result<Action, TextFault>
    ensures { Reads (spec.action cursor.old) result cursor.new }
{
    match cursor.peek() {
        Some(Piece::Name) => assignment(alloc, cursor),
        Some(Piece::Raise) => raise_action(cursor),
        Some(Piece::Start) => start_action(cursor),
        _ => Err(cursor.syntax()),
    }
}

#[tactic(auto, unfolding(crate::specs::Transitions::actions))]
fn actions(alloc: Global, cursor: &mut Cursor<'_>) -> Result<List<Action>, TextFault>
    ensures { Reads (spec.actions cursor.old) result cursor.new }
{
    let first = action(alloc, cursor)?;
    let mut found = List::new(alloc);
    found.push(first)?;
    for _turn in 0..cursor.tokens_left() {
        if !cursor.eat(Piece::Comma) {
            return Ok(found);
        }
        let next = action(alloc, cursor)?;
        found.push(next)?;
    }
    Ok(found)
}

/// Reads the actions of a transition, if there are any.
#[tactic(auto, unfolding(crate::specs::Transitions::effects))]
pub fn effects(alloc: Global, cursor: &mut Cursor<'_>) -> Result<List<Action>, TextFault>
    ensures { Reads (spec.effects cursor.old) result cursor.new }
{
    if cursor.eat(Piece::Do) {
        actions(alloc, cursor)
    } else {
        Ok(List::new(alloc))
    }
}
