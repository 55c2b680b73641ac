//! Declarations.
ghost use Rattle.std.specs.Prelude.{length};
ghost use Rattle.wf_cursor.specs.Input.{Reads, ReadsExactly};
ghost use Rattle.wf_text.specs.Declarations as spec;

use std::alloc::Global;
use wf_cursor::{Cursor, Declared, Piece, TextFault};
use wf_model::{Activity, Event, List, UnitId, VarId, Variable};
use wf_phrase::{literal, sort};

#[tactic(auto, unfolding(crate::specs::Declarations::unit))]
fn unit(alloc: Global, cursor: &mut Cursor<'_>) -> Result<(), TextFault>
    ensures { Reads (spec.unit cursor.old) result cursor.new }
{
    cursor.expect(Piece::Unit)?;
    let what = Declared::Unit(cursor.next_unit());
    let name = cursor.new_name(alloc, what)?;
    cursor.expect(Piece::Semicolon)?;
    cursor.add_unit(name)?;
    Ok(())
}

#[tactic(auto, unfolding(crate::specs::Declarations::unit_if_any))]
fn unit_if_any(cursor: &mut Cursor<'_>) -> Result<Option<UnitId>, TextFault>
    ensures { ReadsExactly (spec.unit_if_any cursor.old) result cursor.new }
{
    if cursor.eat(Piece::At) {
        Ok(Some(cursor.unit()?))
    } else {
        Ok(None)
    }
}

#[tactic(auto, unfolding(crate::specs::Declarations::event))]
fn event(alloc: Global, cursor: &mut Cursor<'_>) -> Result<(), TextFault>
    ensures { Reads (spec.event cursor.old) result cursor.new }
{
    cursor.expect(Piece::Event)?;
    let what = Declared::Event(cursor.next_event());
    let name = cursor.new_name(alloc, what)?;
    let unit = unit_if_any(cursor)?;
    cursor.expect(Piece::Semicolon)?;
    cursor.add_event(Event { name, unit })?;
    Ok(())
}

#[tactic(auto, unfolding(crate::specs::Declarations::variable))]
fn variable(alloc: Global, cursor: &mut Cursor<'_>) -> Result<(), TextFault>
    ensures { Reads (spec.variable cursor.old) result cursor.new }
{
    cursor.expect(Piece::Var)?;
    let what = Declared::Var(cursor.next_var());
    let name = cursor.new_name(alloc, what)?;
    cursor.expect(Piece::Colon)?;
    let sort = sort(cursor)?;
    cursor.expect(Piece::Equal)?;
    let first = literal(cursor)?;
    cursor.expect(Piece::Semicolon)?;
    cursor.add_var(Variable { name, sort, first })?;
    Ok(())
}

#[tactic(auto, unfolding(crate::specs::Declarations::outputs))]
fn outputs(alloc: Global, cursor: &mut Cursor<'_>) -> Result<List<VarId>, TextFault>
    ensures { Reads (spec.outputs cursor.old) result cursor.new }
{
    let first = cursor.variable()?;
    let mut found = List::new(alloc);
    found.push(first)?;
    for _turn in 0..cursor.tokens_left() {
        if !cursor.eat(Piece::Comma) {
            return Ok(found);
        }
        let next = cursor.variable()?;
        found.push(next)?;
    }
    Ok(found)
}

#[tactic(auto, unfolding(crate::specs::Declarations::outputs_if_any))]
fn outputs_if_any(alloc: Global, cursor: &mut Cursor<'_>) -> Result<List<VarId>, TextFault>
    ensures { Reads (spec.outputs_if_any cursor.old) result cursor.new }
{
    if cursor.eat(Piece::Gives) {
        outputs(alloc, cursor)
    } else {
        Ok(List::new(alloc))
    }
}

#[tactic(auto, unfolding(crate::specs::Declarations::activity))]
fn activity(alloc: Global, cursor: &mut Cursor<'_>) -> Result<(), TextFault>
    ensures { Reads (spec.activity cursor.old) result cursor.new }
{
    cursor.expect(Piece::Activity)?;
    let what = Declared::Activity(cursor.next_act());
    let name = cursor.new_name(alloc, what)?;
    cursor.expect(Piece::At)?;
    let unit = cursor.unit()?;
    let outputs = outputs_if_any(alloc, cursor)?;
    cursor.expect(Piece::Semicolon)?;
    cursor.add_act(Activity {
        name,
        unit,
        outputs,
    })?;
    Ok(())
}

/// Reads one declaration, and says whether there was one.
#[tactic(auto, unfolding(crate::specs::Declarations::declaration))]
fn declaration(alloc: Global, cursor: &mut Cursor<'_>) -> Result<bool, TextFault>
    ensures { Reads (spec.declaration cursor.old) result cursor.new }
{
    match cursor.peek() {
        Some(Piece::Unit) => {
            unit(alloc, cursor)?;
            Ok(true)
        }
        Some(Piece::Event) => {
            event(alloc, cursor)?;
            Ok(true)
        }
        Some(Piece::Var) => {
            variable(alloc, cursor)?;
            Ok(true)
        }
        Some(Piece::Activity) => {
            activity(alloc, cursor)?;
            Ok(true)
        }
        _ => Ok(false),
    }
}

/// Reads all declarations that come next.
pub fn declarations(alloc: Global, cursor: &mut Cursor<'_>) -> Result<(), TextFault>
    ensures { Reads (spec.declarations cursor.old) result cursor.new }
{
    for _turn in 0..cursor.tokens_left() {
        if !declaration(alloc, cursor)? {
            return Ok(());
        }
    }
    Ok(())
}
