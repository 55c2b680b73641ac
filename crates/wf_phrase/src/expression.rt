//! Expressions.
ghost use Rattle.wf_cursor.specs.Input.{Reads};
ghost use Rattle.wf_phrase.specs.Expressions as spec;

use crate::rules::Rules;
use std::alloc::Global;
use wf_cursor::{Cursor, Piece, TextFault};
use wf_model::Expr;
use wf_model::limits::MAX_OPEN;

// What stands in parentheses, from the opening one on, where so many may still open.
fn parens(alloc: Global, cursor: &mut Cursor<'_>, depth: usize) -> Result<Expr, TextFault>
    ensures { Reads (spec.parens depth cursor.old) result cursor.new }
{
    if depth == 0 {
        return Err(cursor.oversize_fault());
    }
    cursor.take();
    let rules = Rules {
        alloc,
        depth: depth - 1,
        nested: parens,
    };
    let inner = rules.disj(cursor)?;
    cursor.expect(Piece::CloseParen)?;
    Ok(inner)
}

/// Reads an expression from the next token on, as far as its rules go. The faults are `Syntax` at a token that no rule
/// takes, `UnknownName` at a name that isn't declared as what is wanted, and `Oversize` at a name, an Int or a Text that
/// is too large, at the token that would make node 65, and at the 65th parenthesis that is open at once. The first
/// that is met is answered. Linear in the tokens that are read, on average.
#[tactic(auto, unfolding(crate::specs::Expressions::expr))]
pub fn expr(alloc: Global, cursor: &mut Cursor<'_>) -> Result<Expr, TextFault>
    ensures { Reads (spec.expr cursor.old) result cursor.new }
{
    cursor.forget_nodes();
    let rules = Rules {
        alloc,
        depth: MAX_OPEN,
        nested: parens,
    };
    rules.disj(cursor)
}
