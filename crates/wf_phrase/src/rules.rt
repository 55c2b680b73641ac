//! The rules of expressions. They take the reader of parentheses as a parameter, so that each is proved by itself.
ghost use Rattle.std.specs.Prelude.{◌≡◌, length};
ghost use Rattle.wf_cursor.specs.Input.{Reads, ReadsExactly};
ghost use Rattle.wf_phrase.specs.Expressions as spec;
ghost use Rattle.wf_phrase.specs.Operators as spec_of;
ghost use Rattle.wf_phrase.specs.Nests.{Nests};

use crate::operators::{
    and_operator, binary_expr, comparison, negation, negative_of, or_operator, product_operator,
    sum_operator,
};
use std::alloc::Global;
use wf_cursor::{Cursor, Piece, TextFault};
use wf_model::{ActId, Expr};

// Takes `(`, where so many may still open.
#[tactic(auto, unfolding(crate::specs::Expressions::open_paren))]
fn open_paren(cursor: &mut Cursor<'_>, depth: usize) -> Result<(), TextFault>
    ensures { ReadsExactly (spec.open_paren depth cursor.old) result cursor.new }
{
    if !cursor.sees(Piece::OpenParen) {
        Err(cursor.syntax())
    } else if depth == 0 {
        Err(cursor.oversize_fault())
    } else {
        cursor.take();
        Ok(())
    }
}

#[tactic(auto, unfolding(crate::specs::Expressions::activity_inside))]
fn activity_inside(cursor: &mut Cursor<'_>, depth: usize) -> Result<ActId, TextFault>
    ensures { ReadsExactly (spec.activity_inside depth cursor.old) result cursor.new }
{
    open_paren(cursor, depth)?;
    let activity = cursor.activity()?;
    cursor.expect(Piece::CloseParen)?;
    Ok(activity)
}

#[tactic(auto, unfolding(crate::specs::Expressions::truth))]
fn truth(cursor: &mut Cursor<'_>, value: bool) -> Result<Expr, TextFault>
    ensures { ReadsExactly (spec.truth value cursor.old) result cursor.new }
{
    cursor.node()?;
    cursor.take();
    Ok(Expr::Bool(value))
}

#[tactic(auto, unfolding(crate::specs::Expressions::number))]
fn number(cursor: &mut Cursor<'_>) -> Result<Expr, TextFault>
    ensures { ReadsExactly (spec.number cursor.old) result cursor.new }
{
    cursor.node()?;
    Ok(Expr::Int(cursor.int()?))
}

#[tactic(auto, unfolding(crate::specs::Expressions::characters))]
fn characters(cursor: &mut Cursor<'_>) -> Result<Expr, TextFault>
    ensures { ReadsExactly (spec.characters cursor.old) result cursor.new }
{
    cursor.node()?;
    Ok(Expr::Text(cursor.text()?))
}

#[tactic(auto, unfolding(crate::specs::Expressions::variable))]
fn variable(cursor: &mut Cursor<'_>) -> Result<Expr, TextFault>
    ensures { ReadsExactly (spec.variable cursor.old) result cursor.new }
{
    cursor.node()?;
    Ok(Expr::Var(cursor.variable()?))
}

#[tactic(auto, unfolding(crate::specs::Expressions::in_state))]
fn in_state(cursor: &mut Cursor<'_>, depth: usize) -> Result<Expr, TextFault>
    ensures { ReadsExactly (spec.in_state depth cursor.old) result cursor.new }
{
    cursor.node()?;
    cursor.take();
    open_paren(cursor, depth)?;
    let state = cursor.state()?;
    cursor.expect(Piece::CloseParen)?;
    Ok(Expr::In(state))
}

#[tactic(auto, unfolding(crate::specs::Expressions::count_of))]
fn count_of(cursor: &mut Cursor<'_>, depth: usize) -> Result<Expr, TextFault>
    ensures { ReadsExactly (spec.count_of depth cursor.old) result cursor.new }
{
    cursor.node()?;
    cursor.take();
    Ok(Expr::Count(activity_inside(cursor, depth)?))
}

#[tactic(auto, unfolding(crate::specs::Expressions::done_of))]
fn done_of(cursor: &mut Cursor<'_>, depth: usize) -> Result<Expr, TextFault>
    ensures { ReadsExactly (spec.done_of depth cursor.old) result cursor.new }
{
    cursor.node()?;
    cursor.take();
    Ok(Expr::Done(activity_inside(cursor, depth)?))
}

/// The rules, where so many parentheses may still open.
#[derive(Clone, Copy)]
pub struct Rules<F> {
    pub alloc: Global,
    pub depth: usize,
    /// Reads what stands in parentheses, from the opening one on.
    pub nested: F,
}

impl<F: Fn(Global, &mut Cursor<'_>, usize) -> Result<Expr, TextFault>> Rules<F> {
    #[tactic(auto, unfolding(crate::specs::Expressions::atom))]
    fn atom(&self, cursor: &mut Cursor<'_>) -> Result<Expr, TextFault>
        requires { Nests self.now.depth (F.pre self.now.nested) (F.post self.now.nested) }
        ensures { Reads (spec.atom self.now.depth (spec.parens self.now.depth) cursor.old) result cursor.new }
    {
        match cursor.peek() {
            Some(Piece::True) => truth(cursor, true),
            Some(Piece::False) => truth(cursor, false),
            Some(Piece::Int) => number(cursor),
            Some(Piece::Text) => characters(cursor),
            Some(Piece::Name) => variable(cursor),
            Some(Piece::In) => in_state(cursor, self.depth),
            Some(Piece::Count) => count_of(cursor, self.depth),
            Some(Piece::Done) => done_of(cursor, self.depth),
            Some(Piece::OpenParen) => (self.nested)(self.alloc, cursor, self.depth),
            _ => Err(cursor.syntax()),
        }
    }

    #[tactic(auto, unfolding(crate::specs::Expressions::unary_from))]
    fn unary(&self, cursor: &mut Cursor<'_>) -> Result<Expr, TextFault>
        requires { Nests self.now.depth (F.pre self.now.nested) (F.post self.now.nested) }
        ensures { Reads (spec.unary self.now.depth (spec.parens self.now.depth) cursor.old) result cursor.new }
    {
        if !cursor.sees(Piece::Minus) {
            return self.atom(cursor);
        }
        cursor.node()?;
        cursor.take();
        let operand = self.unary(cursor)?;
        Ok(negative_of(self.alloc, operand)?)
    }

    fn prod_rest(&self, cursor: &mut Cursor<'_>, mut left: Expr) -> Result<Expr, TextFault>
        requires { Nests self.now.depth (F.pre self.now.nested) (F.post self.now.nested) }
        ensures { Reads (spec.rest_of spec_of.product_operator (spec.unary self.now.depth (spec.parens self.now.depth)) left cursor.old) result cursor.new }
    {
        for _turn in 0..cursor.tokens_left() {
            let Some(op) = product_operator(cursor.peek()) else {
                return Ok(left);
            };
            cursor.node()?;
            cursor.take();
            let right = self.unary(cursor)?;
            left = binary_expr(self.alloc, op, left, right)?;
        }
        Ok(left)
    }

    #[tactic(auto, unfolding(crate::specs::Expressions::prod))]
    fn prod(&self, cursor: &mut Cursor<'_>) -> Result<Expr, TextFault>
        requires { Nests self.now.depth (F.pre self.now.nested) (F.post self.now.nested) }
        ensures { Reads (spec.prod self.now.depth (spec.parens self.now.depth) cursor.old) result cursor.new }
    {
        let left = self.unary(cursor)?;
        self.prod_rest(cursor, left)
    }

    fn sum_rest(&self, cursor: &mut Cursor<'_>, mut left: Expr) -> Result<Expr, TextFault>
        requires { Nests self.now.depth (F.pre self.now.nested) (F.post self.now.nested) }
        ensures { Reads (spec.rest_of spec_of.sum_operator (spec.prod self.now.depth (spec.parens self.now.depth)) left cursor.old) result cursor.new }
    {
        for _turn in 0..cursor.tokens_left() {
            let Some(op) = sum_operator(cursor.peek()) else {
                return Ok(left);
            };
            cursor.node()?;
            cursor.take();
            let right = self.prod(cursor)?;
            left = binary_expr(self.alloc, op, left, right)?;
        }
        Ok(left)
    }

    #[tactic(auto, unfolding(crate::specs::Expressions::sum))]
    fn sum(&self, cursor: &mut Cursor<'_>) -> Result<Expr, TextFault>
        requires { Nests self.now.depth (F.pre self.now.nested) (F.post self.now.nested) }
        ensures { Reads (spec.sum self.now.depth (spec.parens self.now.depth) cursor.old) result cursor.new }
    {
        let left = self.prod(cursor)?;
        self.sum_rest(cursor, left)
    }

    #[tactic(auto, unfolding(crate::specs::Expressions::comp))]
    fn comp(&self, cursor: &mut Cursor<'_>) -> Result<Expr, TextFault>
        requires { Nests self.now.depth (F.pre self.now.nested) (F.post self.now.nested) }
        ensures { Reads (spec.comp self.now.depth (spec.parens self.now.depth) cursor.old) result cursor.new }
    {
        let left = self.sum(cursor)?;
        let Some(op) = comparison(cursor.peek()) else {
            return Ok(left);
        };
        cursor.node()?;
        cursor.take();
        let right = self.sum(cursor)?;
        Ok(binary_expr(self.alloc, op, left, right)?)
    }

    #[tactic(auto, unfolding(crate::specs::Expressions::neg_from))]
    fn neg(&self, cursor: &mut Cursor<'_>) -> Result<Expr, TextFault>
        requires { Nests self.now.depth (F.pre self.now.nested) (F.post self.now.nested) }
        ensures { Reads (spec.neg self.now.depth (spec.parens self.now.depth) cursor.old) result cursor.new }
    {
        if !cursor.sees(Piece::Not) {
            return self.comp(cursor);
        }
        cursor.node()?;
        cursor.take();
        let operand = self.neg(cursor)?;
        Ok(negation(self.alloc, operand)?)
    }

    fn conj_rest(&self, cursor: &mut Cursor<'_>, mut left: Expr) -> Result<Expr, TextFault>
        requires { Nests self.now.depth (F.pre self.now.nested) (F.post self.now.nested) }
        ensures { Reads (spec.rest_of spec_of.and_operator (spec.neg self.now.depth (spec.parens self.now.depth)) left cursor.old) result cursor.new }
    {
        for _turn in 0..cursor.tokens_left() {
            let Some(op) = and_operator(cursor.peek()) else {
                return Ok(left);
            };
            cursor.node()?;
            cursor.take();
            let right = self.neg(cursor)?;
            left = binary_expr(self.alloc, op, left, right)?;
        }
        Ok(left)
    }

    #[tactic(auto, unfolding(crate::specs::Expressions::conj))]
    fn conj(&self, cursor: &mut Cursor<'_>) -> Result<Expr, TextFault>
        requires { Nests self.now.depth (F.pre self.now.nested) (F.post self.now.nested) }
        ensures { Reads (spec.conj self.now.depth (spec.parens self.now.depth) cursor.old) result cursor.new }
    {
        let left = self.neg(cursor)?;
        self.conj_rest(cursor, left)
    }

    fn disj_rest(&self, cursor: &mut Cursor<'_>, mut left: Expr) -> Result<Expr, TextFault>
        requires { Nests self.now.depth (F.pre self.now.nested) (F.post self.now.nested) }
        ensures { Reads (spec.rest_of spec_of.or_operator (spec.conj self.now.depth (spec.parens self.now.depth)) left cursor.old) result cursor.new }
    {
        for _turn in 0..cursor.tokens_left() {
            let Some(op) = or_operator(cursor.peek()) else {
                return Ok(left);
            };
            cursor.node()?;
            cursor.take();
            let right = self.conj(cursor)?;
            left = binary_expr(self.alloc, op, left, right)?;
        }
        Ok(left)
    }

    #[tactic(auto, unfolding(crate::specs::Expressions::disj))]
    pub fn disj(&self, cursor: &mut Cursor<'_>) -> Result<Expr, TextFault>
        requires { Nests self.now.depth (F.pre self.now.nested) (F.post self.now.nested) }
        ensures { Reads (spec.disj self.now.depth (spec.parens self.now.depth) cursor.old) result cursor.new }
    {
        let left = self.conj(cursor)?;
        self.disj_rest(cursor, left)
    }
}
