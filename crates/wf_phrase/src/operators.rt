//! The operators that each rule of expressions goes on with, and what they make.
ghost use Rattle.std.specs.Prelude.{◌≡◌, IfOk};
ghost use Rattle.wf_phrase.specs.Operators as spec;

use sqlite_items::Boxed;
use std::alloc::Global;
use wf_cursor::Piece;
use wf_model::{Expr, NoMemory, Op};

#[tactic(auto, unfolding(crate::specs::Operators::or_operator))]
pub fn or_operator(piece: Option<Piece>) -> Option<Op>
    ensures { result ≡ spec.or_operator piece }
{
    match piece {
        Some(Piece::Or) => Some(Op::Or),
        _ => None,
    }
}

#[tactic(auto, unfolding(crate::specs::Operators::and_operator))]
pub fn and_operator(piece: Option<Piece>) -> Option<Op>
    ensures { result ≡ spec.and_operator piece }
{
    match piece {
        Some(Piece::And) => Some(Op::And),
        _ => None,
    }
}

#[tactic(auto, unfolding(crate::specs::Operators::comparison))]
pub fn comparison(piece: Option<Piece>) -> Option<Op>
    ensures { result ≡ spec.comparison piece }
{
    match piece {
        Some(Piece::Equal) => Some(Op::Eq),
        Some(Piece::NotEqual) => Some(Op::Ne),
        Some(Piece::Less) => Some(Op::Lt),
        Some(Piece::AtMost) => Some(Op::Le),
        Some(Piece::Greater) => Some(Op::Gt),
        Some(Piece::AtLeast) => Some(Op::Ge),
        _ => None,
    }
}

#[tactic(auto, unfolding(crate::specs::Operators::sum_operator))]
pub fn sum_operator(piece: Option<Piece>) -> Option<Op>
    ensures { result ≡ spec.sum_operator piece }
{
    match piece {
        Some(Piece::Plus) => Some(Op::Add),
        Some(Piece::Minus) => Some(Op::Sub),
        _ => None,
    }
}

#[tactic(auto, unfolding(crate::specs::Operators::product_operator))]
pub fn product_operator(piece: Option<Piece>) -> Option<Op>
    ensures { result ≡ spec.product_operator piece }
{
    match piece {
        Some(Piece::Star) => Some(Op::Mul),
        Some(Piece::Slash) => Some(Op::Div),
        Some(Piece::Percent) => Some(Op::Rem),
        _ => None,
    }
}

/// Both sides under an operator.
pub fn binary_expr(alloc: Global, op: Op, left: Expr, right: Expr) -> Result<Expr, NoMemory>
    ensures { IfOk result (λ e. e ≡ Expr.Bin op left right) }
{
    Ok(Expr::Bin(op, Boxed::new(alloc, left)?, Boxed::new(alloc, right)?))
}

/// The operand under `not`.
pub fn negation(alloc: Global, operand: Expr) -> Result<Expr, NoMemory>
    ensures { IfOk result (λ e. e ≡ Expr.Not operand) }
{
    Ok(Expr::Not(Boxed::new(alloc, operand)?))
}

/// The operand under `-`.
pub fn negative_of(alloc: Global, operand: Expr) -> Result<Expr, NoMemory>
    ensures { IfOk result (λ e. e ≡ Expr.Neg operand) }
{
    Ok(Expr::Neg(Boxed::new(alloc, operand)?))
}
