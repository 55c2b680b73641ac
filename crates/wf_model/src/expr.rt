//! Expressions, and why one has no value or no sort.
use crate::{ActId, Duplicate, NoMemory, Same, StateId, Txt, VarId};
use sqlite_items::Boxed;
use std::alloc::Global;
use thiserror::Error;

/// An operator with two sides.
#[derive(Clone, Copy, Debug, PartialEq, Eq)]
pub enum Op {
    Or,
    And,
    Eq,
    Ne,
    Lt,
    Le,
    Gt,
    Ge,
    Add,
    Sub,
    Mul,
    Div,
    Rem,
}

/// An expression of a guard or an assignment. An `Int` above 9223372036854775807 has no sort.
#[derive(Debug, Drop)]
pub enum Expr {
    Bool(bool),
    Int(u64),
    Text(Txt),
    Var(VarId),
    /// Whether the state is in.
    In(StateId),
    /// How many items of the activity are open.
    Count(ActId),
    /// Whether an item of the activity is completed in this step.
    Done(ActId),
    Not(Boxed<Expr>),
    Neg(Boxed<Expr>),
    Bin(Op, Boxed<Expr>, Boxed<Expr>),
}

/// Why an expression has no value.
#[derive(Clone, Copy, Debug, PartialEq, Eq, Error)]
pub enum Fault {
    #[error("overflow")]
    Overflow,
    #[error("division by zero")]
    ZeroDivisor,
}

/// Why an expression has no sort.
#[derive(Clone, Copy, Debug, PartialEq, Eq, Error)]
pub enum TypeFault {
    #[error("the sorts do not match")]
    Mismatch,
}

impl Duplicate for Expr {
    fn copy(&self, alloc: Global) -> Result<Expr, NoMemory> {
        match self {
            Expr::Bool(b) => Ok(Expr::Bool(*b)),
            Expr::Int(n) => Ok(Expr::Int(*n)),
            Expr::Text(t) => Ok(Expr::Text(*t)),
            Expr::Var(v) => Ok(Expr::Var(*v)),
            Expr::In(s) => Ok(Expr::In(*s)),
            Expr::Count(a) => Ok(Expr::Count(*a)),
            Expr::Done(a) => Ok(Expr::Done(*a)),
            Expr::Not(e) => {
                let e = e.get().copy(alloc)?;
                Ok(Expr::Not(Boxed::new(alloc, e)?))
            }
            Expr::Neg(e) => {
                let e = e.get().copy(alloc)?;
                Ok(Expr::Neg(Boxed::new(alloc, e)?))
            }
            Expr::Bin(op, left, right) => {
                let left = left.get().copy(alloc)?;
                let left = Boxed::new(alloc, left)?;
                let right = right.get().copy(alloc)?;
                Ok(Expr::Bin(*op, left, Boxed::new(alloc, right)?))
            }
        }
    }
}

impl Same for Expr {
    #[tactic(auto, using(crate::specs::declared::expr::Expr::the_lemmas))]
    fn is_same(&self, other: &Expr) -> bool {
        match (self, other) {
            (Expr::Bool(a), Expr::Bool(b)) => *a == *b,
            (Expr::Int(a), Expr::Int(b)) => *a == *b,
            (Expr::Text(a), Expr::Text(b)) => a.is_same(b),
            (Expr::Var(a), Expr::Var(b)) => *a == *b,
            (Expr::In(a), Expr::In(b)) => *a == *b,
            (Expr::Count(a), Expr::Count(b)) => *a == *b,
            (Expr::Done(a), Expr::Done(b)) => *a == *b,
            (Expr::Not(a), Expr::Not(b)) => a.get().is_same(b.get()),
            (Expr::Neg(a), Expr::Neg(b)) => a.get().is_same(b.get()),
            (Expr::Bin(op, a, c), Expr::Bin(op_b, b, d)) => {
                *op == *op_b && a.get().is_same(b.get()) && c.get().is_same(d.get())
            }
            _ => false,
        }
    }
}
