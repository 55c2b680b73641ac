//! The sort of an expression.
ghost use Rattle.std.specs.Prelude.{◌≡◌, ◌^◌, nat_lt, if◌then◌else◌};
ghost use Rattle.wf_model.specs.Sorts as spec;

use wf_model::{Chart, Expr, Op, Sort, TypeFault};

/// The sort of an expression over the chart's variables. `Mismatch` exactly where an operand has another sort than its
/// operator takes, an integer is over 9223372036854775807, or the chart has no such variable. Linear in the nodes, and
/// takes no memory.
#[tactic(auto, using(wf_model::specs::declared::expr::Expr::the_lemmas, wf_model::specs::SortsLaws::sort_laws))]
pub fn type_of(e: &Expr, chart: &Chart) -> Result<Sort, TypeFault>
    ensures { result ≡ spec.sort_of (spec.var_sort chart.now) e.now }
{
    match e {
        Expr::Bool(_) => Ok(Sort::Bool),
        Expr::Int(n) => int_sort(*n),
        Expr::Text(_) => Ok(Sort::Text),
        Expr::Var(x) => match chart.vars.get(x.0 as usize) {
            Some(var) => Ok(var.sort),
            None => Err(TypeFault::Mismatch),
        },
        Expr::In(_) => Ok(Sort::Bool),
        Expr::Count(_) => Ok(Sort::Int),
        Expr::Done(_) => Ok(Sort::Bool),
        Expr::Not(x) => {
            let sort = type_of(x.get(), chart)?;
            takes(Sort::Bool, Sort::Bool, sort)
        }
        Expr::Neg(x) => {
            let sort = type_of(x.get(), chart)?;
            takes(Sort::Int, Sort::Int, sort)
        }
        Expr::Bin(op, left, right) => {
            let left = type_of(left.get(), chart)?;
            let right = type_of(right.get(), chart)?;
            op_sort(*op, left, right)
        }
    }
}

/// The sort of an integer, which a value has to be able to hold.
fn int_sort(n: u64) -> Result<Sort, TypeFault>
    ensures { result ≡ (if nat_lt n (2 ^ 63) then Ok Sort.Int else Err TypeFault.Mismatch) }
{
    if n <= i64::MAX as u64 {
        Ok(Sort::Int)
    } else {
        Err(TypeFault::Mismatch)
    }
}

/// Where an operand of the sort `wants` gives `gives`: what one of this sort gives.
fn takes(wants: Sort, gives: Sort, sort: Sort) -> Result<Sort, TypeFault>
    ensures { result ≡ spec.takes wants gives sort }
{
    if wants == sort {
        Ok(gives)
    } else {
        Err(TypeFault::Mismatch)
    }
}

/// Where two operands of the sort `wants` give `gives`: what two of these sorts give.
fn takes_two(wants: Sort, gives: Sort, left: Sort, right: Sort) -> Result<Sort, TypeFault>
    ensures { result ≡ spec.takes_two wants gives left right }
{
    if wants == left {
        takes(wants, gives, right)
    } else {
        Err(TypeFault::Mismatch)
    }
}

/// What the operator gives, of operands of these sorts.
#[tactic(auto, unfolding(wf_model::specs::Sorts::op_sort))]
fn op_sort(op: Op, left: Sort, right: Sort) -> Result<Sort, TypeFault>
    ensures { result ≡ spec.op_sort op left right }
{
    match op {
        Op::Or | Op::And => takes_two(Sort::Bool, Sort::Bool, left, right),
        Op::Eq | Op::Ne => takes(left, Sort::Bool, right),
        Op::Lt | Op::Le | Op::Gt | Op::Ge => takes_two(Sort::Int, Sort::Bool, left, right),
        Op::Add | Op::Sub | Op::Mul | Op::Div | Op::Rem => takes_two(
            Sort::Int,
            Sort::Int,
            left,
            right,
        ),
    }
}
