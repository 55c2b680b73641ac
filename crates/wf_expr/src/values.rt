//! The value of an expression.
ghost use Rattle.std.specs.Prelude.{◌≡◌, IsOk, IfOk, IsTrue, Ok};
ghost use Rattle.wf_model.specs.Sorts.{sort_of};
ghost use Rattle.wf_model.specs.Seen.{HasAll, val_sort, var_sorts};
ghost use Rattle.wf_model.specs.Values as spec;
ghost use Rattle.wf_expr.specs.Ints.{has_small_ints};

use crate::Snapshot;
use crate::arithmetic::{difference, negation, product, quotient, remainder, sum};
use wf_model::{Expr, Fault, Op, Val};

/// The value of an expression that has a sort, over a snapshot that has a value for all that it names. It is of the
/// expression's sort. `Overflow` and `ZeroDivisor` exactly where the rules of values give them: the left side comes
/// first, and the right side of `and` and `or` is looked at only where it is needed. Linear in the nodes, and takes no
/// memory.
pub fn value<S: Snapshot>(e: &Expr, snap: &S) -> Result<Val, Fault>
    requires typed { IsOk (sort_of (var_sorts (S.seen snap.now)) e.now) }
    requires known { HasAll (S.seen snap.now) e.now }
    ensures exact { result ≡ spec.value_of (S.seen snap.now) e.now }
    ensures sort { IfOk result (λ val. sort_of (var_sorts (S.seen snap.now)) e.now ≡ Ok (val_sort val)) }
{
    outcome(e, snap)
}

/// What comes of an expression over a snapshot that has a value for all that it names, of whatever sorts: an operand of
/// a sort that its operator doesn't take is passed on, as the rules of values have it. Each integer of the expression is at most
/// 9223372036854775807. Linear in the nodes, and takes no memory.
#[tactic(auto, using(wf_model::specs::declared::expr::Expr::the_lemmas, wf_model::specs::ValuesLaws::value_laws, wf_model::specs::ValuesLaws::operand_laws, crate::specs::Ints::small_laws))]
pub fn outcome<S: Snapshot>(e: &Expr, snap: &S) -> Result<Val, Fault>
    requires small { IsTrue (has_small_ints e.now) }
    requires known { HasAll (S.seen snap.now) e.now }
    ensures { result ≡ spec.value_of (S.seen snap.now) e.now }
{
    match e {
        Expr::Bool(b) => Ok(Val::Bool(*b)),
        Expr::Int(n) => Ok(Val::Int(*n as i64)),
        Expr::Text(t) => Ok(Val::Text(*t)),
        Expr::Var(v) => Ok(snap.var(*v)),
        Expr::In(s) => Ok(Val::Bool(snap.is_in(*s))),
        Expr::Count(a) => Ok(Val::Int(i64::from(snap.count(*a)))),
        Expr::Done(a) => Ok(Val::Bool(snap.done(*a))),
        Expr::Not(x) => match outcome(x.get(), snap)? {
            Val::Bool(b) => Ok(Val::Bool(!b)),
            other => Ok(other),
        },
        Expr::Neg(x) => match outcome(x.get(), snap)? {
            Val::Int(n) => negation(n),
            other => Ok(other),
        },
        Expr::Bin(op, left, right) => {
            let left = outcome(left.get(), snap)?;
            if is_decided(*op, &left) {
                return Ok(left);
            }
            let right = outcome(right.get(), snap)?;
            binary_value(*op, left, right)
        }
    }
}

/// Whether the left side is the whole value.
fn is_decided(op: Op, left: &Val) -> bool
    ensures { result ≡ spec.decides op left.now }
{
    match (op, left) {
        (Op::And, Val::Bool(b)) => !*b,
        (Op::Or, Val::Bool(b)) => *b,
        _ => false,
    }
}

/// What the operator makes of the values of both sides.
#[tactic(auto, unfolding(wf_model::specs::Values::on_two))]
fn binary_value(op: Op, left: Val, right: Val) -> Result<Val, Fault>
    ensures { result ≡ spec.on_two op left right }
{
    match (op, left, right) {
        (Op::Eq, left, right) => Ok(Val::Bool(left == right)),
        (Op::Ne, left, right) => Ok(Val::Bool(left != right)),
        (Op::Lt, Val::Int(m), Val::Int(n)) => Ok(Val::Bool(m < n)),
        (Op::Le, Val::Int(m), Val::Int(n)) => Ok(Val::Bool(m <= n)),
        (Op::Gt, Val::Int(m), Val::Int(n)) => Ok(Val::Bool(m > n)),
        (Op::Ge, Val::Int(m), Val::Int(n)) => Ok(Val::Bool(m >= n)),
        (Op::Add, Val::Int(m), Val::Int(n)) => sum(m, n),
        (Op::Sub, Val::Int(m), Val::Int(n)) => difference(m, n),
        (Op::Mul, Val::Int(m), Val::Int(n)) => product(m, n),
        (Op::Div, Val::Int(m), Val::Int(n)) => quotient(m, n),
        (Op::Rem, Val::Int(m), Val::Int(n)) => remainder(m, n),
        (_, _, right) => Ok(right),
    }
}
