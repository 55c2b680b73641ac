//! How many nodes an expression has.
ghost use Rattle.std.specs.Prelude.{◌≡◌, nat_le};
ghost use Rattle.wf_expr.specs.Room as spec;
ghost use Rattle.wf_model.specs.Accepted.{nodes};

use wf_model::Expr;

/// Whether the expression has at most so many nodes: each literal, variable, test and operator is one. It looks at no
/// more than `most` nodes and one, and goes no deeper.
pub fn has_at_most(e: &Expr, most: usize) -> bool
    ensures { result ≡ nat_le (nodes e.now) most }
{
    room(e, most).is_some()
}

/// How many of `most` nodes are left beside those of the expression, or none if it has more.
#[tactic(auto, using(wf_model::specs::declared::expr::Expr::the_lemmas, wf_model::specs::NodesLaws::node_laws, crate::proofs::Rooms::some_node, crate::proofs::Rooms::room_none, crate::proofs::Rooms::room_one, crate::proofs::Rooms::room_more, crate::proofs::Rooms::room_left, crate::proofs::Rooms::room_both))]
fn room(e: &Expr, most: usize) -> Option<usize>
    ensures { result ≡ spec.room most (nodes e.now) }
{
    if most == 0 {
        return None;
    }
    let rest = most - 1;
    match e {
        Expr::Bool(_)
        | Expr::Int(_)
        | Expr::Text(_)
        | Expr::Var(_)
        | Expr::In(_)
        | Expr::Count(_)
        | Expr::Done(_) => Some(rest),
        Expr::Not(x) => room(x.get(), rest),
        Expr::Neg(x) => room(x.get(), rest),
        Expr::Bin(_, left, right) => {
            let rest = room(left.get(), rest)?;
            room(right.get(), rest)
        }
    }
}
