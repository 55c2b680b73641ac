//! The transitions of the generated chart.
ghost use Rattle.std.specs.Prelude.{◌≡◌, ◌≤◌, ◌<◌, ◌*◌, ◌++◌, IfOk, OnOk};
ghost use Rattle.wf_gen.specs.Draws.{after, draw};
ghost use Rattle.wf_gen.specs.GenChart as spec;

use crate::draws::Draws;
use crate::states::basic_id;
use sqlite_items::Boxed;
use std::alloc::Global;
use wf_model::{Action, EventId, Expr, List, NoMemory, Op, Transition, VarId};

const X: VarId = VarId(0);

const Y: VarId = VarId(1);

fn binary_expr(alloc: Global, op: Op, left: Expr, right: Expr) -> Result<Expr, NoMemory>
    ensures { IfOk result (λ made. made ≡ Expr.Bin op left right) }
{
    Ok(Expr::Bin(op, Boxed::new(alloc, left)?, Boxed::new(alloc, right)?))
}

// What a transition does, where it does something.
fn actions(alloc: Global, d: u64) -> Result<List<Action>, NoMemory>
    ensures { IfOk result (λ made. made ≡ spec.actions d) }
{
    let mut actions = List::new(alloc);
    if d == 0 {
        let more = binary_expr(alloc, Op::Add, Expr::Var(X), Expr::Int(1))?;
        actions.push(Action::Assign(X, more))?;
    } else if d == 1 {
        let less = binary_expr(alloc, Op::Sub, Expr::Var(X), Expr::Var(Y))?;
        actions.push(Action::Assign(Y, less))?;
    } else if d == 2 {
        actions.push(Action::Raise(EventId(4)))?;
    }
    Ok(actions)
}

#[tactic(auto, unfolding(crate::specs::Draws::after))]
fn transition(alloc: Global, draws: &mut Draws, r: u32) -> Result<Transition, NoMemory>
    requires { r < 6 }
    ensures made { IfOk result (λ made. made ≡
        spec.move r (draw draws.old 1 4) (draw draws.old 2 4) (draw draws.old 3 4) (draw draws.old 4 4)) }
    ensures drawn { OnOk result (draws.new ≡ after 4 draws.old) }
{
    let a = draws.draw(4) as u32;
    let b = draws.draw(4) as u32;
    let c = draws.draw(4) as u32;
    let d = draws.draw(4);
    Ok(Transition {
        source: basic_id(r, a),
        target: basic_id(r, b),
        event: Some(EventId(c + 1)),
        guard: None,
        actions: actions(alloc, d)?,
    })
}

/// The first so many transitions, five for each group, by four draws each. Linear in the count.
pub fn transitions(
    alloc: Global,
    draws: &mut Draws,
    count: u32,
) -> Result<List<Transition>, NoMemory>
    requires { count ≤ 30 }
    ensures made { IfOk result (λ made. made ≡ spec.transitions draws.old count) }
    ensures drawn { OnOk result (draws.new ≡ after (4 * count) draws.old) }
{
    let mut made = List::new(alloc);
    for t in 0..count {
        made.push(transition(alloc, draws, t / 5)?)?;
    }
    Ok(made)
}
