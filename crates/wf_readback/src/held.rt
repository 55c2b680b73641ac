//! The literals of a chart that a program holds are such as can be read, if numbers aren't too great. Each function reads what it is
//! given and changes nothing: that it returns shows what it ensures.
ghost use Rattle.std.specs.Prelude.{IsTrue};
ghost use Rattle.std.specs.List.{list_all};
ghost use Rattle.wf_model.specs.Accepted.{all_of};
ghost use Rattle.wf_readback.specs.Held.{has_short_texts, is_held, is_held_action, is_held_transition, is_short_value};

use wf_model::{Action, Chart, Expr, Transition, Val, Variable};

// A number fits, and a Text is a short one.
fn value_is_short(value: &Val)
    ensures { IsTrue (is_short_value value.now) }
{
    match value {
        Val::Bool(_) => {}
        Val::Int(number) => {
            let _number = *number;
        }
        Val::Text(chars) => {
            let _chars = chars.as_slice();
        }
    }
}

fn vars_are_held(vars: &[Variable])
    ensures { IsTrue (list_all (λ x. is_short_value x.first) vars.now) }
{
    for var in vars {
        value_is_short(&var.first);
    }
}

#[tactic(auto, using(crate::proofs::Operators::short_texts_laws))]
fn texts_are_short(expr: &Expr)
    ensures { IsTrue (has_short_texts expr.now) }
{
    match expr {
        Expr::Text(chars) => {
            let _chars = chars.as_slice();
        }
        Expr::Not(inner) | Expr::Neg(inner) => texts_are_short(inner.get()),
        Expr::Bin(_, left, right) => {
            texts_are_short(left.get());
            texts_are_short(right.get());
        }
        Expr::Bool(_)
        | Expr::Int(_)
        | Expr::Var(_)
        | Expr::In(_)
        | Expr::Count(_)
        | Expr::Done(_) => {}
    }
}

fn guard_is_held(guard: &Option<Expr>)
    ensures { IsTrue (all_of has_short_texts guard.now) }
{
    if let Some(guard) = guard {
        texts_are_short(guard);
    }
}

fn action_is_held(action: &Action)
    ensures { IsTrue (is_held_action action.now) }
{
    if let Action::Assign(_, value) = action {
        texts_are_short(value);
    }
}

fn actions_are_held(actions: &[Action])
    ensures { IsTrue (list_all is_held_action actions.now) }
{
    for action in actions {
        action_is_held(action);
    }
}

fn transition_is_held(transition: &Transition)
    ensures { IsTrue (is_held_transition transition.now) }
{
    guard_is_held(&transition.guard);
    actions_are_held(transition.actions.as_slice());
}

fn transitions_are_held(transitions: &[Transition])
    ensures { IsTrue (list_all is_held_transition transitions.now) }
{
    for transition in transitions {
        transition_is_held(transition);
    }
}

/// The literals of a chart are as a program holds them: its first values fit, and its Texts are short ones. Linear in the chart, and
/// takes no memory.
#[tactic(auto, unfolding(crate::specs::Held::is_held))]
pub fn chart_is_held(chart: &Chart)
    ensures { IsTrue (is_held chart.now) }
{
    vars_are_held(chart.vars.as_slice());
    transitions_are_held(chart.transitions.as_slice());
}
