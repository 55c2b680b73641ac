//! The faults of transitions.
ghost use Rattle.std.specs.Prelude.{◌≡◌, ◌<◌, ◌^◌, IsTrue, length};
ghost use Rattle.wf_check.specs.Limited.{AreFew, has_few_actions};
ghost use Rattle.wf_check.specs.Firsts.{first_from};
ghost use Rattle.wf_check.specs.Sorted as sorted;
ghost use Rattle.wf_model.specs.Accepted as spec;

use crate::sorts::are_alike;
use crate::{CheckFault, TypePlace};
use wf_expr::type_of;
use wf_model::{Action, Chart, Expr, Sort, TransId, Transition};

fn has_sort(chart: &Chart, e: &Expr, sort: Sort) -> bool
    ensures { result ≡ spec.has_sort chart.now e.now sort }
{
    match type_of(e, chart) {
        Ok(other) => are_alike(sort, other),
        Err(_) => false,
    }
}

fn is_sorted_guard(chart: &Chart, guard: &Option<Expr>) -> bool
    ensures { result ≡ spec.all_of (λ x. spec.has_sort chart.now x Sort.Bool) guard.now }
{
    match guard {
        Some(guard) => has_sort(chart, guard, Sort::Bool),
        None => true,
    }
}

fn is_sorted_action(chart: &Chart, action: &Action) -> bool
    ensures { result ≡ spec.is_sorted_action chart.now action.now }
{
    match action {
        Action::Assign(x, value) => match chart.var_sort(*x) {
            Some(sort) => has_sort(chart, value, sort),
            None => true,
        },
        Action::Raise(_) | Action::Start(_) => true,
    }
}

/// The first action that assigns a value of another sort.
#[tactic(auto, using(crate::proofs::Found::position_step))]
fn unlike_action(chart: &Chart, transition: &Transition) -> Option<usize>
    ensures { result ≡ sorted.unlike_action chart.now transition.now }
{
    let actions = transition.actions.as_slice();
    for (n, action) in actions.iter().enumerate() {
        if !is_sorted_action(chart, action) {
            return Some(n);
        }
    }
    None
}

/// The first rule that transition `t` breaks.
#[tactic(auto, using(crate::proofs::Found::action_fits), unfolding(crate::specs::Sorted::transition_fault))]
fn transition_fault(chart: &Chart, t: TransId, transition: &Transition) -> Option<CheckFault>
    requires { IsTrue (has_few_actions transition.now) }
    ensures { result ≡ sorted.transition_fault chart.now t.0 transition.now }
{
    if transition.source.0 == 0 {
        return Some(CheckFault::SourceRoot { t });
    }
    if transition.target.0 == 0 {
        return Some(CheckFault::TargetRoot { t });
    }
    if !is_sorted_guard(chart, &transition.guard) {
        return Some(CheckFault::BadType {
            place: TypePlace::Guard(t),
        });
    }
    let n = unlike_action(chart, transition)?;
    Some(CheckFault::BadType {
        place: TypePlace::Act(t, n as u8),
    })
}

/// The fault of the first transition that has one. Linear in the transitions.
#[tactic(auto, using(crate::proofs::Found::all_at, crate::proofs::Found::first_step))]
pub fn first_transition_fault(chart: &Chart) -> Option<CheckFault>
    requires { AreFew chart.now }
    ensures { result ≡ first_from (sorted.transition_fault chart.now) 0 chart.now.transitions }
{
    let transitions = chart.transitions.as_slice();
    for (t, transition) in transitions.iter().enumerate() {
        if let Some(fault) = transition_fault(chart, TransId(t as u32), transition) {
            return Some(fault);
        }
    }
    None
}
