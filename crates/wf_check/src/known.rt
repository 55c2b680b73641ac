//! Whether the numbers in transitions are those of parts of the chart.
ghost use Rattle.std.specs.Prelude.{◌≡◌, length, nat_lt};
ghost use Rattle.std.specs.List.{list_all};
ghost use Rattle.wf_check.specs.Numbered as numbered;
ghost use Rattle.wf_model.specs.Accepted as spec;

use wf_expr::is_known_expr;
use wf_model::{ActId, Action, Chart, EventId, Expr, StateId, Transition, VarId};

fn is_state(chart: &Chart, state: StateId) -> bool
    ensures { result ≡ nat_lt state.0 (length chart.now.states) }
{
    (state.0 as usize) < chart.states.len()
}

fn is_event(chart: &Chart, event: EventId) -> bool
    ensures { result ≡ nat_lt event.0 (length chart.now.events) }
{
    (event.0 as usize) < chart.events.len()
}

fn is_event_or_none(chart: &Chart, event: Option<EventId>) -> bool
    ensures { result ≡ spec.all_of (λ e. nat_lt e.0 (length chart.now.events)) event }
{
    match event {
        Some(event) => is_event(chart, event),
        None => true,
    }
}

fn is_known_guard(chart: &Chart, guard: &Option<Expr>) -> bool
    ensures { result ≡ spec.all_of (spec.is_known_expr chart.now) guard.now }
{
    match guard {
        Some(guard) => is_known_expr(guard, chart),
        None => true,
    }
}

fn is_known_action(chart: &Chart, action: &Action) -> bool
    ensures { result ≡ spec.is_known_action chart.now action.now }
{
    match action {
        Action::Assign(VarId(x), value) => (*x as usize) < chart.vars.len()
            && is_known_expr(value, chart),
        Action::Raise(event) => is_event(chart, *event),
        Action::Start(ActId(a)) => (*a as usize) < chart.acts.len(),
    }
}

#[tactic(auto, using(crate::proofs::Found::all_step))]
fn are_known_actions(chart: &Chart, actions: &[Action]) -> bool
    ensures { result ≡ list_all (spec.is_known_action chart.now) actions.now }
{
    for action in actions {
        if !is_known_action(chart, action) {
            return false;
        }
    }
    true
}

fn is_known_transition(chart: &Chart, transition: &Transition) -> bool
    ensures { result ≡ spec.is_known_transition chart.now transition.now }
{
    is_state(chart, transition.source)
        && is_state(chart, transition.target)
        && is_event_or_none(chart, transition.event)
        && is_known_guard(chart, &transition.guard)
        && are_known_actions(chart, transition.actions.as_slice())
}

/// The first transition that names a part that isn't there. Linear in the transitions.
#[tactic(auto, using(crate::proofs::Found::position_step))]
pub fn bad_transition(chart: &Chart) -> Option<usize>
    ensures { result ≡ numbered.bad_transition chart.now }
{
    let transitions = chart.transitions.as_slice();
    for (t, transition) in transitions.iter().enumerate() {
        if !is_known_transition(chart, transition) {
            return Some(t);
        }
    }
    None
}
