//! Whether a chart keeps the limits.
ghost use Rattle.std.specs.Prelude.{◌≡◌, nat_le};
ghost use Rattle.std.specs.List.{list_all};
ghost use Rattle.wf_check.specs.Limited as spec;
ghost use Rattle.wf_model.specs.Accepted as accepted;
ghost use Rattle.wf_model.specs.Limits.{max_nodes};

use crate::{CheckFault, What};
use wf_expr::has_at_most;
use wf_model::limits::{
    MAX_ACTIONS, MAX_ACTS, MAX_EVENTS, MAX_NODES, MAX_OUTPUTS, MAX_STATES, MAX_TRANSITIONS,
    MAX_UNITS, MAX_VARS,
};
use wf_model::{Action, Activity, Chart, Expr, Transition};

/// The first kind of which there are too many. Linear in the chart.
#[tactic(auto, unfolding(crate::specs::Limited::size_fault))]
pub fn size_fault(chart: &Chart) -> Option<CheckFault>
    ensures { result ≡ spec.size_fault chart.now }
{
    let what = if chart.units.len() > MAX_UNITS {
        What::Units
    } else if chart.events.len() > MAX_EVENTS {
        What::Events
    } else if chart.vars.len() > MAX_VARS {
        What::Vars
    } else if chart.acts.len() > MAX_ACTS {
        What::Activities
    } else if chart.states.len() > MAX_STATES {
        What::States
    } else if chart.transitions.len() > MAX_TRANSITIONS {
        What::Transitions
    } else if !have_few_actions(chart) {
        What::Actions
    } else if !have_few_outputs(chart) {
        What::Outputs
    } else if !have_small_exprs(chart) {
        What::Nodes
    } else {
        return None;
    };
    Some(CheckFault::TooMany { what })
}

fn has_few_actions(transition: &Transition) -> bool
    ensures { result ≡ spec.has_few_actions transition.now }
{
    transition.actions.len() <= MAX_ACTIONS
}

fn have_few_actions(chart: &Chart) -> bool
    ensures { result ≡ list_all spec.has_few_actions chart.now.transitions }
{
    chart.transitions.iter().all(has_few_actions)
}

fn has_few_outputs(act: &Activity) -> bool
    ensures { result ≡ spec.has_few_outputs act.now }
{
    act.outputs.len() <= MAX_OUTPUTS
}

fn have_few_outputs(chart: &Chart) -> bool
    ensures { result ≡ list_all spec.has_few_outputs chart.now.acts }
{
    chart.acts.iter().all(has_few_outputs)
}

fn is_small_guard(guard: &Option<Expr>) -> bool
    ensures { result ≡ accepted.all_of (λ x. nat_le (accepted.nodes x) max_nodes) guard.now }
{
    match guard {
        Some(guard) => has_at_most(guard, MAX_NODES),
        None => true,
    }
}

fn is_small_action(action: &Action) -> bool
    ensures { result ≡ accepted.is_small_action action.now }
{
    match action {
        Action::Assign(_, value) => has_at_most(value, MAX_NODES),
        Action::Raise(_) | Action::Start(_) => true,
    }
}

fn are_small_actions(transition: &Transition) -> bool
    ensures { result ≡ list_all accepted.is_small_action transition.now.actions }
{
    transition.actions.iter().all(is_small_action)
}

fn has_small_exprs(transition: &Transition) -> bool
    ensures { result ≡ spec.has_small_exprs transition.now }
{
    is_small_guard(&transition.guard) && are_small_actions(transition)
}

fn have_small_exprs(chart: &Chart) -> bool
    ensures { result ≡ list_all spec.has_small_exprs chart.now.transitions }
{
    chart.transitions.iter().all(has_small_exprs)
}
