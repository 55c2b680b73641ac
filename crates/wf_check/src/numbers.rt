//! Whether the numbers in a chart are those of its parts, and parts stand in their places.
ghost use Rattle.std.specs.Prelude.{◌≡◌, ◌&&◌, ◌<◌, ◌^◌, is_none, length, nat_lt};
ghost use Rattle.std.specs.List.{list_all};
ghost use Rattle.std.specs.Str.{bytes_eq};
ghost use lib.Chars.{codes};
ghost use Rattle.wf_check.specs.Limited.{AreFew};
ghost use Rattle.wf_check.specs.Numbered as numbered;
ghost use Rattle.wf_model.specs.Accepted as spec;

use crate::known::bad_transition;
use crate::tree::{is_above, parent_of};
use crate::{CheckFault, What};
use wf_model::{Activity, Chart, Event, State, UnitId, VarId};

/// The first part, kind by kind, that names a part that isn't there, or stands out of place. Linear in the events, the
/// activities, the transitions, and the states times their depth.
#[tactic(auto, using(crate::proofs::Found::event_fits, crate::proofs::Found::activity_fits, crate::proofs::Found::state_fits, crate::proofs::Found::transition_fits), unfolding(crate::specs::Numbered::number_fault))]
pub fn number_fault(chart: &Chart) -> Option<CheckFault>
    requires { AreFew chart.now }
    ensures { result ≡ numbered.number_fault chart.now }
{
    if chart.events.is_empty() {
        return Some(bad_id(What::Events, 0));
    }
    if let Some(at) = bad_event(chart) {
        return Some(bad_id(What::Events, at));
    }
    if let Some(at) = bad_activity(chart) {
        return Some(bad_id(What::Activities, at));
    }
    if let Some(at) = bad_state(chart) {
        return Some(bad_id(What::States, at));
    }
    let at = bad_transition(chart)?;
    Some(bad_id(What::Transitions, at))
}

fn bad_id(what: What, at: usize) -> CheckFault
    requires { at < 2 ^ 32 }
    ensures { result ≡ CheckFault.BadId what at }
{
    CheckFault::BadId {
        what,
        at: at as u32,
    }
}

fn is_unit(chart: &Chart, unit: UnitId) -> bool
    ensures { result ≡ spec.is_unit chart.now unit }
{
    (unit.0 as usize) < chart.units.len()
}

fn is_unit_or_none(chart: &Chart, unit: Option<UnitId>) -> bool
    ensures { result ≡ spec.all_of (spec.is_unit chart.now) unit }
{
    match unit {
        Some(unit) => is_unit(chart, unit),
        None => true,
    }
}

fn is_fault(event: &Event) -> bool
    ensures { result ≡ (bytes_eq event.now.name (codes "fault") && is_none event.now.unit) }
{
    event.name.as_bytes() == b"fault".as_slice() && event.unit.is_none()
}

fn is_placed_event(chart: &Chart, n: usize, event: &Event) -> bool
    ensures { result ≡ spec.is_placed_event chart.now n event.now }
{
    (n != 0 || is_fault(event)) && is_unit_or_none(chart, event.unit)
}

fn bad_event(chart: &Chart) -> Option<usize>
    ensures { result ≡ numbered.bad_event chart.now }
{
    chart
        .events
        .iter()
        .enumerate()
        .position(|(n, event)| !is_placed_event(chart, n, event))
}

fn is_var(chart: &Chart, x: VarId) -> bool
    ensures { result ≡ nat_lt x.0 (length chart.now.vars) }
{
    (x.0 as usize) < chart.vars.len()
}

fn are_vars(chart: &Chart, outputs: &[VarId]) -> bool
    ensures { result ≡ list_all (λ x. nat_lt x.0 (length chart.now.vars)) outputs.now }
{
    outputs.iter().all(|x| is_var(chart, *x))
}

fn is_known_activity(chart: &Chart, act: &Activity) -> bool
    ensures { result ≡ spec.is_known_activity chart.now act.now }
{
    is_unit(chart, act.unit) && are_vars(chart, act.outputs.as_slice())
}

fn bad_activity(chart: &Chart) -> Option<usize>
    ensures { result ≡ numbered.bad_activity chart.now }
{
    chart
        .acts
        .iter()
        .position(|act| !is_known_activity(chart, act))
}

fn follows(chart: &Chart, s: usize, parent: Option<usize>) -> bool
    ensures { result ≡ spec.follows chart.now s parent }
{
    match parent {
        Some(p) => 0 < s && (p == s - 1 || is_above(chart, p, s - 1)),
        None => s == 0,
    }
}

fn is_placed_state(chart: &Chart, s: usize, state: &State) -> bool
    ensures { result ≡ spec.is_placed_state chart.now s state.now }
{
    follows(chart, s, parent_of(state)) && is_unit(chart, state.unit)
}

fn bad_state(chart: &Chart) -> Option<usize>
    ensures { result ≡ numbered.bad_state chart.now }
{
    chart
        .states
        .iter()
        .enumerate()
        .position(|(s, state)| !is_placed_state(chart, s, state))
}
