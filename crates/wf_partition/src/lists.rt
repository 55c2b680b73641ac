//! The lists of what a unit knows.
ghost use Rattle.std.specs.Prelude.{◌≡◌, ◌==◌, length, map, false, [], slice_get, unwrap_or, if◌then◌else◌, IfOk};
ghost use Rattle.std.specs.List.{range_with_len};
ghost use Rattle.std.specs.Option.{option_map_or};
ghost use Rattle.wf_model.specs.declared.value.Sort.TheVariants as sorts;
ghost use Rattle.wf_model.specs.Accepted.{IsAccepted};
ghost use Rattle.wf_model.specs.Sorts.{var_sort};
ghost use Rattle.wf_model.specs.Tree.{all_states, all_events, all_acts};
ghost use Rattle.wf_parts.specs.Components.{flat_of};
ghost use Rattle.wf_parts.specs.Known.{knows_state, knows_var, knows_event, knows_act};
ghost use Rattle.wf_parts.specs.Parts.{numbered, known_state, known_variable, known_event, known_activity, sorted_output};

use crate::reading::is_set;
use std::alloc::Global;
use wf_model::{ActId, Activity, Chart, EventId, List, NoMemory, Sort, StateId, UnitId, VarId};
use wf_parts::{Flat, KnownActivity, KnownEvent, KnownState, KnownVariable};

// Whether a state is in at first.
fn starts_in(flat: &Flat, s: usize) -> bool
    ensures { result ≡ option_map_or (λ component. component.first) (slice_get flat.now.components s) false }
{
    match flat.components.get(s) {
        Some(component) => component.first,
        None => false,
    }
}

/// The states that the unit knows, as the bits tell. Grows with the states.
pub fn states_of(
    alloc: Global,
    chart: &Chart,
    flat: &Flat,
    known: &[bool],
    unit: UnitId,
) -> Result<List<KnownState>, NoMemory>
    requires accepted { IsAccepted chart.now }
    requires flat { flat.now ≡ flat_of chart.now }
    requires known { known.now ≡ map (knows_state chart.now unit.0) (all_states chart.now) }
    ensures { IfOk result (λ states. states ≡ map (known_state chart.now) (numbered (knows_state chart.now unit.0) chart.now.states)) }
{
    let mut states = List::new(alloc);
    for (s, state) in chart.states.as_slice().iter().enumerate() {
        if is_set(known, s) {
            let first = starts_in(flat, s);
            states.push(KnownState {
                id: StateId(s as u32),
                unit: state.unit,
                first,
            })?;
        }
    }
    Ok(states)
}

/// The variables that the unit knows, as the bits tell. Grows with the variables.
pub fn vars_of(
    alloc: Global,
    chart: &Chart,
    known: &[bool],
    unit: UnitId,
) -> Result<List<KnownVariable>, NoMemory>
    requires accepted { IsAccepted chart.now }
    requires known { known.now ≡ map (knows_var chart.now unit.0) (range_with_len 0 (length chart.now.vars)) }
    ensures { IfOk result (λ vars. vars ≡ map known_variable (numbered (knows_var chart.now unit.0) chart.now.vars)) }
{
    let mut vars = List::new(alloc);
    for (x, var) in chart.vars.as_slice().iter().enumerate() {
        if is_set(known, x) {
            vars.push(KnownVariable {
                id: VarId(x as u32),
                sort: var.sort,
                first: var.first,
            })?;
        }
    }
    Ok(vars)
}

/// The events that the unit knows, as the bits tell. Grows with the events.
pub fn events_of(
    alloc: Global,
    chart: &Chart,
    known: &[bool],
    unit: UnitId,
) -> Result<List<KnownEvent>, NoMemory>
    requires accepted { IsAccepted chart.now }
    requires known { known.now ≡ map (knows_event chart.now unit.0) (all_events chart.now) }
    ensures { IfOk result (λ events. events ≡ map known_event (numbered (knows_event chart.now unit.0) chart.now.events)) }
{
    let mut events = List::new(alloc);
    for (n, event) in chart.events.as_slice().iter().enumerate() {
        if is_set(known, n) {
            events.push(KnownEvent {
                id: EventId(n as u32),
                unit: event.unit,
            })?;
        }
    }
    Ok(events)
}

// The sort of a variable. A number that no variable has counts as Boolean.
fn sort_of(chart: &Chart, x: VarId) -> Sort
    ensures { result ≡ unwrap_or (var_sort chart.now x.0) sorts.Bool }
{
    match chart.vars.get(x.0 as usize) {
        Some(var) => var.sort,
        None => Sort::Bool,
    }
}

// Variables with their sorts. Grows with them.
fn sorted_outputs(
    alloc: Global,
    chart: &Chart,
    outputs: &[VarId],
) -> Result<List<(VarId, Sort)>, NoMemory>
    ensures { IfOk result (λ sorted. sorted ≡ map (sorted_output chart.now) outputs.now) }
{
    let mut sorted = List::new(alloc);
    for x in outputs {
        sorted.push((*x, sort_of(chart, *x)))?;
    }
    Ok(sorted)
}

// The outputs of an activity, where it is the unit's own.
fn own_outputs(
    alloc: Global,
    chart: &Chart,
    act: &Activity,
    unit: UnitId,
) -> Result<List<(VarId, Sort)>, NoMemory>
    ensures { IfOk result (λ outputs. outputs ≡ (if act.now.unit.0 == unit.0 then map (sorted_output chart.now) act.now.outputs else [])) }
{
    if act.unit.0 == unit.0 {
        sorted_outputs(alloc, chart, act.outputs.as_slice())
    } else {
        Ok(List::new(alloc))
    }
}

/// The activities that the unit knows, as the bits tell. Grows with the activities and their outputs.
pub fn acts_of(
    alloc: Global,
    chart: &Chart,
    known: &[bool],
    unit: UnitId,
) -> Result<List<KnownActivity>, NoMemory>
    requires accepted { IsAccepted chart.now }
    requires known { known.now ≡ map (knows_act chart.now unit.0) (all_acts chart.now) }
    ensures { IfOk result (λ acts. acts ≡ map (known_activity chart.now unit.0) (numbered (knows_act chart.now unit.0) chart.now.acts)) }
{
    let mut acts = List::new(alloc);
    for (a, act) in chart.acts.as_slice().iter().enumerate() {
        if is_set(known, a) {
            let outputs = own_outputs(alloc, chart, act, unit)?;
            acts.push(KnownActivity {
                id: ActId(a as u32),
                unit: act.unit,
                outputs,
            })?;
        }
    }
    Ok(acts)
}
