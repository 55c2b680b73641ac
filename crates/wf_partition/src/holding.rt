//! What may stand in a unit's updates.
ghost use Rattle.std.specs.Prelude.{◌≡◌, ◌==◌, map, false, IfOk};
ghost use Rattle.std.specs.List.{list_any};
ghost use Rattle.std.specs.Option.{option_map_or};
ghost use Rattle.wf_model.specs.Tree.{all_states, all_transitions, all_events, all_acts};
ghost use Rattle.wf_semantics.specs.Admission.{is_event_at, is_act_at};
ghost use Rattle.wf_parts.specs.Known.{is_state_of};
ghost use Rattle.wf_partition.specs.Marked.{marked, gives_at, has_at, Holds, held_bits};

use crate::reading::{is_state_of, mark, none_set};
use std::alloc::Global;
use wf_model::{Action, Activity, Chart, List, NoMemory, Transition, UnitId, VarId};

/// Bits for the states, variables, events and activities of a chart: which may stand in a unit's updates.
#[derive(Drop)]
pub struct Held {
    pub states: List<bool>,
    pub vars: List<bool>,
    pub events: List<bool>,
    pub acts: List<bool>,
}

/// For each state, whether it is one of the unit. Grows with the states.
pub fn states_at(alloc: Global, chart: &Chart, unit: UnitId) -> Result<List<bool>, NoMemory>
    ensures { IfOk result (λ bits. bits ≡ map (is_state_of chart.now unit.0) (all_states chart.now)) }
{
    let mut bits = List::new(alloc);
    for state in chart.states.as_slice() {
        bits.push(state.unit.0 == unit.0)?;
    }
    Ok(bits)
}

// Whether the unit is this one.
fn is_at(at: Option<UnitId>, unit: UnitId) -> bool
    ensures { result ≡ option_map_or (λ at. at.0 == unit.0) at false }
{
    match at {
        Some(at) => at.0 == unit.0,
        None => false,
    }
}

/// For each event, whether it is at the unit. Grows with the events.
pub fn events_at(alloc: Global, chart: &Chart, unit: UnitId) -> Result<List<bool>, NoMemory>
    ensures { IfOk result (λ bits. bits ≡ map (is_event_at chart.now unit.0) (all_events chart.now)) }
{
    let mut bits = List::new(alloc);
    for event in chart.events.as_slice() {
        bits.push(is_at(event.unit, unit))?;
    }
    Ok(bits)
}

/// For each activity, whether it is at the unit. Grows with the activities.
pub fn acts_at(alloc: Global, chart: &Chart, unit: UnitId) -> Result<List<bool>, NoMemory>
    ensures { IfOk result (λ bits. bits ≡ map (is_act_at chart.now unit.0) (all_acts chart.now)) }
{
    let mut bits = List::new(alloc);
    for act in chart.acts.as_slice() {
        bits.push(act.unit.0 == unit.0)?;
    }
    Ok(bits)
}

// Adds what an action may change. A value that faults raises event 0.
fn add_action(held: &mut Held, action: &Action)
    ensures { Holds (λ test. test action.now) held.old held.new }
{
    match action {
        Action::Assign(x, _) => {
            mark(&mut held.vars, x.0);
            mark(&mut held.events, 0);
        }
        Action::Raise(event) => mark(&mut held.events, event.0),
        Action::Start(act) => mark(&mut held.acts, act.0),
    }
}

// Adds what actions may change. Grows with them.
fn add_actions(held: &mut Held, actions: &[Action])
    ensures { Holds (λ test. list_any test actions.now) held.old held.new }
{
    for action in actions {
        add_action(held, action);
    }
}

// Adds what the unit's own transitions may change. Grows with the transitions and their actions.
fn add_own(held: &mut Held, chart: &Chart, unit: UnitId)
    ensures { Holds (λ test. list_any (has_at chart.now unit.0 test) (all_transitions chart.now)) held.old held.new }
{
    for transition in chart.transitions.as_slice() {
        if is_state_of(chart, unit, transition.source) {
            add_actions(held, transition.actions.as_slice());
        }
    }
}

// Sets the bits of these variables. Grows with them.
fn mark_vars(vars: &mut List<bool>, outputs: &[VarId])
    ensures { vars.new ≡ marked (λ x. list_any (λ v. v.0 == x) outputs.now) vars.old }
{
    for v in outputs {
        mark(vars, v.0);
    }
}

// Sets the bits of the outputs of the unit's activities. Grows with the activities and their outputs.
fn mark_given(vars: &mut List<bool>, chart: &Chart, unit: UnitId)
    ensures { vars.new ≡ marked (λ x. list_any (gives_at chart.now unit.0 x) (all_acts chart.now)) vars.old }
{
    for act in chart.acts.as_slice() {
        if act.unit.0 == unit.0 {
            mark_vars(vars, act.outputs.as_slice());
        }
    }
}

/// What may stand in the unit's updates, with the bits of its states, and of the events and activities at it. Grows with the variables,
/// the transitions and their actions, and the activities and their outputs.
pub fn held_by(
    alloc: Global,
    chart: &Chart,
    unit: UnitId,
    states: List<bool>,
    events: List<bool>,
    acts: List<bool>,
) -> Result<Held, NoMemory>
    requires states { states ≡ map (is_state_of chart.now unit.0) (all_states chart.now) }
    requires events { events ≡ map (is_event_at chart.now unit.0) (all_events chart.now) }
    requires acts { acts ≡ map (is_act_at chart.now unit.0) (all_acts chart.now) }
    ensures { IfOk result (λ held. held ≡ held_bits chart.now unit.0) }
{
    let vars = none_set(alloc, chart.vars.len())?;
    let mut held = Held {
        states,
        vars,
        events,
        acts,
    };
    add_own(&mut held, chart, unit);
    mark_given(&mut held.vars, chart, unit);
    Ok(held)
}
