//! The part of a unit.
ghost use Rattle.std.specs.Prelude.{◌≡◌, ◌<◌, length, map, filter, [], if◌then◌else◌, IfOk};
ghost use Rattle.std.specs.List.{range_with_len};
ghost use Rattle.wf_model.specs.Accepted.{IsAccepted};
ghost use Rattle.wf_model.specs.Tree.{all_states, all_transitions, source};
ghost use Rattle.wf_parts.specs.Components.{flat_of, component_of};
ghost use Rattle.wf_parts.specs.Known.{concerns, is_state_of};
ghost use Rattle.wf_parts.specs.Parts.{numbered, part_transition, part_of};
ghost use Rattle.wf_partition.specs.Marked.{unit_bits};

use crate::knowing::{UnitBits, all_bits};
use crate::lists::{acts_of, events_of, states_of, vars_of};
use crate::peers::peers_of;
use crate::reading::{is_set, is_state_of};
use std::alloc::Global;
use wf_model::{Action, Chart, Checked, Duplicate, List, NoMemory, TransId, Transition, UnitId};
use wf_parts::{Component, Flat, Part, PartData, PartTransition};

// The components of the unit's states. Grows with the states, and with the transitions of these components.
fn components_of(
    alloc: Global,
    chart: &Chart,
    flat: &Flat,
    unit: UnitId,
) -> Result<List<Component>, NoMemory>
    requires { flat.now ≡ flat_of chart.now }
    ensures { IfOk result (λ components. components ≡ map (component_of chart.now) (filter (is_state_of chart.now unit.0) (all_states chart.now))) }
{
    let mut components = List::new(alloc);
    for component in flat.components.as_slice() {
        if is_state_of(chart, unit, component.state) {
            let component = component.copy(alloc)?;
            components.push(component)?;
        }
    }
    Ok(components)
}

// The actions of a transition, where it is the unit's own.
fn own_actions(alloc: Global, transition: &Transition, own: bool) -> Result<List<Action>, NoMemory>
    ensures { IfOk result (λ actions. actions ≡ (if own then transition.now.actions else [])) }
{
    if own {
        transition.actions.copy(alloc)
    } else {
        Ok(List::new(alloc))
    }
}

// A transition that concerns the unit. Grows with what is copied.
fn part_transition(
    alloc: Global,
    chart: &Chart,
    flat: &Flat,
    unit: UnitId,
    t: TransId,
    transition: &Transition,
) -> Result<PartTransition, NoMemory>
    requires flat { flat.now ≡ flat_of chart.now }
    requires within { t.0 < length chart.now.transitions }
    requires source { source chart.now t.0 ≡ transition.now.source.0 }
    ensures { IfOk result (λ known. known ≡ part_transition chart.now unit.0 (t.0, transition.now)) }
{
    let own = is_state_of(chart, unit, transition.source);
    let guard = transition.guard.copy(alloc)?;
    let blockers = flat.blockers.as_slice()[t.0 as usize].copy(alloc)?;
    let actions = own_actions(alloc, transition, own)?;
    Ok(PartTransition {
        id: t,
        source: transition.source,
        event: transition.event,
        guard,
        blockers,
        own,
        actions,
    })
}

// The transitions that concern the unit, with what blocks each. Grows with the transitions, and with what is copied.
fn transitions_of(
    alloc: Global,
    chart: &Chart,
    flat: &Flat,
    concerned: &[bool],
    unit: UnitId,
) -> Result<List<PartTransition>, NoMemory>
    requires accepted { IsAccepted chart.now }
    requires flat { flat.now ≡ flat_of chart.now }
    requires concerned { concerned.now ≡ map (concerns chart.now unit.0) (all_transitions chart.now) }
    ensures { IfOk result (λ transitions. transitions ≡ map (part_transition chart.now unit.0) (numbered (concerns chart.now unit.0) chart.now.transitions)) }
{
    let mut transitions = List::new(alloc);
    for (t, transition) in chart.transitions.as_slice().iter().enumerate() {
        if is_set(concerned, t) {
            let known = part_transition(alloc, chart, flat, unit, TransId(t as u32), transition)?;
            transitions.push(known)?;
        }
    }
    Ok(transitions)
}

/// What the unit is given of the chart, by what each unit has of it. Grows with the chart, and with the transitions of the unit's components
/// and of the guards that concern it.
pub fn part_from(
    alloc: Global,
    chart: &Chart,
    flat: &Flat,
    all: &[UnitBits],
    unit: UnitId,
) -> Result<PartData, NoMemory>
    requires accepted { IsAccepted chart.now }
    requires flat { flat.now ≡ flat_of chart.now }
    requires within { unit.0 < length chart.now.units }
    requires all { all.now ≡ map (unit_bits chart.now) (range_with_len 0 (length chart.now.units)) }
    ensures { IfOk result (λ part. part ≡ part_of chart.now unit.0) }
{
    let bits = &all[unit.0 as usize];
    let chart_name = chart.name.copy(alloc)?;
    let name = chart.units.as_slice()[unit.0 as usize].copy(alloc)?;
    let units = chart.units.len() as u32;
    let components = components_of(alloc, chart, flat, unit)?;
    let transitions = transitions_of(alloc, chart, flat, bits.concerned.as_slice(), unit)?;
    let states = states_of(alloc, chart, flat, bits.states.as_slice(), unit)?;
    let vars = vars_of(alloc, chart, bits.vars.as_slice(), unit)?;
    let events = events_of(alloc, chart, bits.events.as_slice(), unit)?;
    let acts = acts_of(alloc, chart, bits.acts.as_slice(), unit)?;
    let peers = peers_of(alloc, chart, &bits.held, all, unit)?;
    Ok(PartData {
        chart: chart_name,
        name,
        unit,
        units,
        components,
        transitions,
        states,
        vars,
        events,
        acts,
        peers,
    })
}

/// What a unit is given of a chart, which was cut into these components, and nothing else of it. Grows with the units times the chart, and
/// with the transitions of the unit's components and of the guards that concern it.
pub fn part_of(
    alloc: Global,
    checked: &Checked,
    flat: &Flat,
    unit: UnitId,
) -> Result<Part, NoMemory>
    requires flat { flat.now ≡ flat_of checked.now }
    requires within { unit.0 < length checked.now.units }
    ensures { IfOk result (λ part. part ≡ part_of checked.now unit.0) }
{
    let all = all_bits(alloc, checked, flat)?;
    let part = part_from(alloc, checked.chart(), flat, all.as_slice(), unit)?;
    Part::seal(alloc, part)
}
