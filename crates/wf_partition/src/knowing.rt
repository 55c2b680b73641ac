//! What each unit knows of a chart.
ghost use Rattle.std.specs.Prelude.{◌≡◌, ◌||◌, length, map, false, slice_index_or, IfOk};
ghost use Rattle.std.specs.List.{list_any, range_with_len};
ghost use Rattle.wf_model.specs.Tree.{all_transitions};
ghost use Rattle.wf_parts.specs.Reads.{is_on};
ghost use Rattle.wf_parts.specs.Components.{flat_of};
ghost use Rattle.wf_parts.specs.Known.{concerns};
ghost use Rattle.wf_partition.specs.Marked.{marked, triggers_at, unit_bits};

use crate::holding::{Held, acts_at, events_at, held_by, states_at};
use crate::marks::{concerned_bits, seen_by};
use crate::reading::{is_set, mark, none_set};
use std::alloc::Global;
use wf_model::{Chart, Checked, List, NoMemory, Transition, UnitId};
use wf_parts::Flat;

/// Bits of what one unit has of a chart.
#[derive(Drop)]
pub struct UnitBits {
    /// The transitions that concern it.
    pub concerned: List<bool>,
    /// The states that it watches.
    pub watched: List<bool>,
    /// What may stand in its updates.
    pub held: Held,
    /// The states that it knows.
    pub states: List<bool>,
    /// The variables that it knows.
    pub vars: List<bool>,
    /// The events that it knows.
    pub events: List<bool>,
    /// The activities that it knows.
    pub acts: List<bool>,
}

// Sets the bit of the event of a transition.
fn mark_event(events: &mut List<bool>, transition: &Transition)
    ensures { events.new ≡ marked (λ n. is_on n transition.now) events.old }
{
    match transition.event {
        Some(event) => mark(events, event.0),
        None => {}
    }
}

// For each event, whether it is that of a transition that concerns the unit. Grows with the events and the transitions.
fn triggers(alloc: Global, chart: &Chart, concerned: &[bool]) -> Result<List<bool>, NoMemory>
    ensures { IfOk result (λ bits. bits ≡ map (λ n. list_any (triggers_at chart.now concerned.now n) (all_transitions chart.now)) (range_with_len 0 (length chart.now.events))) }
{
    let mut events = none_set(alloc, chart.events.len())?;
    for (t, transition) in chart.transitions.as_slice().iter().enumerate() {
        if is_set(concerned, t) {
            mark_event(&mut events, transition);
        }
    }
    Ok(events)
}

// Whether the bit of a number is set in one or the other.
fn is_either(one: &List<bool>, other: &List<bool>, at: usize) -> bool
    ensures { result ≡ (slice_index_or one.now at false || slice_index_or other.now at false) }
{
    is_set(one.as_slice(), at) || is_set(other.as_slice(), at)
}

// For each bit of the first, whether it or the other's is set. Grows with them.
fn either_bits(alloc: Global, one: &List<bool>, other: &List<bool>) -> Result<List<bool>, NoMemory>
    ensures { IfOk result (λ bits. bits ≡ map (λ k. slice_index_or one.now k false || slice_index_or other.now k false) (range_with_len 0 (length one.now))) }
{
    let mut bits = List::new(alloc);
    for k in 0..one.len() {
        bits.push(is_either(one, other, k))?;
    }
    Ok(bits)
}

// What one unit has of the chart, where it is known which transitions concern it. Grows with the chart.
fn bits_where(
    alloc: Global,
    chart: &Chart,
    concerned: List<bool>,
    unit: UnitId,
) -> Result<UnitBits, NoMemory>
    requires { concerned ≡ map (concerns chart.now unit.0) (all_transitions chart.now) }
    ensures { IfOk result (λ bits. bits ≡ unit_bits chart.now unit.0) }
{
    let seen = seen_by(alloc, chart, concerned.as_slice(), unit)?;
    let triggers = triggers(alloc, chart, concerned.as_slice())?;
    let states_at = states_at(alloc, chart, unit)?;
    let events_at = events_at(alloc, chart, unit)?;
    let acts_at = acts_at(alloc, chart, unit)?;
    let states = either_bits(alloc, &states_at, &seen.states)?;
    let events = either_bits(alloc, &events_at, &triggers)?;
    let acts = either_bits(alloc, &acts_at, &seen.acts)?;
    let held = held_by(alloc, chart, unit, states_at, events_at, acts_at)?;
    let vars = either_bits(alloc, &seen.vars, &held.vars)?;
    Ok(UnitBits {
        concerned,
        watched: seen.states,
        held,
        states,
        vars,
        events,
        acts,
    })
}

// What one unit has of the chart. Grows with the chart.
fn bits_of(
    alloc: Global,
    checked: &Checked,
    flat: &Flat,
    unit: UnitId,
) -> Result<UnitBits, NoMemory>
    requires flat { flat.now ≡ flat_of checked.now }
    ensures { IfOk result (λ bits. bits ≡ unit_bits checked.now unit.0) }
{
    let concerned = concerned_bits(alloc, checked, flat, unit)?;
    bits_where(alloc, checked.chart(), concerned, unit)
}

/// What each unit has of the chart, in unit order. Grows with the units times the chart.
pub fn all_bits(alloc: Global, checked: &Checked, flat: &Flat) -> Result<List<UnitBits>, NoMemory>
    requires { flat.now ≡ flat_of checked.now }
    ensures { IfOk result (λ bits. bits ≡ map (unit_bits checked.now) (range_with_len 0 (length checked.now.units))) }
{
    let mut all = List::new(alloc);
    for unit in 0..checked.chart().units.len() {
        let bits = bits_of(alloc, checked, flat, UnitId(unit as u32))?;
        all.push(bits)?;
    }
    Ok(all)
}
