//! Which transitions concern a unit, and what these read.
ghost use Rattle.std.specs.Prelude.{◌≡◌, ◌==◌, map, IfOk};
ghost use Rattle.std.specs.List.{list_any};
ghost use Rattle.wf_model.specs.Tree.{all_transitions};
ghost use Rattle.wf_parts.specs.Components.{flat_of};
ghost use Rattle.wf_parts.specs.Known.{concerns};
ghost use Rattle.wf_partition.specs.Marked.{marked, moves, leads_from, AreSeen};

use crate::reading::{Reads, is_set, is_state_of, mark, none_set, read_by};
use std::alloc::Global;
use wf_model::{Chart, Checked, List, NoMemory, TransId, UnitId};
use wf_parts::{Component, Flat};

// Sets the bits of these transitions. Grows with them.
fn mark_all(bits: &mut List<bool>, transitions: &[TransId])
    ensures { bits.new ≡ marked (λ t. list_any (λ x. x.0 == t) transitions.now) bits.old }
{
    for t in transitions {
        mark(bits, t.0);
    }
}

// Sets the bits of the transitions of a component. Grows with them.
fn mark_component(bits: &mut List<bool>, component: &Component)
    ensures { bits.new ≡ marked (moves component.now) bits.old }
{
    mark_all(bits, component.enter.as_slice());
    mark_all(bits, component.leave.as_slice());
}

/// For each transition, whether it concerns the unit. Grows with the states and the transitions, and with the transitions of the unit's
/// components.
pub fn concerned_bits(
    alloc: Global,
    checked: &Checked,
    flat: &Flat,
    unit: UnitId,
) -> Result<List<bool>, NoMemory>
    requires flat { flat.now ≡ flat_of checked.now }
    ensures { IfOk result (λ bits. bits ≡ map (concerns checked.now unit.0) (all_transitions checked.now)) }
{
    let chart = checked.chart();
    let mut bits = none_set(alloc, chart.transitions.len())?;
    for component in flat.components.as_slice() {
        if is_state_of(chart, unit, component.state) {
            mark_component(&mut bits, component);
        }
    }
    Ok(bits)
}

// Sets the bits of the states from which the transitions lead that concern a unit. Grows with the transitions.
fn mark_sources(bits: &mut List<bool>, chart: &Chart, concerned: &[bool])
    ensures { bits.new ≡ marked (λ s. list_any (leads_from chart.now concerned.now s) (all_transitions chart.now)) bits.old }
{
    for (t, transition) in chart.transitions.as_slice().iter().enumerate() {
        if is_set(concerned, t) {
            mark(bits, transition.source.0);
        }
    }
}

/// Which states a unit watches, and which variables and activities are read for it: by the guards of transitions that concern it, and by
/// values that its own ones assign. Grows with the states, variables and activities, and with the transitions and their expressions.
pub fn seen_by(
    alloc: Global,
    chart: &Chart,
    concerned: &[bool],
    unit: UnitId,
) -> Result<Reads, NoMemory>
    requires { concerned.now ≡ map (concerns chart.now unit.0) (all_transitions chart.now) }
    ensures { IfOk result (AreSeen chart.now unit.0) }
{
    let mut reads = read_by(alloc, chart, concerned, unit)?;
    mark_sources(&mut reads.states, chart, concerned);
    Ok(reads)
}
