//! The text of a chart that is split into parts.
ghost use Rattle.std.specs.Prelude.{◌≡◌, ◌<◌, ◌++◌, codes, flat_map, map, filter, length, IfOk, OnOk};
ghost use Rattle.wf_words.specs.Names as named;
ghost use Rattle.std.specs.List.{range_with_len};
ghost use Rattle.wf_model.specs.Accepted.{IsAccepted};
ghost use Rattle.wf_parts.specs.Components.{flat_of};
ghost use Rattle.wf_parts.specs.Known.{watches_state};
ghost use Rattle.wf_parts.specs.Parts as parts;
ghost use Rattle.wf_ortho.specs.Lines.{component_line};
ghost use Rattle.wf_partition.specs.SplitText as spec;
ghost use Rattle.wf_partition.specs.Marked.{unit_bits};

use crate::knowing::{UnitBits, all_bits};
use crate::part::part_from;
use crate::reading::is_set;
use std::alloc::Global;
use wf_model::{Bytes, Chart, Checked, List, NoMemory, UnitId};
use wf_ortho::{append_component, append_transitions};
use wf_parts::{
    Component, Flat, KnownActivity, KnownEvent, KnownState, KnownVariable, PartData, PartTransition,
};
use wf_words::{act_name, append_number, event_name, state_name, var_name};

fn append_components(
    alloc: Global,
    text: &mut Bytes,
    chart: &Chart,
    components: &[Component],
) -> Result<(), NoMemory>
    ensures { OnOk result (text.new ≡ text.old ++ flat_map (component_line chart.now) components.now) }
{
    for component in components {
        append_component(alloc, text, chart, component)?;
    }
    Ok(())
}

fn own_word(own: bool) -> &'static [u8]
    ensures { result.now ≡ spec.own_word own }
{
    if own { b" own" } else { b" other" }
}

#[tactic(auto, unfolding(crate::specs::SplitText::guard_line))]
fn append_guard(
    alloc: Global,
    text: &mut Bytes,
    transition: &PartTransition,
) -> Result<(), NoMemory>
    ensures { OnOk result (text.new ≡ text.old ++ spec.guard_line transition.now) }
{
    text.append(b"guard t")?;
    append_number(text, transition.id.0.into())?;
    text.append(own_word(transition.own))?;
    text.append(b" unless")?;
    append_transitions(alloc, text, transition.blockers.as_slice())?;
    text.append(b"\n")
}

fn append_guards(
    alloc: Global,
    text: &mut Bytes,
    transitions: &[PartTransition],
) -> Result<(), NoMemory>
    ensures { OnOk result (text.new ≡ text.old ++ flat_map spec.guard_line transitions.now) }
{
    for transition in transitions {
        append_guard(alloc, text, transition)?;
    }
    Ok(())
}

fn append_name(text: &mut Bytes, name: &[u8]) -> Result<(), NoMemory>
    ensures { OnOk result (text.new ≡ text.old ++ spec.name_text name.now) }
{
    text.append(b" ")?;
    text.append(name)
}

// Appends the line of the states whose bits are set.
#[tactic(auto, unfolding(crate::specs::SplitText::names_line))]
fn append_states(
    text: &mut Bytes,
    chart: &Chart,
    states: &[KnownState],
    bits: &[bool],
) -> Result<(), NoMemory>
    ensures { OnOk result (text.new ≡ text.old ++ spec.names_line (codes "states") (map (λ k. named.state_name chart.now k.id) (filter (λ k. spec.bit bits.now k.id.0) states.now))) }
{
    text.append(b"states")?;
    for state in states {
        if is_set(bits, state.id.0 as usize) {
            append_name(text, state_name(chart, state.id))?;
        }
    }
    text.append(b"\n")
}

#[tactic(auto, unfolding(crate::specs::SplitText::names_line))]
fn append_vars(text: &mut Bytes, chart: &Chart, vars: &[KnownVariable]) -> Result<(), NoMemory>
    ensures { OnOk result (text.new ≡ text.old ++ spec.names_line (codes "vars") (map (λ k. named.var_name chart.now k.id) vars.now)) }
{
    text.append(b"vars")?;
    for var in vars {
        append_name(text, var_name(chart, var.id))?;
    }
    text.append(b"\n")
}

#[tactic(auto, unfolding(crate::specs::SplitText::names_line))]
fn append_events(text: &mut Bytes, chart: &Chart, events: &[KnownEvent]) -> Result<(), NoMemory>
    ensures { OnOk result (text.new ≡ text.old ++ spec.names_line (codes "events") (map (λ k. named.event_name chart.now k.id) events.now)) }
{
    text.append(b"events")?;
    for event in events {
        append_name(text, event_name(chart, event.id))?;
    }
    text.append(b"\n")
}

#[tactic(auto, unfolding(crate::specs::SplitText::names_line))]
fn append_acts(text: &mut Bytes, chart: &Chart, acts: &[KnownActivity]) -> Result<(), NoMemory>
    ensures { OnOk result (text.new ≡ text.old ++ spec.names_line (codes "acts") (map (λ k. named.act_name chart.now k.id) acts.now)) }
{
    text.append(b"acts")?;
    for act in acts {
        append_name(text, act_name(chart, act.id))?;
    }
    text.append(b"\n")
}

// Appends the line of the states that the unit watches, as the bits tell.
fn append_watched(
    text: &mut Bytes,
    chart: &Chart,
    part: &PartData,
    bits: &[bool],
) -> Result<(), NoMemory>
    requires { spec.AreWatched chart.now part.now bits.now }
    ensures { OnOk result (text.new ≡ text.old ++ spec.names_line (codes "states") (map (λ k. named.state_name chart.now k.id) (filter (λ k. watches_state chart.now part.now.unit.0 k.id.0) part.now.states))) }
{
    append_states(text, chart, part.states.as_slice(), bits)
}

// Appends the lines of what the unit knows, its watched states as the bits tell.
#[tactic(auto, unfolding(crate::specs::SplitText::known_lines))]
fn append_known(
    text: &mut Bytes,
    chart: &Chart,
    part: &PartData,
    bits: &[bool],
) -> Result<(), NoMemory>
    requires { spec.AreWatched chart.now part.now bits.now }
    ensures { OnOk result (text.new ≡ text.old ++ spec.known_lines chart.now part.now) }
{
    append_watched(text, chart, part, bits)?;
    append_vars(text, chart, part.vars.as_slice())?;
    append_events(text, chart, part.events.as_slice())?;
    append_acts(text, chart, part.acts.as_slice())
}

fn append_head(text: &mut Bytes, name: &[u8]) -> Result<(), NoMemory>
    ensures { OnOk result (text.new ≡ text.old ++ codes "unit " ++ name.now ++ codes "\n") }
{
    text.append(b"unit ")?;
    text.append(name)?;
    text.append(b"\n")
}

// Appends the text of a part, whose watched states the bits tell.
#[tactic(auto, unfolding(crate::specs::SplitText::part_text))]
fn append_part(
    alloc: Global,
    text: &mut Bytes,
    chart: &Chart,
    part: &PartData,
    bits: &[bool],
) -> Result<(), NoMemory>
    requires { spec.AreWatched chart.now part.now bits.now }
    ensures { OnOk result (text.new ≡ text.old ++ spec.part_text chart.now part.now) }
{
    append_head(text, part.name.as_bytes())?;
    append_components(alloc, text, chart, part.components.as_slice())?;
    append_guards(alloc, text, part.transitions.as_slice())?;
    append_known(text, chart, part, bits)
}

// Appends the text of a unit's part, by what each unit has of the chart.
fn append_unit(
    alloc: Global,
    text: &mut Bytes,
    chart: &Chart,
    flat: &Flat,
    all: &[UnitBits],
    unit: UnitId,
) -> Result<(), NoMemory>
    requires accepted { IsAccepted chart.now }
    requires flat { flat.now ≡ flat_of chart.now }
    requires within { unit.0 < length chart.now.units }
    requires all { all.now ≡ map (unit_bits chart.now) (range_with_len 0 (length chart.now.units)) }
    ensures { OnOk result (text.new ≡ text.old ++ spec.part_text chart.now (parts.part_of chart.now unit.0)) }
{
    let part = part_from(alloc, chart, flat, all, unit)?;
    append_part(
        alloc,
        text,
        chart,
        &part,
        all[unit.0 as usize].watched.as_slice(),
    )
}

/// The text of the chart's parts, unit by unit. Grows with the units times the chart, and with what is written.
#[tactic(auto, unfolding(crate::specs::SplitText::split_text))]
pub fn split_text(alloc: Global, checked: &Checked, flat: &Flat) -> Result<Bytes, NoMemory>
    requires { flat.now ≡ flat_of checked.now }
    ensures { IfOk result (λ text. text ≡ spec.split_text checked.now) }
{
    let chart = checked.chart();
    let all = all_bits(alloc, checked, flat)?;
    let mut text = List::new(alloc);
    for unit in 0..chart.units.len() {
        append_unit(
            alloc,
            &mut text,
            chart,
            flat,
            all.as_slice(),
            UnitId(unit as u32),
        )?;
    }
    Ok(text)
}
