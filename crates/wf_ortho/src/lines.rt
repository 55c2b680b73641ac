//! The lines of components.
ghost use Rattle.std.specs.Prelude.{◌≡◌, ◌++◌, ◌<◌, length, IfOk, OnOk, OnErr};
ghost use Rattle.wf_parts.specs.Components.{flat_of, component_of};
ghost use Rattle.wf_words.specs.Transitions.{trans_list};
ghost use Rattle.wf_ortho.specs.Lines.{first_word, component_head, enter_words, leave_words, component_line};

use std::alloc::Global;
use wf_model::{Bytes, Chart, Checked, List, NoMemory, StateId, TransId};
use wf_parts::{Component, Flat};
use wf_words::{add_transitions, state_name};

/// Appends transitions, each behind a blank. After `NoMemory` the text is as before. Grows with them.
pub fn append_transitions(
    alloc: Global,
    text: &mut Bytes,
    transitions: &[TransId],
) -> Result<(), NoMemory>
    ensures ok { OnOk result (text.new ≡ text.old ++ trans_list transitions.now) }
    ensures err { OnErr result (text.new ≡ text.old) }
{
    let mut list = List::new(alloc);
    add_transitions(&mut list, transitions)?;
    text.append(list.as_slice())
}

fn first_word(first: bool) -> &'static [u8]
    ensures { result.now ≡ first_word first }
{
    if first { b" in" } else { b" out" }
}

fn add_head(line: &mut Bytes, chart: &Chart, component: &Component) -> Result<(), NoMemory>
    ensures { OnOk result (line.new ≡ line.old ++ component_head chart.now component.now) }
{
    line.append(b"component ")?;
    line.append(state_name(chart, component.state))?;
    line.append(first_word(component.first))
}

fn add_enter(line: &mut Bytes, component: &Component) -> Result<(), NoMemory>
    ensures { OnOk result (line.new ≡ line.old ++ enter_words component.now) }
{
    line.append(b" enter")?;
    add_transitions(line, component.enter.as_slice())
}

fn add_leave(line: &mut Bytes, component: &Component) -> Result<(), NoMemory>
    ensures { OnOk result (line.new ≡ line.old ++ leave_words component.now) }
{
    line.append(b" leave")?;
    add_transitions(line, component.leave.as_slice())
}

// Adds the line of a component.
#[tactic(auto, unfolding(crate::specs::Lines::component_line))]
fn add_component(line: &mut Bytes, chart: &Chart, component: &Component) -> Result<(), NoMemory>
    ensures { OnOk result (line.new ≡ line.old ++ component_line chart.now component.now) }
{
    add_head(line, chart, component)?;
    add_enter(line, component)?;
    add_leave(line, component)?;
    line.append(b"\n")
}

/// Appends the line of a component. After `NoMemory` the text is as before. Grows with the component's transitions.
pub fn append_component(
    alloc: Global,
    text: &mut Bytes,
    chart: &Chart,
    component: &Component,
) -> Result<(), NoMemory>
    ensures ok { OnOk result (text.new ≡ text.old ++ component_line chart.now component.now) }
    ensures err { OnErr result (text.new ≡ text.old) }
{
    let mut line = List::new(alloc);
    add_component(&mut line, chart, component)?;
    text.append(line.as_slice())
}

/// The line of the component of a state of the chart, which was cut into these components. Grows with the component's transitions.
pub fn guard_text(
    alloc: Global,
    checked: &Checked,
    flat: &Flat,
    s: StateId,
) -> Result<Bytes, NoMemory>
    requires flat { flat.now ≡ flat_of checked.now }
    requires within { s.0 < length checked.now.states }
    ensures { IfOk result (λ text. text ≡ component_line checked.now (component_of checked.now s.0)) }
{
    let component = &flat.components.as_slice()[s.0 as usize];
    let mut text = List::new(alloc);
    add_component(&mut text, checked.chart(), component)?;
    Ok(text)
}
