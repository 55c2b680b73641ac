//! That a chart is accepted.
ghost use Rattle.std.specs.Prelude.{◌≡◌, ◌++◌, IfOk, OnOk};
ghost use Rattle.std.specs.Fmt.{decimal};
ghost use Rattle.wf_refusals.specs.Accepted as spec;

use std::alloc::Global;
use wf_model::{Bytes, Chart, List, NoMemory};
use wf_words::append_number;

// Appends a word and a number behind it.
fn append_count(text: &mut Bytes, word: &[u8], count: usize) -> Result<(), NoMemory>
    ensures { OnOk result (text.new ≡ text.old ++ word.now ++ decimal count) }
{
    text.append(word)?;
    append_number(text, count as u64)
}

fn append_declared(text: &mut Bytes, chart: &Chart) -> Result<(), NoMemory>
    ensures { OnOk result (text.new ≡ text.old ++ spec.declared_counts chart.now) }
{
    append_count(text, b" units ", chart.units.len())?;
    append_count(text, b" events ", chart.events.len())?;
    append_count(text, b" vars ", chart.vars.len())?;
    append_count(text, b" activities ", chart.acts.len())
}

fn append_drawn(text: &mut Bytes, chart: &Chart) -> Result<(), NoMemory>
    ensures { OnOk result (text.new ≡ text.old ++ spec.drawn_counts chart.now) }
{
    append_count(text, b" states ", chart.states.len())?;
    append_count(text, b" transitions ", chart.transitions.len())
}

#[tactic(auto, unfolding(crate::specs::Accepted::accepted_line))]
fn append_accepted(text: &mut Bytes, chart: &Chart) -> Result<(), NoMemory>
    ensures { OnOk result (text.new ≡ text.old ++ spec.accepted_line chart.now) }
{
    text.append(b"accepted ")?;
    text.append(chart.name.as_bytes())?;
    append_declared(text, chart)?;
    append_drawn(text, chart)?;
    text.append(b"\n")
}

/// The line of an accepted chart: its name, and how many it has of each kind, `fault` among the events.
pub fn accepted_line(alloc: Global, chart: &Chart) -> Result<Bytes, NoMemory>
    ensures { IfOk result (λ line. line ≡ spec.accepted_line chart.now) }
{
    let mut line = List::new(alloc);
    append_accepted(&mut line, chart)?;
    Ok(line)
}
