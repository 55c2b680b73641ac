//! The text of a play's ending.
ghost use Rattle.std.specs.Prelude.{◌≡◌, ◌++◌, flat_map, IfOk, OnOk, OnErr};
ghost use Rattle.std.specs.List.{enumerate_from};
ghost use Rattle.wf_play.specs.Ending as spec;

use crate::reply::{append_admitted, append_recovered, append_sight};
use std::alloc::Global;
use wf_machine::{Ending, Place, Sight};
use wf_model::{Bytes, Chart, Checked, List, NoMemory, UnitId};
use wf_words::{append_number, unit_name};

// The line of a unit that was recovered.
fn append_recovery(
    text: &mut Bytes,
    chart: &Chart,
    unit: UnitId,
    taken: u32,
    admitted: u64,
) -> Result<(), NoMemory>
    ensures { OnOk result (text.new ≡ text.old ++ spec.recovery_line chart.now (unit, taken, admitted)) }
{
    text.append(unit_name(chart, unit))?;
    text.append(b" ")?;
    append_recovered(text, taken, admitted)?;
    text.append(b"\n")
}

fn append_recoveries(
    text: &mut Bytes,
    chart: &Chart,
    recovered: &[(UnitId, u32, u64)],
) -> Result<(), NoMemory>
    ensures { OnOk result (text.new ≡ text.old ++ flat_map (spec.recovery_line chart.now) recovered.now) }
{
    for (unit, taken, admitted) in recovered {
        append_recovery(text, chart, *unit, *taken, *admitted)?;
    }
    Ok(())
}

// The line of what a unit shows.
fn append_unit(
    alloc: Global,
    text: &mut Bytes,
    chart: &Chart,
    sight: &Sight,
) -> Result<(), NoMemory>
    ensures { OnOk result (text.new ≡ text.old ++ spec.unit_line chart.now sight.now) }
{
    text.append(unit_name(chart, sight.unit))?;
    append_admitted(text, sight.admitted)?;
    text.append(b" ")?;
    append_sight(alloc, text, chart, sight)?;
    text.append(b"\n")
}

fn append_units(
    alloc: Global,
    text: &mut Bytes,
    chart: &Chart,
    sights: &[Sight],
) -> Result<(), NoMemory>
    ensures { OnOk result (text.new ≡ text.old ++ flat_map (spec.unit_line chart.now) sights.now) }
{
    for sight in sights {
        append_unit(alloc, text, chart, sight)?;
    }
    Ok(())
}

fn append_place(text: &mut Bytes, chart: &Chart, place: Place) -> Result<(), NoMemory>
    ensures { OnOk result (text.new ≡ text.old ++ spec.place_text chart.now place) }
{
    text.append(b" ")?;
    text.append(unit_name(chart, place.unit))?;
    text.append(b":")?;
    append_number(text, place.number)
}

fn append_places(text: &mut Bytes, chart: &Chart, places: &[Place]) -> Result<(), NoMemory>
    ensures { OnOk result (text.new ≡ text.old ++ flat_map (spec.place_text chart.now) places.now) }
{
    for place in places {
        append_place(text, chart, *place)?;
    }
    Ok(())
}

// The line of a step, if it has an admission.
fn append_step(
    text: &mut Bytes,
    chart: &Chart,
    step: usize,
    places: &[Place],
) -> Result<(), NoMemory>
    ensures { OnOk result (text.new ≡ text.old ++ spec.step_line chart.now (step, places.now)) }
{
    match places {
        [] => Ok(()),
        [_, ..] => {
            text.append(b"step ")?;
            append_number(text, step as u64)?;
            append_places(text, chart, places)?;
            text.append(b"\n")
        }
    }
}

fn append_steps(text: &mut Bytes, chart: &Chart, merged: &[List<Place>]) -> Result<(), NoMemory>
    ensures { OnOk result (text.new ≡ text.old ++ flat_map (spec.step_line chart.now) (enumerate_from 1 merged.now)) }
{
    for (at, places) in merged.iter().enumerate() {
        append_step(text, chart, at + 1, places.as_slice())?;
    }
    Ok(())
}

#[tactic(auto, unfolding(crate::specs::Ending::ending_text))]
fn ending_text(alloc: Global, chart: &Chart, ending: &Ending) -> Result<Bytes, NoMemory>
    ensures { IfOk result (λ text. text ≡ spec.ending_text chart.now ending.now) }
{
    let mut text = List::new(alloc);
    text.append(b"end\n")?;
    append_recoveries(&mut text, chart, ending.recovered.as_slice())?;
    append_units(alloc, &mut text, chart, ending.sights.as_slice())?;
    append_steps(&mut text, chart, ending.merged.as_slice())?;
    Ok(text)
}

/// Adds the lines behind a play's last reply: `end`, those of units that were recovered, those of all units, and those of
/// steps from 1 on that have an admission. A number that the chart hasn't is written as an empty name. Without memory the
/// text stays as it was. Linear in what is written.
pub fn append_ending(
    alloc: Global,
    text: &mut Bytes,
    checked: &Checked,
    ending: &Ending,
) -> Result<(), NoMemory>
    ensures ok { OnOk result (text.new ≡ text.old ++ spec.ending_text checked.now ending.now) }
    ensures err { OnErr result (text.new ≡ text.old) }
{
    let lines = ending_text(alloc, checked.chart(), ending)?;
    text.append(lines.as_slice())
}
