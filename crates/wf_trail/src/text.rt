//! The text of a unit's trail.
ghost use Rattle.std.specs.Prelude.{◌≡◌, ◌++◌, ◌≤◌, length, option_map, IfOk, OnOk, IfSome};
ghost use Rattle.std.specs.List.{sum_by};
ghost use Rattle.wf_parts.specs.Parts.{part_of};
ghost use Rattle.wf_trail.specs.TrailText as spec;

use crate::lines::{append_admissions, append_turn};
use std::alloc::Global;
use wf_agreement::own_updates;
use wf_model::{Bytes, Chart, Checked, NoMemory, UnitId, Update};
use wf_steps::{Admission, Replica, TurnDone};
use wf_words::unit_name;

// Adds the lines of these Turns, each with the own update of its step and behind the admissions that it seals, and at last those of the
// admissions that no Turn seals.
fn append_turns(
    text: &mut Bytes,
    chart: &Chart,
    admissions: &[Admission],
    turns: &[TurnDone],
    updates: &[Update],
) -> Result<(), NoMemory>
    requires fits { sum_by (λ turn. turn.sealed) turns.now ≤ length admissions.now }
    requires each { length updates.now ≡ length turns.now }
    ensures { OnOk result (text.new ≡ text.old ++ spec.lines_from chart.now 1 admissions.now turns.now updates.now) }
{
    let mut sealed = 0;
    for (at, turn) in turns.iter().enumerate() {
        let next = sealed + turn.sealed as usize;
        let here = &admissions[sealed..next];
        append_admissions(text, chart, sealed, here)?;
        append_turn(text, turn, &updates[at])?;
        sealed = next;
    }
    let waiting = &admissions[sealed..];
    append_admissions(text, chart, sealed, waiting)
}

// Adds the head and the lines of what a unit kept.
fn append_kept(
    alloc: Global,
    text: &mut Bytes,
    chart: &Chart,
    unit: UnitId,
    replica: &Replica,
) -> Result<(), NoMemory>
    requires { replica.now.part ≡ part_of chart.now unit.0 }
    ensures { OnOk result (text.new ≡ text.old ++ spec.head_line chart.now unit ++ spec.history_text chart.now unit.0 replica.now.past) }
{
    text.append(b"head ")?;
    text.append(chart.name.as_bytes())?;
    text.append(b" ")?;
    text.append(unit_name(chart, unit))?;
    text.append(b"\n")?;
    let history = replica.history();
    let updates = own_updates(alloc, replica.part(), history)?;
    append_turns(
        text,
        chart,
        history.admissions(),
        history.turns(),
        updates.as_slice(),
    )
}

/// The lines of a unit: its name, and what it kept, or that it kept nothing. Linear in the history and in what is written, and for
/// each Turn in the unit's part and its view.
#[tactic(auto, unfolding(crate::specs::TrailText::unit_text))]
pub fn unit_text(
    alloc: Global,
    checked: &Checked,
    unit: UnitId,
    kept: &Option<Replica>,
) -> Result<Bytes, NoMemory>
    requires { IfSome kept.now (λ replica. replica.part ≡ part_of checked.now unit.0) }
    ensures { IfOk result (λ text. text ≡ spec.unit_text checked.now unit.0 (option_map (λ replica. replica.past) kept.now)) }
{
    let chart = checked.chart();
    let mut text = Bytes::new(alloc);
    text.append(b"unit ")?;
    text.append(unit_name(chart, unit))?;
    text.append(b"\n")?;
    match kept {
        None => text.append(b"empty\n")?,
        Some(replica) => append_kept(alloc, &mut text, chart, unit, replica)?,
    }
    Ok(text)
}
