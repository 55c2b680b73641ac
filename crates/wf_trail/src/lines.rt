//! The lines of a journal's records.
ghost use Rattle.std.specs.Prelude.{◌≡◌, ◌++◌, ◌+◌, ◌^◌, ◌<◌, length, OnOk};
ghost use Rattle.wf_trail.specs.Lines as spec;

use wf_audit::append_vars;
use wf_model::{Bytes, Chart, NoMemory, Outer, Update};
use wf_steps::{Admission, TurnDone};
use wf_words::{act_name, add_transitions, append_number, event_name};

fn append_outer(text: &mut Bytes, chart: &Chart, outer: &Outer) -> Result<(), NoMemory>
    ensures { OnOk result (text.new ≡ text.old ++ spec.outer_text chart.now outer.now) }
{
    match outer {
        Outer::Happen(event) => {
            text.append(b"event ")?;
            text.append(event_name(chart, *event))
        }
        Outer::Complete { item, act, outputs } => {
            text.append(b"done ")?;
            text.append(act_name(chart, *act))?;
            text.append(b"#")?;
            append_number(text, (*item).into())?;
            append_vars(text, chart, outputs.as_slice())
        }
    }
}

fn append_admission(
    text: &mut Bytes,
    chart: &Chart,
    number: usize,
    admission: &Admission,
) -> Result<(), NoMemory>
    ensures { OnOk result (text.new ≡ text.old ++ spec.admission_line chart.now (number, admission.now)) }
{
    text.append(b"admit ")?;
    append_number(text, number as u64)?;
    text.append(b" request ")?;
    append_number(text, admission.request)?;
    text.append(b" ")?;
    append_outer(text, chart, &admission.outer)?;
    text.append(b"\n")
}

/// Adds the lines of these admissions, which have so many before them.
pub fn append_admissions(
    text: &mut Bytes,
    chart: &Chart,
    before: usize,
    admissions: &[Admission],
) -> Result<(), NoMemory>
    requires { before + length admissions.now < 2 ^ 64 }
    ensures { OnOk result (text.new ≡ text.old ++ spec.admission_lines chart.now (before + 1) admissions.now) }
{
    for (at, admission) in admissions.iter().enumerate() {
        append_admission(text, chart, before + at + 1, admission)?;
    }
    Ok(())
}

/// Adds the line of a Turn, with the unit's own update of its step.
pub fn append_turn(text: &mut Bytes, turn: &TurnDone, own: &Update) -> Result<(), NoMemory>
    ensures { OnOk result (text.new ≡ text.old ++ spec.turn_line turn.now own.now) }
{
    text.append(b"turn ")?;
    append_number(text, turn.step.into())?;
    text.append(b" sealed ")?;
    append_number(text, turn.sealed.into())?;
    text.append(b" fired")?;
    add_transitions(text, own.fired.as_slice())?;
    text.append(b"\n")
}
