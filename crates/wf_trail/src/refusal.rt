//! How a run without a trail ends.
ghost use Rattle.std.specs.Prelude.{◌≡◌, ◌++◌, IfOk, OnOk};
ghost use Rattle.wf_trail.specs.Refusals as spec;

use crate::TrailFault;
use std::alloc::Global;
use wf_model::{Bytes, Chart, Checked, NoMemory, Status, UnitId};
use wf_steps::HeadNames;
use wf_words::{append_number, unit_name};

/// The status with which a run ends that has this fault. Takes no memory.
pub fn status_of(fault: &TrailFault) -> Status
    ensures { result ≡ spec.status_of fault.now }
{
    match fault {
        TrailFault::DiskFailed { .. } => Status::DiskFault,
        TrailFault::Foreign { .. } | TrailFault::Bad { .. } => Status::Journals,
        TrailFault::TooLong => Status::Limit,
        TrailFault::NoMemory => Status::NoMemory,
    }
}

fn append_names(text: &mut Bytes, names: &HeadNames) -> Result<(), NoMemory>
    ensures { OnOk result (text.new ≡ text.old ++ spec.names_text names.now) }
{
    text.append(names.chart.as_bytes())?;
    text.append(b" ")?;
    text.append(names.unit.as_bytes())
}

fn append_foreign(
    text: &mut Bytes,
    chart: &Chart,
    unit: UnitId,
    kept: &HeadNames,
    wanted: &HeadNames,
) -> Result<(), NoMemory>
    ensures { OnOk result (text.new ≡ text.old ++ spec.foreign_text chart.now unit kept.now wanted.now) }
{
    text.append(b"journal ")?;
    text.append(unit_name(chart, unit))?;
    text.append(b" holds ")?;
    append_names(text, kept)?;
    text.append(b" wants ")?;
    append_names(text, wanted)
}

fn append_bad(
    text: &mut Bytes,
    chart: &Chart,
    unit: UnitId,
    at: u64,
    first: u8,
) -> Result<(), NoMemory>
    ensures { OnOk result (text.new ≡ text.old ++ spec.bad_text chart.now unit at first) }
{
    text.append(b"journal ")?;
    text.append(unit_name(chart, unit))?;
    text.append(b" bad at ")?;
    append_number(text, at)?;
    text.append(b" byte ")?;
    append_number(text, first.into())
}

fn append_cause(text: &mut Bytes, chart: &Chart, fault: &TrailFault) -> Result<(), NoMemory>
    ensures { OnOk result (text.new ≡ text.old ++ spec.cause_text chart.now fault.now) }
{
    match fault {
        TrailFault::DiskFailed { unit } => {
            text.append(b"disk ")?;
            text.append(unit_name(chart, *unit))
        }
        TrailFault::Foreign { unit, kept, wanted } => {
            append_foreign(text, chart, *unit, kept, wanted)
        }
        TrailFault::Bad { unit, at, first } => append_bad(text, chart, *unit, *at, *first),
        TrailFault::TooLong => text.append(b"limit report"),
        TrailFault::NoMemory => Err(NoMemory),
    }
}

/// The line that tells of a fault. Where memory ran out there is none. In linear time in what is written.
#[tactic(auto, unfolding(crate::specs::Refusals::fault_line))]
pub fn fault_line(alloc: Global, checked: &Checked, fault: &TrailFault) -> Result<Bytes, NoMemory>
    ensures { IfOk result (λ line. line ≡ spec.fault_line checked.now fault.now) }
{
    let mut line = Bytes::new(alloc);
    line.append(b"refused ")?;
    append_cause(&mut line, checked.chart(), fault)?;
    line.append(b"\n")?;
    Ok(line)
}
