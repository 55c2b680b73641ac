//! The command `trail`.
ghost use Rattle.std.specs.Prelude.{◌≡◌, ◌≢◌, ◌≤◌, Err, length, IfOk, OnOk};
ghost use Rattle.wf_model.specs.Limits.{max_input};
ghost use Rattle.wf_trail.specs.Shelves.{KeepsDisks, KeepsBodies};
ghost use Rattle.wf_top.specs.Tasks.{HasStatus};
ghost use Rattle.wf_top.specs.Trails as spec;
ghost use Rattle.wf_top.specs.declared.command.Task.TheVariants.{Trail};

use crate::answer::Answer;
use crate::charts::chart_in;
use std::alloc::Global;
use wf_disk::DiskShelf;
use wf_model::{Bytes, Checked, NoMemory, Status};
use wf_scripts::divide;
use wf_trail::{TrailFault, fault_line, status_of, trail};

// The answer that tells what was found.
fn answer_by(
    alloc: Global,
    checked: &Checked,
    found: Result<Bytes, TrailFault>,
) -> Result<Answer, NoMemory>
    ensures answer { IfOk result (λ a. spec.trail_answer checked.now found ≡ a) }
    ensures found { OnOk result (found ≢ Err TrailFault.NoMemory) }
{
    match found {
        Ok(text) => Ok(Answer::new(Status::Ok, text)),
        Err(TrailFault::NoMemory) => Err(NoMemory),
        Err(fault) => {
            let line = fault_line(alloc, checked, &fault)?;
            Ok(Answer::new(status_of(&fault), line))
        }
    }
}

// What the journals of this chart's units hold, or what is wrong with them.
fn trail_chart<H: DiskShelf>(
    alloc: Global,
    checked: &Checked,
    shelf: &mut H,
) -> Result<Answer, NoMemory>
    ensures answer { IfOk result (λ a. spec.MayTrailChart (H.told shelf.old) (Ok checked.now) a) }
    ensures status { IfOk result (λ a. HasStatus Trail a.status (H.told shelf.old).faults (H.told shelf.new).faults) }
    ensures disks { KeepsDisks (H.told shelf.old) (H.told shelf.new) }
    ensures bodies { KeepsBodies (H.told shelf.old) (H.told shelf.new) }
{
    let found = trail(alloc, checked, shelf);
    answer_by(alloc, checked, found)
}

/// What the journals of the units of the input's chart hold, a line for each record; or that the text has more than
/// `MAX_REPORT` bytes, whose journal is the first that is wrong, or that a disk failed. Each disk has the image that it had, and
/// a crash leaves of it the bodies of what a crash before may have left.
/// Grows with the chart, with the journals, each turn of which takes its unit's part and view, and with the text.
pub fn trail_answer<H: DiskShelf>(
    alloc: Global,
    input: &[u8],
    shelf: &mut H,
) -> Result<Answer, NoMemory>
    requires { length input.now ≤ max_input }
    ensures answer { IfOk result (λ a. spec.MayTrailWithin (H.told shelf.old) input.now a) }
    ensures status { IfOk result (λ a. HasStatus Trail a.status (H.told shelf.old).faults (H.told shelf.new).faults) }
    ensures disks { KeepsDisks (H.told shelf.old) (H.told shelf.new) }
    ensures bodies { KeepsBodies (H.told shelf.old) (H.told shelf.new) }
{
    let parts = divide(input);
    match chart_in(alloc, parts.chart)? {
        Err(text) => Ok(Answer::new(Status::ChartRefused, text)),
        Ok(chart) => trail_chart(alloc, &chart, shelf),
    }
}
