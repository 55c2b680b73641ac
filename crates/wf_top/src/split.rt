//! The command `split`.
ghost use Rattle.std.specs.Prelude.{◌≡◌, IfOk};
ghost use Rattle.wf_partition.specs.SplitText.{split_text};
ghost use Rattle.wf_top.specs.Answers as spec;

use crate::answer::Answer;
use std::alloc::Global;
use wf_model::limits::MAX_REPORT;
use wf_model::{Checked, NoMemory, Status};
use wf_ortho::orthogonalise;
use wf_partition::split_text;
use wf_refusals::too_long_report;

/// The text of the parts of this chart, unit by unit; or that it has more than `MAX_REPORT` bytes, which is found once
/// it is made. Grows with the units times the chart, and with the text.
pub fn split(alloc: Global, chart: &Checked) -> Result<Answer, NoMemory>
    ensures { IfOk result (λ a. a ≡ spec.run_answer (split_text chart.now)) }
{
    let flat = orthogonalise(alloc, chart)?;
    let text = split_text(alloc, chart, &flat)?;
    if text.len() <= MAX_REPORT {
        Ok(Answer::new(Status::Ok, text))
    } else {
        Ok(Answer::new(Status::Limit, too_long_report(alloc)?))
    }
}
