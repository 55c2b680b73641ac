//! The chart of an input.
ghost use Rattle.std.specs.Prelude.{◌≡◌, ◌≤◌, length, IfOk};
ghost use Rattle.wf_model.specs.Limits.{max_input};
ghost use Rattle.wf_check.specs.FirstFault.{first_fault};
ghost use Rattle.wf_top.specs.Answers as spec;

use std::alloc::Global;
use wf_check::judge;
use wf_model::{Bytes, Chart, Checked, NoMemory};
use wf_refusals::{check_fault_line, text_fault_line};
use wf_text::{ChartFault, read_chart};

// The chart, sealed, or the line of its first fault.
#[tactic(auto, unfolding(wf_check::specs::Judged::judged_of))]
fn chart_by(alloc: Global, chart: Chart) -> Result<Result<Checked, Bytes>, NoMemory>
    ensures { IfOk result (λ found. found ≡ spec.chart_by chart (first_fault chart)) }
{
    match judge(alloc, chart)? {
        Ok(checked) => Ok(Ok(checked)),
        Err((chart, fault)) => Ok(Err(check_fault_line(alloc, &chart, fault)?)),
    }
}

/// The accepted chart that the text means, or the line of its first fault. Grows with the text, and with the states
/// times their depth.
#[tactic(auto, unfolding(crate::specs::Answers::chart_in))]
pub fn chart_in(alloc: Global, text: &[u8]) -> Result<Result<Checked, Bytes>, NoMemory>
    requires { length text.now ≤ max_input }
    ensures { IfOk result (λ found. found ≡ spec.chart_in text.now) }
{
    match read_chart(alloc, text) {
        Ok(chart) => chart_by(alloc, chart),
        Err(ChartFault::NoMemory) => Err(NoMemory),
        Err(fault) => Ok(Err(text_fault_line(alloc, fault)?)),
    }
}
