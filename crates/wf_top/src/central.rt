//! The command `central`.
ghost use Rattle.std.specs.Prelude.{◌≡◌, ◌≤◌, length, IfOk};
ghost use Rattle.wf_audit.specs.CentralText.{central_text};
ghost use Rattle.wf_scripts.specs.Lines.{lines_of};
ghost use Rattle.wf_audit.specs.Script.{script_of};
ghost use Rattle.wf_top.specs.Answers as spec;
ghost use Rattle.wf_model.specs.Limits.{max_input, max_lines};

use crate::answer::Answer;
use std::alloc::Global;
use wf_audit::{CentralLine, RunFault, read_central, run_central};
use wf_model::limits::MAX_LINES;
use wf_model::{Checked, NoMemory, Status};
use wf_refusals::{script_line, too_long_report, too_many_lines};
use wf_scripts::{ScriptFault, line_count};

// The answer of a run of these lines.
fn run(alloc: Global, chart: &Checked, lines: &[(u32, CentralLine)]) -> Result<Answer, NoMemory>
    requires { length lines.now ≤ max_lines }
    ensures { IfOk result (λ a. a ≡ spec.run_answer (central_text chart.now lines.now)) }
{
    match run_central(alloc, chart, lines) {
        Ok(text) => Ok(Answer::new(Status::Ok, text)),
        Err(RunFault::TooLong) => Ok(Answer::new(Status::Limit, too_long_report(alloc)?)),
        Err(RunFault::NoMemory) => Err(NoMemory),
    }
}

// The answer to a script of few enough lines.
fn answer_lines(alloc: Global, chart: &Checked, script: &[u8]) -> Result<Answer, NoMemory>
    requires within { length script.now ≤ max_input }
    requires few { length (lines_of script.now) ≤ max_lines }
    ensures { IfOk result (λ a. a ≡ spec.lines_answer chart.now (script_of chart.now script.now)) }
{
    match read_central(alloc, chart, script) {
        Ok(lines) => run(alloc, chart, lines.as_slice()),
        Err(ScriptFault::Refused { line }) => Ok(Answer::new(
            Status::ScriptRefused,
            script_line(alloc, line)?,
        )),
        Err(ScriptFault::NoMemory) => Err(NoMemory),
    }
}

/// The answer to a script of the central run on this chart: the text of the run; or that there are more than `MAX_LINES`
/// lines, which line is the first outside the grammar, or that the text has more than `MAX_REPORT` bytes, the first of
/// these that holds.
#[tactic(auto, unfolding(crate::specs::Answers::central_answer))]
pub fn central(alloc: Global, chart: &Checked, script: &[u8]) -> Result<Answer, NoMemory>
    requires { length script.now ≤ max_input }
    ensures { IfOk result (λ a. a ≡ spec.central_answer chart.now script.now) }
{
    if line_count(script) <= MAX_LINES {
        answer_lines(alloc, chart, script)
    } else {
        Ok(Answer::new(Status::Limit, too_many_lines(alloc)?))
    }
}
