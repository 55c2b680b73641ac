//! What a command answers.
ghost use Rattle.std.specs.Prelude.{◌≡◌, ◌≤◌, length, IfOk};
ghost use Rattle.wf_model.specs.Limits.{max_input};
ghost use Rattle.wf_machine.specs.Runs.{Outcomes};
ghost use Rattle.wf_refusals.specs.Accepted.{accepted_line};
ghost use Rattle.wf_top.specs.Answers as spec;

use crate::central::central;
use crate::charts::chart_in;
use crate::command::Command;
use crate::play::play;
use crate::split::split;
use std::alloc::Global;
use wf_model::{Bytes, Checked, NoMemory, Status};
use wf_refusals::accepted_line;
use wf_scripts::divide;

/// How a run ends, and what it writes.
#[derive(Drop)]
pub struct Answer {
    pub status: Status,
    pub text: Bytes,
}

impl Answer {
    /// This status, with this text to be written. Takes no memory.
    pub fn new(status: Status, text: Bytes) -> Answer
        ensures { result ≡ spec.answer status text }
    {
        Answer { status, text }
    }
}

fn check_answer(alloc: Global, chart: &Checked) -> Result<Answer, NoMemory>
    ensures { IfOk result (λ a. a ≡ spec.answer Status.Ok (accepted_line chart.now)) }
{
    Ok(Answer::new(Status::Ok, accepted_line(alloc, chart.chart())?))
}

// The answer of a command to an accepted chart and a script.
fn chart_answer(
    alloc: Global,
    command: Command,
    chart: Checked,
    script: &[u8],
) -> Result<Answer, NoMemory>
    requires { length script.now ≤ max_input }
    ensures { IfOk result (λ a. (outcomes : Outcomes) × (a ≡ spec.chart_answer command outcomes script.now (Ok chart))) }
{
    match command {
        Command::Check => check_answer(alloc, &chart),
        Command::Central => central(alloc, &chart, script),
        Command::Split => split(alloc, &chart),
        Command::Play(telling) => play(alloc, telling, chart, script),
    }
}

/// An answer of a command to an input, where the doubts of a play turn out in some way.
#[tactic(auto, unfolding(crate::specs::Answers::answer_within))]
pub fn answer_to(alloc: Global, command: Command, input: &[u8]) -> Result<Answer, NoMemory>
    requires { length input.now ≤ max_input }
    ensures { IfOk result (λ a. (outcomes : Outcomes) × (a ≡ spec.answer_within command outcomes input.now)) }
{
    let parts = divide(input);
    match chart_in(alloc, parts.chart)? {
        Err(text) => Ok(Answer::new(Status::ChartRefused, text)),
        Ok(chart) => chart_answer(alloc, command, chart, parts.script),
    }
}
