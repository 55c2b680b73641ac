//! The central run of a script.
ghost use Rattle.std.specs.Prelude.{◌≡◌, ◌≤◌, ◌<◌, ◌+◌, length, IfOk, OnOk};
ghost use Rattle.wf_model.specs.Limits.{max_steps, max_lines, max_report};
ghost use Rattle.wf_central.specs.Kept.{central_of, IsOf};
ghost use Rattle.wf_audit.specs.CentralText as spec;
ghost use Rattle.wf_central.specs.Standings.{standing_of, taken_by, IsRun};

use crate::reply::{Reply, reply_line};
use crate::script::CentralLine;
use std::alloc::Global;
use wf_central::{CentralRun, CentralState};
use wf_model::limits::MAX_REPORT;
use wf_model::{Bytes, Checked, List, NoMemory, OuterFault, Output, StateId, VarId};

/// Why a run has no text.
#[derive(Clone, Copy)]
pub enum RunFault {
    /// The text has more than `MAX_REPORT` bytes.
    TooLong,
    /// Memory ran out.
    NoMemory,
}

impl From<NoMemory> for RunFault {
    ghost use Rattle.std.specs.Prelude.{◌≡◌};
    ghost use Rattle.wf_audit.specs.declared.central.RunFault.TheVariants.{NoMemory};

    ghost from_gives = { λ _ e. e ≡ NoMemory };

    fn from(_e: NoMemory) -> RunFault {
        RunFault::NoMemory
    }
}

// The states that are in, ascending.
fn states_in(
    alloc: Global,
    checked: &Checked,
    central: &CentralState,
) -> Result<List<StateId>, NoMemory>
    requires { IsOf checked.now central.now }
    ensures { IfOk result (λ states. states ≡ spec.states_in checked.now (central_of checked.now central.now)) }
{
    let mut states = List::new(alloc);
    for s in 0..checked.chart().states.len() {
        let id = StateId(s as u32);
        if central.is_in(id) {
            states.push(id)?;
        }
    }
    Ok(states)
}

// The variables with their values, in order.
fn vars_of(
    alloc: Global,
    checked: &Checked,
    central: &CentralState,
) -> Result<List<Output>, NoMemory>
    requires { IsOf checked.now central.now }
    ensures { IfOk result (λ vars. vars ≡ spec.vars_of (central_of checked.now central.now)) }
{
    let mut vars = List::new(alloc);
    for x in 0..checked.chart().vars.len() {
        let var = VarId(x as u32);
        let val = central.var(var);
        vars.push(Output { var, val })?;
    }
    Ok(vars)
}

// The sight of a state.
fn sight(alloc: Global, checked: &Checked, central: &CentralState) -> Result<Reply, NoMemory>
    requires { IsOf checked.now central.now }
    ensures { IfOk result (λ reply. reply ≡ spec.sight_of checked.now (central_of checked.now central.now)) }
{
    Ok(Reply::Central {
        taken: central.taken(),
        states: states_in(alloc, checked, central)?,
        vars: vars_of(alloc, checked, central)?,
        raised: List::from_slice(alloc, central.raised())?,
    })
}

fn admission_reply(answer: Result<(), OuterFault>) -> Reply
    ensures { result ≡ spec.answer answer }
{
    match answer {
        Ok(()) => Reply::Ok,
        Err(fault) => Reply::Refused(fault),
    }
}

// The reply to a line, after which the run stands where the line brings it.
#[tactic(auto, unfolding(crate::specs::CentralText::reply_of, crate::specs::CentralText::after_line))]
fn reply_to(
    alloc: Global,
    checked: &Checked,
    run: &mut CentralRun,
    line: &CentralLine,
) -> Result<Reply, NoMemory>
    requires of { IsRun checked.now run.old }
    requires few { taken_by run.old < max_steps }
    ensures reply { IfOk result (λ reply. reply ≡ spec.reply_of checked.now (standing_of checked.now run.old) line.now) }
    ensures standing { OnOk result (standing_of checked.now run.new ≡ spec.after_line checked.now (standing_of checked.now run.old) line.now) }
    ensures of { IsRun checked.now run.new }
    ensures taken { OnOk result (taken_by run.new ≤ taken_by run.old + 1) }
{
    match line {
        CentralLine::Outer { unit, outer } => {
            let answer = run.admit(alloc, checked, *unit, outer)?;
            Ok(admission_reply(answer))
        }
        CentralLine::Step => {
            let notes = run.step(alloc, checked)?;
            Ok(Reply::Stepped {
                step: run.state().taken(),
                notes,
            })
        }
        CentralLine::Show => sight(alloc, checked, run.state()),
    }
}

// The line of the reply to the line with this number.
fn line_of_reply(
    alloc: Global,
    checked: &Checked,
    run: &mut CentralRun,
    number: u32,
    line: &CentralLine,
) -> Result<Bytes, NoMemory>
    requires of { IsRun checked.now run.old }
    requires few { taken_by run.old < max_steps }
    ensures text { IfOk result (λ text. text ≡ spec.reply_line checked.now (standing_of checked.now run.old) number line.now) }
    ensures standing { OnOk result (standing_of checked.now run.new ≡ spec.after_line checked.now (standing_of checked.now run.old) line.now) }
    ensures of { IsRun checked.now run.new }
    ensures taken { OnOk result (taken_by run.new ≤ taken_by run.old + 1) }
{
    let reply = reply_to(alloc, checked, run, line)?;
    reply_line(alloc, checked, number, &reply)
}

// Adds a line to a text, if the text stays short enough.
fn add(text: &mut Bytes, line: &[u8]) -> Result<(), RunFault>
    requires { length text.old ≤ max_report }
    ensures { spec.Adds result text.old text.new line.now }
{
    if line.len() > MAX_REPORT - text.len() {
        return Err(RunFault::TooLong);
    }
    text.append(line)?;
    Ok(())
}

/// The text of the central run of a chart: the line of a reply to each of these lines, with their numbers. `TooLong`
/// where it has more than `MAX_REPORT` bytes, and no more than these are made before that is found. Grows with the
/// lines, each with the states times their depth, the transitions and the work of those that fire, and with the text.
#[tactic(auto, unfolding(crate::specs::CentralText::central_text))]
pub fn run_central(
    alloc: Global,
    checked: &Checked,
    script: &[(u32, CentralLine)],
) -> Result<Bytes, RunFault>
    requires { length script.now ≤ max_lines }
    ensures { spec.GivesText result (spec.central_text checked.now script.now) }
{
    let mut run = CentralRun::start(alloc, checked)?;
    let mut text = List::new(alloc);
    for (number, line) in script {
        let answer = line_of_reply(alloc, checked, &mut run, *number, line)?;
        add(&mut text, answer.as_slice())?;
    }
    Ok(text)
}
