//! The command `play`.
ghost use Rattle.std.specs.Prelude.{◌≡◌, ◌≤◌, false, length, map, flat_map, IfOk};
ghost use Rattle.wf_audit.specs.CentralText.{Adds, GivesText};
ghost use Rattle.wf_machine.specs.Machine.{merged_places};
ghost use Rattle.wf_machine.specs.Runs.{Outcomes};
ghost use Rattle.wf_model.specs.Limits.{max_input, max_lines, max_report};
ghost use Rattle.wf_play.specs.Script.{play_of};
ghost use Rattle.wf_scripts.specs.Lines.{lines_of};
ghost use Rattle.wf_world.specs.States.{DoFit, first_state, state_of};
ghost use Rattle.wf_top.specs.Answers as spec;
ghost use Rattle.wf_top.specs.Plays.{reply_line, told_text};
ghost use Rattle.wf_top.specs.Telling.{told_by};

use crate::answer::Answer;
use crate::command::Telling;
use crate::summary::summary_line;
use std::alloc::Global;
use wf_audit::RunFault;
use wf_drive::{DriveFault, Driven, drive};
use wf_machine::{Ending, Line, Reply};
use wf_model::limits::{MAX_LINES, MAX_REPORT};
use wf_model::{Bytes, Checked, List, NoMemory, Status};
use wf_play::{append_ending, append_reply, read_play};
use wf_refusals::{script_line, too_long_report, too_many_lines};
use wf_scripts::{ScriptFault, line_count};
use wf_world::{ActFault, World};

// Adds the line of a reply to a text, if the text stays short enough.
fn add_reply(
    alloc: Global,
    text: &mut Bytes,
    checked: &Checked,
    number: u32,
    reply: &Reply,
) -> Result<(), RunFault>
    ensures { Adds result text.old text.new (reply_line checked.now (number, reply.now)) }
{
    append_reply(alloc, text, checked, number, reply)?;
    if text.len() > MAX_REPORT {
        return Err(RunFault::TooLong);
    }
    Ok(())
}

// The lines of these replies.
fn lines_of_replies(
    alloc: Global,
    checked: &Checked,
    replies: &[(u32, Reply)],
) -> Result<Bytes, RunFault>
    ensures { GivesText result (flat_map (reply_line checked.now) replies.now) }
{
    let mut text = List::new(alloc);
    for (number, reply) in replies {
        add_reply(alloc, &mut text, checked, *number, reply)?;
    }
    Ok(text)
}

// The text of what came of a play.
fn text_of(
    alloc: Global,
    checked: &Checked,
    replies: &[(u32, Reply)],
    ending: &Ending,
) -> Result<Bytes, RunFault>
    ensures { GivesText result (told_text checked.now replies.now ending.now) }
{
    let mut text = lines_of_replies(alloc, checked, replies)?;
    append_ending(alloc, &mut text, checked, ending)?;
    if text.len() > MAX_REPORT {
        return Err(RunFault::TooLong);
    }
    Ok(text)
}

// The answer that tells what came of a play.
fn report(
    alloc: Global,
    checked: &Checked,
    replies: &[(u32, Reply)],
    ending: &Ending,
) -> Result<Answer, NoMemory>
    ensures { IfOk result (λ a. a ≡ spec.run_answer (told_text checked.now replies.now ending.now)) }
{
    match text_of(alloc, checked, replies, ending) {
        Ok(text) => Ok(Answer::new(Status::Ok, text)),
        Err(RunFault::TooLong) => Ok(Answer::new(Status::Limit, too_long_report(alloc)?)),
        Err(RunFault::NoMemory) => Err(NoMemory),
    }
}

// The answer that tells of a play what is to be told, where this is the world after it.
fn tell(
    alloc: Global,
    telling: Telling,
    world: &World,
    replies: &[(u32, Reply)],
    ending: &Ending,
) -> Result<Answer, NoMemory>
    requires list { ending.now.merged ≡ merged_places (state_of world.now).machine }
    requires whole { world.now.lost ≡ false }
    ensures { let after = state_of world.now in
        IfOk result (λ a. a ≡ told_by telling after.chart replies.now ending.now after.machine) }
{
    match telling {
        Telling::Whole => report(alloc, world.checked(), replies, ending),
        Telling::Summary(number) => {
            let line = summary_line(alloc, number, world, ending.merged.as_slice())?;
            Ok(Answer::new(Status::Ok, line))
        }
    }
}

// The answer of a run of these lines on new servers.
fn run(
    alloc: Global,
    telling: Telling,
    checked: Checked,
    lines: &List<(u32, Line)>,
) -> Result<Answer, NoMemory>
    requires { DoFit (first_state checked) (map (λ x. x.1) lines.now) }
    ensures { IfOk result (λ a. (outcomes : Outcomes) × (a ≡ spec.run_of_play telling checked outcomes lines.now)) }
{
    let mut world = World::start(alloc, checked)?;
    match drive(alloc, &mut world, lines) {
        Ok(driven) => tell(
            alloc,
            telling,
            &world,
            driven.replies.as_slice(),
            &driven.ending,
        ),
        Err(DriveFault::Servers(ActFault::SentLimit)) => Ok(Answer::new(
            Status::Limit,
            List::from_slice(alloc, b"refused limit sent\n")?,
        )),
        Err(DriveFault::Servers(ActFault::NoMemory) | DriveFault::NoMemory) => Err(NoMemory),
    }
}

// The answer to a script of few enough lines.
fn answer_lines(
    alloc: Global,
    telling: Telling,
    checked: Checked,
    script: &[u8],
) -> Result<Answer, NoMemory>
    requires within { length script.now ≤ max_input }
    requires few { length (lines_of script.now) ≤ max_lines }
    ensures { let lines = play_of checked script.now in
        IfOk result (λ a. (outcomes : Outcomes) × (a ≡ spec.play_lines_answer telling checked outcomes lines)) }
{
    match read_play(alloc, &checked, script) {
        Ok(lines) => run(alloc, telling, checked, &lines),
        Err(ScriptFault::Refused { line }) => Ok(Answer::new(
            Status::ScriptRefused,
            script_line(alloc, line)?,
        )),
        Err(ScriptFault::NoMemory) => Err(NoMemory),
    }
}

/// The answer to a script of a play on the servers of this chart: what is to be told of the play, where its doubts turn out
/// in some way; or that there are more than `MAX_LINES` lines, which line is the first outside the grammar, that the messages
/// come to more than `MAX_SENT` bytes, or that the text has more than `MAX_REPORT` bytes, the first of these that holds.
#[tactic(auto, unfolding(crate::specs::Answers::play_answer))]
pub fn play(
    alloc: Global,
    telling: Telling,
    checked: Checked,
    script: &[u8],
) -> Result<Answer, NoMemory>
    requires { length script.now ≤ max_input }
    ensures { IfOk result (λ a. (outcomes : Outcomes) × (a ≡ spec.play_answer telling checked outcomes script.now)) }
{
    if line_count(script) <= MAX_LINES {
        answer_lines(alloc, telling, checked, script)
    } else {
        Ok(Answer::new(Status::Limit, too_many_lines(alloc)?))
    }
}
