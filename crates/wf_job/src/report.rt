//! What came of a job, and its text.
ghost use Rattle.std.specs.Prelude.{◌≡◌, ◌++◌, flat_map, IfOk, OnOk, OnErr};
ghost use Rattle.wf_scripts.specs.Lines.{behind_line};
ghost use Rattle.wf_audit.specs.Replies.{starts_text};
ghost use Rattle.wf_play.specs.Ending.{ending_text};
ghost use Rattle.wf_job.specs.Reports as spec;

use std::alloc::Global;
use wf_machine::Ending;
use wf_model::{ActId, Bytes, Chart, Checked, List, NoMemory};
use wf_play::append_ending;
use wf_scripts::split_line;
use wf_words::{act_name, append_number};

/// What a client is told of a line.
#[derive(Clone, Copy)]
pub enum ClientReply {
    /// It is the admission with this number now.
    New(u64),
    /// It was the admission with this number before.
    Again(u64),
    /// Its request was that of the admission with this number, which is another.
    Reused(u64),
}

/// What came of a job.
#[derive(Drop)]
pub struct Report {
    /// A client, its line, and what it was told, by client and line.
    pub replies: List<(u32, u32, ClientReply)>,
    /// A worker, and the items that it did, by worker.
    pub did: List<(u32, List<(ActId, u32)>)>,
    /// What the units show at the end, and the merged list.
    pub ending: Ending,
}

fn append_answer(text: &mut Bytes, answer: ClientReply) -> Result<(), NoMemory>
    ensures { OnOk result (text.new ≡ text.old ++ spec.answer_text answer) }
{
    match answer {
        ClientReply::New(number) => {
            text.append(b"new ")?;
            append_number(text, number)
        }
        ClientReply::Again(number) => {
            text.append(b"again ")?;
            append_number(text, number)
        }
        ClientReply::Reused(number) => {
            text.append(b"reused ")?;
            append_number(text, number)
        }
    }
}

fn append_reply(
    text: &mut Bytes,
    client: u32,
    line: u32,
    answer: ClientReply,
) -> Result<(), NoMemory>
    ensures { OnOk result (text.new ≡ text.old ++ spec.reply_line (client, line, answer)) }
{
    text.append(b"client ")?;
    append_number(text, client.into())?;
    text.append(b" line ")?;
    append_number(text, line.into())?;
    text.append(b" ")?;
    append_answer(text, answer)?;
    text.append(b"\n")
}

fn append_replies(text: &mut Bytes, replies: &[(u32, u32, ClientReply)]) -> Result<(), NoMemory>
    ensures { OnOk result (text.new ≡ text.old ++ flat_map spec.reply_line replies.now) }
{
    for (client, line, answer) in replies {
        append_reply(text, *client, *line, *answer)?;
    }
    Ok(())
}

fn append_items(text: &mut Bytes, chart: &Chart, items: &[(ActId, u32)]) -> Result<(), NoMemory>
    ensures { OnOk result (text.new ≡ text.old ++ starts_text chart.now items.now) }
{
    for (act, item) in items {
        text.append(b" ")?;
        text.append(act_name(chart, *act))?;
        text.append(b"#")?;
        append_number(text, (*item).into())?;
    }
    Ok(())
}

// The line of a worker.
fn append_worker(
    text: &mut Bytes,
    chart: &Chart,
    worker: u32,
    items: &[(ActId, u32)],
) -> Result<(), NoMemory>
    ensures { OnOk result (text.new ≡ text.old ++ spec.did_line chart.now (worker, items.now)) }
{
    text.append(b"worker ")?;
    append_number(text, worker.into())?;
    text.append(b" did")?;
    append_items(text, chart, items)?;
    text.append(b"\n")
}

fn append_did(
    text: &mut Bytes,
    chart: &Chart,
    did: &[(u32, List<(ActId, u32)>)],
) -> Result<(), NoMemory>
    ensures { OnOk result (text.new ≡ text.old ++ flat_map (spec.did_line chart.now) did.now) }
{
    for (worker, items) in did {
        append_worker(text, chart, *worker, items.as_slice())?;
    }
    Ok(())
}

// The lines of the end, without the first one.
fn append_end(
    alloc: Global,
    text: &mut Bytes,
    checked: &Checked,
    ending: &Ending,
) -> Result<(), NoMemory>
    ensures { OnOk result (text.new ≡ text.old ++ behind_line (ending_text checked.now ending.now)) }
{
    let mut lines = List::new(alloc);
    append_ending(alloc, &mut lines, checked, ending)?;
    let (_end, others) = split_line(lines.as_slice());
    text.append(others)
}

#[tactic(auto, unfolding(crate::specs::Reports::report_text))]
fn report_text(alloc: Global, checked: &Checked, report: &Report) -> Result<Bytes, NoMemory>
    ensures { IfOk result (λ text. text ≡ spec.report_text checked.now report.now) }
{
    let mut text = List::new(alloc);
    append_replies(&mut text, report.replies.as_slice())?;
    append_did(&mut text, checked.chart(), report.did.as_slice())?;
    append_end(alloc, &mut text, checked, &report.ending)?;
    Ok(text)
}

/// Adds the lines of what came of a job: the replies to clients, what the workers did, and the end as a play has it, without
/// its line `end`. A number that the chart hasn't is written as an empty name. Without memory the text stays as it was.
/// Linear in what is written.
pub fn append_report(
    alloc: Global,
    text: &mut Bytes,
    checked: &Checked,
    report: &Report,
) -> Result<(), NoMemory>
    ensures ok { OnOk result (text.new ≡ text.old ++ spec.report_text checked.now report.now) }
    ensures err { OnErr result (text.new ≡ text.old) }
{
    let lines = report_text(alloc, checked, report)?;
    text.append(lines.as_slice())
}
