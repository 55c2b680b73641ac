//! The text of replies to the lines of a play.
ghost use Rattle.std.specs.Prelude.{◌≡◌, ◌==◌, ◌++◌, flat_map, IfOk, OnOk, OnErr};
ghost use lib.Chars.{codes};
ghost use Rattle.std.specs.List.{enumerate_from};
ghost use Rattle.std.specs.Fmt.{decimal};
ghost use Rattle.std.specs.Int.{bit_at};
ghost use Rattle.wf_model.specs.Ids.{unit_id};
ghost use Rattle.wf_words.specs.Names.{unit_name};
ghost use Rattle.wf_audit.specs.Replies.{numbered};
ghost use Rattle.wf_play.specs.Replies as spec;

use std::alloc::Global;
use wf_audit::{append_fault, append_shown};
use wf_machine::{Reply, Sight, TurnReply};
use wf_model::{ActId, Bytes, Chart, Checked, List, NoMemory, UnitSet};
use wf_words::{act_name, append_number};

fn append_counted(text: &mut Bytes, words: &[u8], number: u64) -> Result<(), NoMemory>
    ensures { OnOk result (text.new ≡ text.old ++ words.now ++ decimal number) }
{
    text.append(words)?;
    append_number(text, number)
}

pub(crate) fn append_sight(
    alloc: Global,
    text: &mut Bytes,
    chart: &Chart,
    sight: &Sight,
) -> Result<(), NoMemory>
    ensures { OnOk result (text.new ≡ text.old ++ spec.sight_text chart.now sight.now) }
{
    append_shown(
        alloc,
        text,
        chart,
        sight.taken,
        sight.states.as_slice(),
        sight.vars.as_slice(),
    )
}

#[tactic(auto, unfolding(crate::specs::Replies::taken_text))]
fn append_taken(text: &mut Bytes, taken: u32) -> Result<(), NoMemory>
    ensures { OnOk result (text.new ≡ text.old ++ spec.taken_text taken) }
{
    append_counted(text, b" taken ", taken.into())
}

#[tactic(auto, unfolding(crate::specs::Replies::admitted_text))]
pub(crate) fn append_admitted(text: &mut Bytes, admitted: u64) -> Result<(), NoMemory>
    ensures { OnOk result (text.new ≡ text.old ++ spec.admitted_text admitted) }
{
    append_counted(text, b" admitted ", admitted)
}

pub(crate) fn append_recovered(text: &mut Bytes, taken: u32, admitted: u64) -> Result<(), NoMemory>
    ensures { OnOk result (text.new ≡ text.old ++ spec.recovered_text taken admitted) }
{
    text.append(b"recovered")?;
    append_taken(text, taken)?;
    append_admitted(text, admitted)
}

fn append_second(text: &mut Bytes, second: Option<u32>) -> Result<(), NoMemory>
    ensures { OnOk result (text.new ≡ text.old ++ spec.second_text second) }
{
    match second {
        Some(message) => append_counted(text, b" ", message.into()),
        None => Ok(()),
    }
}

fn append_sent(text: &mut Bytes, first: u32, second: Option<u32>) -> Result<(), NoMemory>
    ensures { OnOk result (text.new ≡ text.old ++ spec.sent_text first second) }
{
    append_counted(text, b"sent ", first.into())?;
    append_second(text, second)
}

fn append_item(
    text: &mut Bytes,
    chart: &Chart,
    act: ActId,
    item: u32,
    is_done: bool,
) -> Result<(), NoMemory>
    ensures { OnOk result (text.new ≡ text.old ++ spec.item_text chart.now (act, item, is_done)) }
{
    text.append(act_name(chart, act))?;
    append_counted(text, b"#", item.into())?;
    if is_done {
        text.append(b"=done")
    } else {
        text.append(b"=open")
    }
}

fn append_items(
    text: &mut Bytes,
    chart: &Chart,
    items: &[(ActId, u32, bool)],
) -> Result<(), NoMemory>
    ensures { OnOk result (text.new ≡ text.old ++ spec.items_text chart.now items.now) }
{
    text.append(b"items")?;
    for (act, item, is_done) in items {
        text.append(b" ")?;
        append_item(text, chart, *act, *item, *is_done)?;
    }
    Ok(())
}

fn has_bit(bits: u8, at: usize) -> bool
    ensures { result ≡ (bit_at bits at == 1) }
{
    at < 8 && bits >> at & 1 == 1
}

fn append_name_in(text: &mut Bytes, set: UnitSet, unit: usize, name: &[u8]) -> Result<(), NoMemory>
    ensures { OnOk result (text.new ≡ text.old ++ spec.name_in set (unit, name.now)) }
{
    if has_bit(set.0, unit) {
        text.append(b" ")?;
        text.append(name)
    } else {
        Ok(())
    }
}

fn append_waiting(text: &mut Bytes, chart: &Chart, set: UnitSet) -> Result<(), NoMemory>
    ensures { OnOk result (text.new ≡ text.old ++ spec.waiting_text chart.now set) }
{
    text.append(b"waiting")?;
    for (unit, name) in chart.units.as_slice().iter().enumerate() {
        append_name_in(text, set, unit, name.as_bytes())?;
    }
    Ok(())
}

fn append_turn(text: &mut Bytes, chart: &Chart, turn: TurnReply) -> Result<(), NoMemory>
    ensures { OnOk result (text.new ≡ text.old ++ spec.turn_text chart.now turn) }
{
    match turn {
        TurnReply::Took(step) => append_counted(text, b"took ", step.into()),
        TurnReply::Waiting(set) => append_waiting(text, chart, set),
        TurnReply::DiskFault => text.append(b"diskfault"),
        TurnReply::Reopen => text.append(b"reopen"),
        TurnReply::Crashed => text.append(b"crashed"),
        TurnReply::Down => text.append(b"down"),
    }
}

// The name of the unit at this place, empty where the chart has none there.
fn name_at(chart: &Chart, unit: usize) -> &[u8]
    ensures { result.now ≡ unit_name chart.now (unit_id unit) }
{
    match chart.units.get(unit) {
        Some(name) => name.as_bytes(),
        None => &[],
    }
}

fn append_unit_turn(
    text: &mut Bytes,
    chart: &Chart,
    unit: usize,
    turn: TurnReply,
) -> Result<(), NoMemory>
    ensures { OnOk result (text.new ≡ text.old ++ spec.unit_turn_text chart.now (unit, turn)) }
{
    text.append(name_at(chart, unit))?;
    text.append(b" ")?;
    append_turn(text, chart, turn)
}

// The turns of all units but the first, each behind a comma.
fn append_other_turns(text: &mut Bytes, chart: &Chart, turns: &[TurnReply]) -> Result<(), NoMemory>
    ensures { OnOk result (text.new ≡ text.old ++ flat_map (λ turn. codes ", " ++ spec.unit_turn_text chart.now turn) (enumerate_from 1 turns.now)) }
{
    for (at, turn) in turns.iter().enumerate() {
        text.append(b", ")?;
        append_unit_turn(text, chart, at + 1, *turn)?;
    }
    Ok(())
}

fn append_round(text: &mut Bytes, chart: &Chart, turns: &[TurnReply]) -> Result<(), NoMemory>
    ensures { OnOk result (text.new ≡ text.old ++ spec.round_text chart.now turns.now) }
{
    text.append(b"round ")?;
    match turns {
        [] => Ok(()),
        [first, others @ ..] => {
            append_unit_turn(text, chart, 0, *first)?;
            append_other_turns(text, chart, others)
        }
    }
}

#[tactic(auto, unfolding(crate::specs::Replies::reply_text))]
fn append_text(
    alloc: Global,
    text: &mut Bytes,
    chart: &Chart,
    reply: &Reply,
) -> Result<(), NoMemory>
    ensures { OnOk result (text.new ≡ text.old ++ spec.reply_text chart.now reply.now) }
{
    match reply {
        Reply::Refused(fault) => append_fault(text, *fault),
        Reply::New(number) => append_counted(text, b"new ", *number),
        Reply::Again(number) => append_counted(text, b"again ", *number),
        Reply::Reused(number) => append_counted(text, b"reused ", *number),
        Reply::DiskFault => text.append(b"diskfault"),
        Reply::Reopen => text.append(b"reopen"),
        Reply::Crashed => text.append(b"crashed"),
        Reply::Down => text.append(b"down"),
        Reply::Turned(turn) => append_turn(text, chart, *turn),
        Reply::Sent { first, second } => append_sent(text, *first, *second),
        Reply::NoMessage => text.append(b"no message"),
        Reply::Fresh => text.append(b"fresh"),
        Reply::Same => text.append(b"same"),
        Reply::Old => text.append(b"old"),
        Reply::Armed => text.append(b"armed"),
        Reply::Recovered { taken, admitted } => append_recovered(text, *taken, *admitted),
        Reply::Items(items) => append_items(text, chart, items.as_slice()),
        Reply::Shown(sight) => append_sight(alloc, text, chart, sight),
        Reply::Round(turns) => append_round(text, chart, turns.as_slice()),
    }
}

// The line of the reply to the line with this number.
#[tactic(auto, unfolding(wf_audit::specs::Replies::numbered))]
fn reply_line(alloc: Global, chart: &Chart, number: u32, reply: &Reply) -> Result<Bytes, NoMemory>
    ensures { IfOk result (λ text. text ≡ numbered number (spec.reply_text chart.now reply.now)) }
{
    let mut text = List::new(alloc);
    append_number(&mut text, number.into())?;
    text.append(b": ")?;
    append_text(alloc, &mut text, chart, reply)?;
    text.push(b'\n')?;
    Ok(text)
}

/// Adds the line of the reply to the play's line with this number. A number that the chart hasn't is written as an empty
/// name. Without memory the text stays as it was. Linear in what is written.
pub fn append_reply(
    alloc: Global,
    text: &mut Bytes,
    checked: &Checked,
    number: u32,
    reply: &Reply,
) -> Result<(), NoMemory>
    ensures ok { OnOk result (text.new ≡ text.old ++ numbered number (spec.reply_text checked.now reply.now)) }
    ensures err { OnErr result (text.new ≡ text.old) }
{
    let line = reply_line(alloc, checked.chart(), number, reply)?;
    text.append(line.as_slice())
}
