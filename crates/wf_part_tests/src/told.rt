//! What an update tells, as a line.
use std::alloc::Global;
use std::process::Abort;
use std::test::Fail;
use wf_model::{
    Bytes, Chart, EventId, List, NoMemory, Outer, Output, StartAt, StateId, UnitId, Update, Val,
    Write,
};
use wf_ortho::append_transitions;
use wf_parts::Part;
use wf_updates::relevant;
use wf_words::{act_name, append_number, event_name, state_name, unit_name, var_name};

/// Appends a word behind a blank.
pub fn append_word(text: &mut Bytes, word: &[u8]) -> Result<(), NoMemory> {
    text.append(b" ")?;
    text.append(word)
}

/// Appends a value; a text only as such.
pub fn append_value(text: &mut Bytes, value: &Val) -> Result<(), NoMemory> {
    match value {
        Val::Bool(true) => text.append(b"true"),
        Val::Bool(false) => text.append(b"false"),
        Val::Int(number) => {
            if *number < 0 {
                text.append(b"-")?;
            }
            append_number(text, number.unsigned_abs())
        }
        Val::Text(_) => text.append(b"text"),
    }
}

fn append_outputs(text: &mut Bytes, chart: &Chart, outputs: &[Output]) -> Result<(), NoMemory> {
    for output in outputs {
        append_word(text, var_name(chart, output.var))?;
        text.append(b"=")?;
        append_value(text, &output.val)?;
    }
    Ok(())
}

fn append_write(text: &mut Bytes, chart: &Chart, write: &Write) -> Result<(), NoMemory> {
    append_word(text, var_name(chart, write.var))?;
    text.append(b"=")?;
    append_value(text, &write.val)?;
    text.append(b"@t")?;
    append_number(text, write.trans.0.into())
}

fn append_start(text: &mut Bytes, chart: &Chart, start: &StartAt) -> Result<(), NoMemory> {
    append_word(text, act_name(chart, start.act))?;
    text.append(b"@t")?;
    append_number(text, start.trans.0.into())?;
    text.append(b".")?;
    append_number(text, start.place.into())
}

fn append_outer(text: &mut Bytes, chart: &Chart, outer: &Outer) -> Result<(), NoMemory> {
    match outer {
        Outer::Happen(event) => append_word(text, event_name(chart, *event)),
        Outer::Complete { item, act, outputs } => {
            append_word(text, act_name(chart, *act))?;
            text.append(b"#")?;
            append_number(text, (*item).into())?;
            append_outputs(text, chart, outputs.as_slice())
        }
    }
}

/// Appends the heading of a list that isn't empty.
pub fn append_head<T>(text: &mut Bytes, head: &[u8], items: &[T]) -> Result<(), NoMemory> {
    if items.is_empty() {
        return Ok(());
    }
    append_word(text, head)
}

fn append_flips(text: &mut Bytes, chart: &Chart, flips: &[StateId]) -> Result<(), NoMemory> {
    append_head(text, b"flips", flips)?;
    for state in flips {
        append_word(text, state_name(chart, *state))?;
    }
    Ok(())
}

fn append_writes(text: &mut Bytes, chart: &Chart, writes: &[Write]) -> Result<(), NoMemory> {
    append_head(text, b"writes", writes)?;
    for write in writes {
        append_write(text, chart, write)?;
    }
    Ok(())
}

/// Appends events, if there are any.
pub fn append_raised(text: &mut Bytes, chart: &Chart, raised: &[EventId]) -> Result<(), NoMemory> {
    append_head(text, b"raised", raised)?;
    for event in raised {
        append_word(text, event_name(chart, *event))?;
    }
    Ok(())
}

fn append_starts(text: &mut Bytes, chart: &Chart, starts: &[StartAt]) -> Result<(), NoMemory> {
    append_head(text, b"starts", starts)?;
    for start in starts {
        append_start(text, chart, start)?;
    }
    Ok(())
}

fn append_outers(text: &mut Bytes, chart: &Chart, outers: &[Outer]) -> Result<(), NoMemory> {
    append_head(text, b"outer", outers)?;
    for outer in outers {
        append_outer(text, chart, outer)?;
    }
    Ok(())
}

/// Appends the line of an update: its sender and step, and each of its lists that isn't empty.
pub fn append_update(
    alloc: Global,
    text: &mut Bytes,
    chart: &Chart,
    update: &Update,
) -> Result<(), NoMemory> {
    text.append(unit_name(chart, update.from))?;
    text.append(b" ")?;
    append_number(text, update.step.into())?;
    append_flips(text, chart, update.flips.as_slice())?;
    append_writes(text, chart, update.writes.as_slice())?;
    append_raised(text, chart, update.raised.as_slice())?;
    append_starts(text, chart, update.starts.as_slice())?;
    append_head(text, b"fired", update.fired.as_slice())?;
    append_transitions(alloc, text, update.fired.as_slice())?;
    append_outers(text, chart, update.outer.as_slice())?;
    text.append(b"\n")
}

// Appends what a peer is sent of an update.
fn append_letter(
    alloc: Global,
    text: &mut Bytes,
    chart: &Chart,
    part: &Part,
    update: &Update,
    peer: UnitId,
) -> Result<(), NoMemory> {
    let letter = relevant(alloc, update, part, peer)?;
    append_update(alloc, text, chart, &letter)
}

// Appends what each peer is sent of an update.
fn append_letters(
    alloc: Global,
    text: &mut Bytes,
    chart: &Chart,
    part: &Part,
    update: &Update,
) -> Result<(), NoMemory> {
    for known in part.data().peers.as_slice() {
        text.append(b"> ")?;
        text.append(unit_name(chart, known.unit))?;
        text.append(b": ")?;
        append_letter(alloc, text, chart, part, update, known.unit)?;
    }
    Ok(())
}

// Appends a step: the update of each unit, and what each peer is sent of it.
fn append_step(
    alloc: Global,
    text: &mut Bytes,
    chart: &Chart,
    parts: &[Part],
    updates: &[Update],
) -> Result<(), NoMemory> {
    for (part, update) in parts.iter().zip(updates) {
        append_update(alloc, text, chart, update)?;
        append_letters(alloc, text, chart, part, update)?;
    }
    Ok(())
}

// Appends the lines of all steps.
fn append_steps(
    alloc: Global,
    text: &mut Bytes,
    chart: &Chart,
    parts: &[Part],
    steps: &[List<Update>],
) -> Result<(), NoMemory> {
    for updates in steps {
        append_step(alloc, text, chart, parts, updates.as_slice())?;
    }
    Ok(())
}

// Checks the lines of all steps, in an empty text.
fn check_lines(
    rt: &impl Abort,
    alloc: Global,
    text: &mut Bytes,
    chart: &Chart,
    parts: &[Part],
    steps: &[List<Update>],
    wanted: &str,
) -> Result<(), Fail> {
    append_steps(alloc, text, chart, parts, steps)?;
    assert_eq!(rt; text.as_slice(), wanted.as_bytes(), "lines: {wanted}");
    Ok(())
}

/// Checks the lines of all steps: the update of each unit, and below it what each peer is sent of it.
pub fn check_told(
    rt: &impl Abort,
    alloc: Global,
    chart: &Chart,
    parts: &[Part],
    steps: &[List<Update>],
    wanted: &str,
) -> Result<(), Fail> {
    let mut text = List::new(alloc);
    check_lines(rt, alloc, &mut text, chart, parts, steps, wanted)
}
