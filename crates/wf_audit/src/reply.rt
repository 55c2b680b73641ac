//! Replies, and their text.
ghost use Rattle.std.specs.Prelude.{◌≡◌, ◌++◌, IfOk, OnErr, OnOk};
ghost use Rattle.std.specs.Fmt.{signed_decimal};
ghost use Rattle.wf_audit.specs.Replies as spec;

use itoa::Buffer;
use std::alloc::Global;
use wf_model::{
    ActId, Bytes, Chart, Checked, EventId, List, NoMemory, OuterFault, Output, StateId, StepNotes,
    Val,
};
use wf_words::{act_name, add_transitions, append_number, event_name, state_name, var_name};

/// The reply to a line of a script.
#[derive(Drop)]
pub enum Reply {
    /// The outer was admitted.
    Ok,
    /// The outer was refused.
    Refused(OuterFault),
    /// The step with this number was taken.
    Stepped {
        step: u32,
        notes: StepNotes,
    },
    /// The sight of the central run: how many steps were taken, the states that are in, the variables with their
    /// values, the events raised in the last step.
    Central {
        taken: u32,
        states: List<StateId>,
        vars: List<Output>,
        raised: List<EventId>,
    },
}

fn append_int(text: &mut Bytes, number: i64) -> Result<(), NoMemory>
    ensures { OnOk result (text.new ≡ text.old ++ signed_decimal number) }
{
    let mut digits = Buffer::new();
    text.append(digits.format(number).as_bytes())
}

fn append_value(text: &mut Bytes, value: &Val) -> Result<(), NoMemory>
    ensures { OnOk result (text.new ≡ text.old ++ spec.value_text value.now) }
{
    match value {
        Val::Bool(true) => text.append(b"true"),
        Val::Bool(false) => text.append(b"false"),
        Val::Int(number) => append_int(text, *number),
        Val::Text(chars) => {
            text.push(b'"')?;
            text.append(chars.as_slice())?;
            text.push(b'"')
        }
    }
}

fn append_starts(text: &mut Bytes, chart: &Chart, starts: &[(ActId, u32)]) -> Result<(), NoMemory>
    ensures { OnOk result (text.new ≡ text.old ++ spec.starts_text chart.now starts.now) }
{
    for (act, item) in starts {
        text.append(b" ")?;
        text.append(act_name(chart, *act))?;
        text.append(b"#")?;
        append_number(text, (*item).into())?;
    }
    Ok(())
}

fn append_states(text: &mut Bytes, chart: &Chart, states: &[StateId]) -> Result<(), NoMemory>
    ensures { OnOk result (text.new ≡ text.old ++ spec.states_text chart.now states.now) }
{
    for state in states {
        text.append(b" ")?;
        text.append(state_name(chart, *state))?;
    }
    Ok(())
}

/// Adds variables with their values, each as a blank, its name, `=` and the value. A number that the chart hasn't is written
/// as an empty name. After `NoMemory` some of them may have been added. Linear in what is written.
pub fn append_vars(text: &mut Bytes, chart: &Chart, vars: &[Output]) -> Result<(), NoMemory>
    ensures { OnOk result (text.new ≡ text.old ++ spec.vars_text chart.now vars.now) }
{
    for variable in vars {
        text.append(b" ")?;
        text.append(var_name(chart, variable.var))?;
        text.append(b"=")?;
        append_value(text, &variable.val)?;
    }
    Ok(())
}

fn append_raised(text: &mut Bytes, chart: &Chart, raised: &[EventId]) -> Result<(), NoMemory>
    ensures { OnOk result (text.new ≡ text.old ++ spec.raised_text chart.now raised.now) }
{
    for event in raised {
        text.append(b" ")?;
        text.append(event_name(chart, *event))?;
    }
    Ok(())
}

/// Adds the words for why an outer was refused. If memory runs out, the text is as before. In constant time but for the
/// text's growth.
pub fn append_fault(text: &mut Bytes, fault: OuterFault) -> Result<(), NoMemory>
    ensures ok { OnOk result (text.new ≡ text.old ++ spec.fault_text fault) }
    ensures err { OnErr result (text.new ≡ text.old) }
{
    match fault {
        OuterFault::WrongUnit => text.append(b"wrong unit"),
        OuterFault::NoItem => text.append(b"no item"),
        OuterFault::AlreadyDone => text.append(b"already done"),
        OuterFault::WrongOutput => text.append(b"wrong output"),
    }
}

fn append_step(
    text: &mut Bytes,
    chart: &Chart,
    step: u32,
    notes: &StepNotes,
) -> Result<(), NoMemory>
    ensures { OnOk result (text.new ≡ text.old ++ spec.step_text chart.now step notes.now) }
{
    text.append(b"step ")?;
    append_number(text, step.into())?;
    text.append(b" fired")?;
    add_transitions(text, notes.fired.as_slice())?;
    text.append(b" starts")?;
    append_starts(text, chart, notes.starts.as_slice())
}

#[tactic(auto, unfolding(crate::specs::Replies::shown_text))]
fn write_shown(
    text: &mut Bytes,
    chart: &Chart,
    taken: u32,
    states: &[StateId],
    vars: &[Output],
) -> Result<(), NoMemory>
    ensures { OnOk result (text.new ≡ text.old ++ spec.shown_text chart.now taken states.now vars.now) }
{
    text.append(b"after ")?;
    append_number(text, taken.into())?;
    text.append(b" in")?;
    append_states(text, chart, states)?;
    text.append(b" vars")?;
    append_vars(text, chart, vars)
}

/// Adds what is shown of a chart or of a unit: how many steps were taken, the states that are in, and the variables with
/// their values. A number that the chart hasn't is written as an empty name. If memory runs out, the text is as before.
/// Linear in what is written.
pub fn append_shown(
    alloc: Global,
    text: &mut Bytes,
    chart: &Chart,
    taken: u32,
    states: &[StateId],
    vars: &[Output],
) -> Result<(), NoMemory>
    ensures ok { OnOk result (text.new ≡ text.old ++ spec.shown_text chart.now taken states.now vars.now) }
    ensures err { OnErr result (text.new ≡ text.old) }
{
    let mut shown = List::new(alloc);
    write_shown(&mut shown, chart, taken, states, vars)?;
    text.append(shown.as_slice())
}

fn append_sight(
    text: &mut Bytes,
    chart: &Chart,
    taken: u32,
    states: &[StateId],
    vars: &[Output],
    raised: &[EventId],
) -> Result<(), NoMemory>
    ensures { OnOk result (text.new ≡ text.old ++ spec.sight_text chart.now taken states.now vars.now raised.now) }
{
    write_shown(text, chart, taken, states, vars)?;
    text.append(b" raised")?;
    append_raised(text, chart, raised)
}

#[tactic(auto, unfolding(crate::specs::Replies::reply_text))]
fn append_text(text: &mut Bytes, chart: &Chart, reply: &Reply) -> Result<(), NoMemory>
    ensures { OnOk result (text.new ≡ text.old ++ spec.reply_text chart.now reply.now) }
{
    match reply {
        Reply::Ok => text.append(b"ok"),
        Reply::Refused(fault) => append_fault(text, *fault),
        Reply::Stepped { step, notes } => append_step(text, chart, *step, notes),
        Reply::Central {
            taken,
            states,
            vars,
            raised,
        } => append_sight(
            text,
            chart,
            *taken,
            states.as_slice(),
            vars.as_slice(),
            raised.as_slice(),
        ),
    }
}

/// The line of the reply to the script's line with this number. A number that the chart hasn't is written as an empty
/// name. Linear in what is written.
#[tactic(auto, unfolding(crate::specs::Replies::numbered))]
pub fn reply_line(
    alloc: Global,
    checked: &Checked,
    line: u32,
    reply: &Reply,
) -> Result<Bytes, NoMemory>
    ensures { IfOk result (λ text. text ≡ spec.numbered line (spec.reply_text checked.now reply.now)) }
{
    let mut text = List::new(alloc);
    append_number(&mut text, line.into())?;
    text.append(b": ")?;
    append_text(&mut text, checked.chart(), reply)?;
    text.push(b'\n')?;
    Ok(text)
}
