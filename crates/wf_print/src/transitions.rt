//! The lines of transitions.
ghost use Rattle.std.specs.Prelude.{◌≡◌, ◌++◌, flat_map, codes, OnOk};
ghost use Rattle.wf_print.specs.Words.{listed, behind_commas};
ghost use Rattle.wf_print.specs.Transitions as spec;

use crate::expressions::append_expr;
use wf_model::{Action, Bytes, Chart, EventId, Expr, NoMemory, Transition};
use wf_words::{act_name, event_name, state_name, var_name};

fn append_action(text: &mut Bytes, chart: &Chart, action: &Action) -> Result<(), NoMemory>
    ensures { OnOk result (text.new ≡ text.old ++ spec.action_text chart.now action.now) }
{
    match action {
        Action::Assign(var, value) => {
            text.append(var_name(chart, *var))?;
            text.append(b" := ")?;
            append_expr(text, chart, value)
        }
        Action::Raise(event) => {
            text.append(b"raise ")?;
            text.append(event_name(chart, *event))
        }
        Action::Start(act) => {
            text.append(b"start ")?;
            text.append(act_name(chart, *act))
        }
    }
}

fn append_more_actions(text: &mut Bytes, chart: &Chart, actions: &[Action]) -> Result<(), NoMemory>
    ensures { OnOk result (text.new ≡ text.old ++ behind_commas (spec.action_text chart.now) actions.now) }
{
    for action in actions {
        text.append(b", ")?;
        append_action(text, chart, action)?;
    }
    Ok(())
}

fn append_actions(text: &mut Bytes, chart: &Chart, actions: &[Action]) -> Result<(), NoMemory>
    ensures { OnOk result (text.new ≡ text.old ++ listed (codes " do ") (spec.action_text chart.now) actions.now) }
{
    match actions {
        [] => Ok(()),
        [first, more @ ..] => {
            text.append(b" do ")?;
            append_action(text, chart, first)?;
            append_more_actions(text, chart, more)
        }
    }
}

fn append_ends(text: &mut Bytes, chart: &Chart, transition: &Transition) -> Result<(), NoMemory>
    ensures { OnOk result (text.new ≡ text.old ++ spec.ends chart.now transition.now) }
{
    text.append(b"from ")?;
    text.append(state_name(chart, transition.source))?;
    text.append(b" to ")?;
    text.append(state_name(chart, transition.target))
}

fn append_trigger(text: &mut Bytes, chart: &Chart, event: Option<EventId>) -> Result<(), NoMemory>
    ensures { OnOk result (text.new ≡ text.old ++ spec.trigger chart.now event) }
{
    match event {
        Some(event) => {
            text.append(b" on ")?;
            text.append(event_name(chart, event))
        }
        None => Ok(()),
    }
}

fn append_condition(text: &mut Bytes, chart: &Chart, guard: &Option<Expr>) -> Result<(), NoMemory>
    ensures { OnOk result (text.new ≡ text.old ++ spec.condition chart.now guard.now) }
{
    match guard {
        Some(guard) => {
            text.append(b" if ")?;
            append_expr(text, chart, guard)
        }
        None => Ok(()),
    }
}

#[tactic(auto, unfolding(crate::specs::Transitions::transition_line))]
fn append_transition(
    text: &mut Bytes,
    chart: &Chart,
    transition: &Transition,
) -> Result<(), NoMemory>
    ensures { OnOk result (text.new ≡ text.old ++ spec.transition_line chart.now transition.now) }
{
    append_ends(text, chart, transition)?;
    append_trigger(text, chart, transition.event)?;
    append_condition(text, chart, &transition.guard)?;
    append_actions(text, chart, transition.actions.as_slice())?;
    text.append(b";\n")
}

/// Appends the line of each transition.
pub fn append_transitions(
    text: &mut Bytes,
    chart: &Chart,
    transitions: &[Transition],
) -> Result<(), NoMemory>
    ensures { OnOk result (text.new ≡ text.old ++ flat_map (spec.transition_line chart.now) transitions.now) }
{
    for transition in transitions {
        append_transition(text, chart, transition)?;
    }
    Ok(())
}
