//! The lines of declarations.
ghost use Rattle.std.specs.Prelude.{◌≡◌, ◌++◌, flat_map, codes, OnOk};
ghost use Rattle.wf_print.specs.Words.{listed, behind_commas};
ghost use Rattle.wf_words.specs.Names as named;
ghost use Rattle.wf_print.specs.Declarations as spec;

use crate::words::{append_literal, sort_word};
use wf_model::{Activity, Bytes, Chart, Event, Name, NoMemory, UnitId, VarId, Variable};
use wf_words::{unit_name, var_name};

/// Appends the chart's own line.
pub fn append_chart_line(text: &mut Bytes, chart: &Chart) -> Result<(), NoMemory>
    ensures { OnOk result (text.new ≡ text.old ++ spec.chart_line chart.now) }
{
    text.append(b"chart ")?;
    text.append(chart.name.as_bytes())?;
    text.append(b";\n")
}

/// Appends the place of what stands at a unit.
pub fn append_place(text: &mut Bytes, chart: &Chart, unit: UnitId) -> Result<(), NoMemory>
    ensures { OnOk result (text.new ≡ text.old ++ spec.place chart.now unit) }
{
    text.append(b" at ")?;
    text.append(unit_name(chart, unit))
}

fn append_unit(text: &mut Bytes, name: &Name) -> Result<(), NoMemory>
    ensures { OnOk result (text.new ≡ text.old ++ spec.unit_line name.now) }
{
    text.append(b"unit ")?;
    text.append(name.as_bytes())?;
    text.append(b";\n")
}

/// Appends the line of each unit.
pub fn append_units(text: &mut Bytes, units: &[Name]) -> Result<(), NoMemory>
    ensures { OnOk result (text.new ≡ text.old ++ flat_map spec.unit_line units.now) }
{
    for unit in units {
        append_unit(text, unit)?;
    }
    Ok(())
}

fn append_event(text: &mut Bytes, chart: &Chart, event: &Event) -> Result<(), NoMemory>
    ensures { OnOk result (text.new ≡ text.old ++ spec.event_line chart.now event.now) }
{
    text.append(b"event ")?;
    text.append(event.name.as_bytes())?;
    if let Some(unit) = event.unit {
        append_place(text, chart, unit)?;
    }
    text.append(b";\n")
}

/// Appends the line of each event.
pub fn append_events(text: &mut Bytes, chart: &Chart, events: &[Event]) -> Result<(), NoMemory>
    ensures { OnOk result (text.new ≡ text.old ++ flat_map (spec.event_line chart.now) events.now) }
{
    for event in events {
        append_event(text, chart, event)?;
    }
    Ok(())
}

fn append_var(text: &mut Bytes, var: &Variable) -> Result<(), NoMemory>
    ensures { OnOk result (text.new ≡ text.old ++ spec.var_line var.now) }
{
    text.append(b"var ")?;
    text.append(var.name.as_bytes())?;
    text.append(b" : ")?;
    text.append(sort_word(var.sort))?;
    text.append(b" = ")?;
    append_literal(text, &var.first)?;
    text.append(b";\n")
}

/// Appends the line of each variable.
pub fn append_vars(text: &mut Bytes, vars: &[Variable]) -> Result<(), NoMemory>
    ensures { OnOk result (text.new ≡ text.old ++ flat_map spec.var_line vars.now) }
{
    for var in vars {
        append_var(text, var)?;
    }
    Ok(())
}

fn append_more_outputs(text: &mut Bytes, chart: &Chart, outputs: &[VarId]) -> Result<(), NoMemory>
    ensures { OnOk result (text.new ≡ text.old ++ behind_commas (named.var_name chart.now) outputs.now) }
{
    for var in outputs {
        text.append(b", ")?;
        text.append(var_name(chart, *var))?;
    }
    Ok(())
}

fn append_outputs(text: &mut Bytes, chart: &Chart, outputs: &[VarId]) -> Result<(), NoMemory>
    ensures { OnOk result (text.new ≡ text.old ++ listed (codes " gives ") (named.var_name chart.now) outputs.now) }
{
    match outputs {
        [] => Ok(()),
        [first, more @ ..] => {
            text.append(b" gives ")?;
            text.append(var_name(chart, *first))?;
            append_more_outputs(text, chart, more)
        }
    }
}

fn append_activity(text: &mut Bytes, chart: &Chart, activity: &Activity) -> Result<(), NoMemory>
    ensures { OnOk result (text.new ≡ text.old ++ spec.activity_line chart.now activity.now) }
{
    text.append(b"activity ")?;
    text.append(activity.name.as_bytes())?;
    append_place(text, chart, activity.unit)?;
    append_outputs(text, chart, activity.outputs.as_slice())?;
    text.append(b";\n")
}

/// Appends the line of each activity.
pub fn append_activities(
    text: &mut Bytes,
    chart: &Chart,
    activities: &[Activity],
) -> Result<(), NoMemory>
    ensures { OnOk result (text.new ≡ text.old ++ flat_map (spec.activity_line chart.now) activities.now) }
{
    for activity in activities {
        append_activity(text, chart, activity)?;
    }
    Ok(())
}
