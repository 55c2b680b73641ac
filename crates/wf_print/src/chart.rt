//! The canonical text of a chart.
ghost use Rattle.std.specs.Prelude.{◌≡◌, drop, IfOk};
ghost use Rattle.wf_print.specs.ChartText.{chart_text};

use crate::declarations::{
    append_activities, append_chart_line, append_events, append_units, append_vars,
};
use crate::states::{append_state, children};
use crate::transitions::append_transitions;
use std::alloc::Global;
use wf_model::{Bytes, Chart, Checked, Event, List, NoMemory};

// The events but the first, which is `fault`.
fn declared_events(chart: &Chart) -> &[Event]
    ensures { result.now ≡ drop 1 chart.now.events }
{
    match chart.events.as_slice() {
        [] => &[],
        [_fault, declared @ ..] => declared,
    }
}

// The canonical text of any chart.
#[tactic(auto, unfolding(crate::specs::ChartText::chart_text))]
fn text_of(alloc: Global, chart: &Chart) -> Result<Bytes, NoMemory>
    ensures { IfOk result (λ text. text ≡ chart_text chart.now) }
{
    let table = children(alloc, chart)?;
    let mut text = List::new(alloc);
    append_chart_line(&mut text, chart)?;
    append_units(&mut text, chart.units.as_slice())?;
    append_events(&mut text, chart, declared_events(chart))?;
    append_vars(&mut text, chart.vars.as_slice())?;
    append_activities(&mut text, chart, chart.acts.as_slice())?;
    append_state(&mut text, chart, table.as_slice(), 0, 0)?;
    append_transitions(&mut text, chart, chart.transitions.as_slice())?;
    Ok(text)
}

/// The canonical text of a chart: one declaration on a line, each state on a line of its own, every operator in
/// parentheses. By the grammar it is a text of this chart, and the reader reads it back, if it isn't too long: these are
/// `checked_is_spelled` and `checked_is_read_back` of `wf_readback`. Linear in the chart and the text.
pub fn print_chart(alloc: Global, checked: &Checked) -> Result<Bytes, NoMemory>
    ensures { IfOk result (λ text. text ≡ chart_text checked.now) }
{
    text_of(alloc, checked.chart())
}
