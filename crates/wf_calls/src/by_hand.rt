//! Charts that no text means: one that is read, and then changed by hand.
use std::alloc::Global;
use std::test::Fail;
use wf_check::first_fault;
use wf_model::{
    Bytes, Chart, Event, EventId, Kind, List, Name, State, StateId, Transition, UnitId,
};
use wf_refusals::check_fault_line;
use wf_text::read_chart;

/// The states `T`, `here` and `there`, the first of which is the root.
const SMALL: &[u8] = b"chart c; unit u; or T at u { basic here at u; basic there at u; }";

/// What is changed by hand.
#[derive(Clone, Copy)]
enum Change {
    /// A transition from this state to `here`.
    Transition(u32),
    /// A fourth state, with this name and this parent.
    State(&'static [u8], u32),
    /// An event at this unit.
    Event(u32),
    NoEvents,
    /// Another name of the chart.
    Name(&'static [u8]),
}

fn changed_chart(alloc: Global, change: Change) -> Result<Chart, Fail> {
    let mut chart = read_chart(alloc, SMALL).ok().ok_or("no chart")?;
    match change {
        Change::Transition(source) => chart.transitions.push(Transition {
            source: StateId(source),
            target: StateId(1),
            event: Some(EventId(0)),
            guard: None,
            actions: List::new(alloc),
        })?,
        Change::State(name, parent) => chart.states.push(State {
            name: Name::new(alloc, name)?,
            kind: Kind::Basic,
            parent: Some(StateId(parent)),
            unit: UnitId(0),
        })?,
        Change::Event(unit) => chart.events.push(Event {
            name: Name::new(alloc, b"go")?,
            unit: Some(UnitId(unit)),
        })?,
        Change::NoEvents => chart.events = List::new(alloc),
        Change::Name(name) => chart.name = Name::new(alloc, name)?,
    }
    Ok(chart)
}

/// The line of the chart's first fault. It is empty when the chart is accepted.
fn fault_line(alloc: Global, chart: &Chart) -> Result<Bytes, Fail> {
    match first_fault(alloc, chart)? {
        Some(fault) => Ok(check_fault_line(alloc, chart, fault)?),
        None => Ok(List::new(alloc)),
    }
}

#[test]
fn rules_that_no_text_breaks(rt: HostRuntime) -> Result<(), Fail> {
    let rows = [
        (Change::Transition(1), ""),
        (
            Change::Transition(3),
            "refused check bad id transitions 0\n",
        ),
        (Change::State(b"last", 0), ""),
        (Change::State(b"last", 1), "refused check bad id states 3\n"),
        (
            Change::State(b"here", 0),
            "refused check bad name states 3\n",
        ),
        (
            Change::State(b"7up", 0),
            "refused check bad name states 3\n",
        ),
        (Change::Event(0), ""),
        (Change::Event(1), "refused check bad id events 1\n"),
        (Change::NoEvents, "refused check bad id events 0\n"),
        (Change::Name(b"u"), ""),
        (Change::Name(b"or"), "refused check bad name chart 0\n"),
        (
            Change::Name(b"a23456789012345678901234567890123"),
            "refused check bad name chart 0\n",
        ),
    ];
    for (change, wanted) in rows {
        let chart = changed_chart(rt.alloc(), change)?;
        let line = fault_line(rt.alloc(), &chart)?;
        assert_eq!(rt; line.as_slice(), wanted.as_bytes());
    }
    Ok(())
}
