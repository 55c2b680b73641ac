//! What a server says to updates that come.
ghost use Rattle.std.specs.Prelude.{◌≤◌, length};

use crate::coming::Said::{Clash, Fresh, NotPeer, Old, Same, TooFar, Unfit};
use crate::odd::Odd::{self, Done, Event, Fire, Flip, Raise, Start, Write};
use crate::odd::Told::{Nine, Yes};
use crate::odd::update_of;
use crate::steps::takes;
use std::alloc::Global;
use wf_disk::MemDisk;
use wf_model::Update;
use wf_server::{Node, ReceiveFault, Received};

// What unit b may tell, though much of it is nothing to unit a.
const FIT: &[Odd] = &[
    Flip(6),
    Flip(7),
    Flip(511),
    Write(0, 2, Nine),
    Write(127, 1023, Yes),
    Raise(0),
    Raise(127),
    Start(1, 2, 1),
    Start(127, 1023, 15),
    Fire(2),
    Fire(1023),
    Event(1),
    Event(1),
    Event(127),
    Done(1, 1, &[(0, Nine)]),
    Done(4_294_967_295, 127, &[(9, Nine); 8]),
];

const MOST: &[Odd] = &[Event(1); 64];

/// What is said, without the update that is given back.
#[derive(Clone, Copy, PartialEq, Eq)]
enum Said {
    NotPeer,
    Old,
    TooFar(u32),
    Same,
    Clash,
    Unfit,
    Fresh,
}

fn said_of(answer: &Result<Received, ReceiveFault>) -> Said {
    match answer {
        Ok(Received::Old) => Old,
        Ok(Received::Same) => Same,
        Ok(Received::Fresh) => Fresh,
        Err(ReceiveFault::NotPeer) => NotPeer,
        Err(ReceiveFault::TooFar { step }) => TooFar(*step),
        Err(ReceiveFault::Clash { .. }) => Clash,
        Err(ReceiveFault::Unfit) => Unfit,
    }
}

// What a server says to an update.
fn said_to(node: &mut Node<MemDisk>, update: Update) -> Said {
    said_of(&node.receive(update))
}

// What a server says to an update that tells these things.
fn answer(
    alloc: Global,
    node: &mut Node<MemDisk>,
    from: u32,
    step: u32,
    told: &[Odd],
) -> Option<Said> {
    let update = update_of(alloc, from, step, told).ok()?;
    Some(said_to(node, update))
}

const MISFIT: &[Odd] = &[Flip(512)];

// From which unit and of which step an update comes, what it tells, and what is said to it.
type Row = (u32, u32, &'static [Odd], Said);

// One after the other.
const COMING: &[Row] = &[
    // no other unit of the chart, whatever the step
    (0, 2, &[], NotPeer),
    (3, 2, &[], NotPeer),
    (3, 1, &[], NotPeer),
    (3, 9, &[], NotPeer),
    (0, 2, MISFIT, NotPeer),
    // a step that was taken
    (1, 0, &[], Old),
    (1, 1, &[], Old),
    (2, 1, &[Event(2)], Old),
    (1, 1, MISFIT, Old),
    // a step behind the next but one
    (1, 4, &[], TooFar(4)),
    (2, 20_001, &[], TooFar(20_001)),
    (1, 4_294_967_295, &[], TooFar(4_294_967_295)),
    (1, 4, MISFIT, TooFar(4)),
    // none is held, and it isn't fit
    (1, 2, MISFIT, Unfit),
    (1, 3, MISFIT, Unfit),
    // a state that isn't the chart's; an order that is broken; a state of another unit
    (1, 2, &[Flip(512)], Unfit),
    (1, 2, &[Flip(7), Flip(6)], Unfit),
    (1, 2, &[Flip(7), Flip(7)], Unfit),
    (1, 2, &[Flip(3)], Unfit),
    (1, 2, &[Flip(10)], Unfit),
    // a variable, a transition, an order, a value of another sort
    (1, 2, &[Write(128, 0, Nine)], Unfit),
    (1, 2, &[Write(0, 1024, Nine)], Unfit),
    (1, 2, &[Write(0, 2, Nine), Write(0, 2, Nine)], Unfit),
    (1, 2, &[Write(5, 2, Nine), Write(4, 2, Nine)], Unfit),
    (1, 2, &[Write(0, 2, Yes)], Unfit),
    // an event, an order
    (1, 2, &[Raise(128)], Unfit),
    (1, 2, &[Raise(1), Raise(0)], Unfit),
    (1, 2, &[Raise(1), Raise(1)], Unfit),
    // an activity, a transition, a place, an order
    (1, 2, &[Start(128, 2, 1)], Unfit),
    (1, 2, &[Start(1, 1024, 1)], Unfit),
    (1, 2, &[Start(1, 2, 16)], Unfit),
    (1, 2, &[Start(1, 2, 1), Start(1, 2, 1)], Unfit),
    (1, 2, &[Start(1, 2, 1), Start(1, 1, 3)], Unfit),
    // a transition, an order
    (1, 2, &[Fire(1024)], Unfit),
    (1, 2, &[Fire(2), Fire(1)], Unfit),
    // an event that isn't the chart's, an event of another unit, too many
    (1, 2, &[Event(128)], Unfit),
    (1, 2, &[Event(2)], Unfit),
    (1, 2, &[Event(1); 65], Unfit),
    // an item 0, an activity that isn't the chart's, one of another unit, values of another sort, too many
    (1, 2, &[Done(0, 1, &[(0, Nine)])], Unfit),
    (1, 2, &[Done(1, 128, &[(0, Nine)])], Unfit),
    (1, 2, &[Done(1, 0, &[(0, Nine)])], Unfit),
    (1, 2, &[Done(1, 1, &[(0, Yes)])], Unfit),
    (1, 2, &[Done(1, 1, &[(128, Nine)])], Unfit),
    (1, 2, &[Done(1, 1, &[(9, Nine); 9])], Unfit),
    // the next step
    (1, 2, FIT, Fresh),
    (1, 2, FIT, Same),
    (1, 2, &[], Clash),
    (1, 2, MISFIT, Clash),
    (1, 2, FIT, Same),
    // the step behind it
    (1, 3, MOST, Fresh),
    (1, 3, MOST, Same),
    (1, 3, &[], Clash),
    (1, 3, MISFIT, Clash),
    // unit c, of which an update came before the first step was taken, and at which the event isn't
    (2, 2, &[], Same),
    (2, 2, &[Raise(1)], Clash),
    (2, 3, &[Event(1)], Unfit),
    (2, 3, &[Raise(1)], Fresh),
    (2, 3, &[], Clash),
    (2, 1, &[], Old),
    (2, 4, &[], TooFar(4)),
];

// Before the first step. Unit c's update of the second step comes before that of the first.
const FIRST: &[Row] = &[(1, 1, &[], Fresh), (2, 2, &[], Fresh), (2, 1, &[], Fresh)];

// How many rows there are before the first at which a server says something else.
fn right_rows(alloc: Global, node: &mut Node<MemDisk>, rows: &[Row]) -> usize
    ensures { result ≤ length rows.now }
{
    for (at, (from, step, told, wanted)) in rows.iter().enumerate() {
        if answer(alloc, node, *from, *step, told) != Some(*wanted) {
            return at;
        }
    }
    rows.len()
}

/// How many answers are right before the first that isn't: to the updates that come before the first step, to that step, and to those
/// that come then.
pub fn right_updates(alloc: Global, node: &mut Node<MemDisk>) -> usize {
    let first = right_rows(alloc, node, FIRST);
    if !takes(node, 1) {
        return first;
    }
    first + 1 + right_rows(alloc, node, COMING)
}
