//! What a server of unit a is asked, and what it leaves.
use crate::charts::{JOBS, ONE, TALK, TWO, checked_of};
use crate::coming::right_updates;
use crate::journals::{JOURNAL, WRITTEN};
use crate::servers::{Started, image_of, server_on};
use crate::shown::{right_list, right_sight};
use crate::steps::{right_admission, right_step, right_steps};
use std::alloc::Global;
use wf_disk::MemDisk;
use wf_model::Checked;
use wf_server::Node;

/// What a server is asked.
#[derive(Clone, Copy)]
enum Work {
    /// To admit an event.
    Admission,
    /// To take a step that it worked out, after that.
    Step,
    /// All steps that there are.
    AllSteps,
    /// What it says to updates that come.
    Updates,
    /// What it shows and sends.
    Sight,
    /// To admit an event and take a step, and then its merged list.
    Merged,
}

// How many answers are right before the first that isn't.
fn right_answers(alloc: Global, node: &mut Node<MemDisk>, work: Work) -> usize {
    match work {
        Work::Admission => right_admission(node),
        Work::Step => right_step(alloc, node),
        Work::AllSteps => right_steps(node),
        Work::Updates => right_updates(alloc, node),
        Work::Sight => right_sight(alloc, node),
        Work::Merged => right_list(alloc, node),
    }
}

// The same of a server, if one was started.
fn answers_of(alloc: Global, server: &mut Started, work: Work) -> Option<usize> {
    match server {
        Ok(node) => Some(right_answers(alloc, node, work)),
        Err(_) => None,
    }
}

// The same of a new server, and the bytes that it leaves.
fn left_after(alloc: Global, checked: &Checked, work: Work) -> Option<(usize, Vec<u8>)> {
    let mut server = server_on(alloc, checked, 0, &[]);
    let right = answers_of(alloc, &mut server, work);
    right.zip(image_of(alloc, server))
}

// The same of the new server of a chart.
fn left_of(alloc: Global, text: &str, work: Work) -> Option<(usize, Vec<u8>)> {
    let checked = checked_of(alloc, text)?;
    left_after(alloc, &checked, work)
}

// How many answers are right, if a server leaves these bytes.
fn right_with(alloc: Global, text: &str, work: Work, bytes: &[u8]) -> Option<usize> {
    let (right, left) = left_of(alloc, text, work)?;
    if left.as_slice() == bytes {
        Some(right)
    } else {
        None
    }
}

// How many answers are right, whatever a server leaves.
fn right_of(alloc: Global, text: &str, work: Work) -> Option<usize> {
    let (right, _) = left_of(alloc, text, work)?;
    Some(right)
}

#[test]
fn a_journal_is_written_so(rt: HostRuntime) {
    assert!(rt; right_with(rt.alloc(), TWO, Work::Admission, &WRITTEN) == Some(1));
}

#[test]
fn a_step_that_was_worked_out(rt: HostRuntime) {
    assert!(rt; right_with(rt.alloc(), TWO, Work::Step, &JOURNAL) == Some(4));
}

#[test]
fn all_steps_that_there_are(rt: HostRuntime) {
    assert!(rt; right_of(rt.alloc(), ONE, Work::AllSteps) == Some(20_001));
}

#[test]
fn updates_that_come(rt: HostRuntime) {
    assert!(rt; right_of(rt.alloc(), TALK, Work::Updates) == Some(64));
}

#[test]
fn what_a_new_server_shows(rt: HostRuntime) {
    assert!(rt; right_of(rt.alloc(), TWO, Work::Sight) == Some(4));
}

#[test]
fn an_admission_is_merged(rt: HostRuntime) {
    assert!(rt; right_of(rt.alloc(), JOBS, Work::Merged) == Some(4));
}
