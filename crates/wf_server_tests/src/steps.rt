//! Admissions, and steps that a server takes. Each public function answers how many answers are right before the first that isn't.
use crate::odd::quiet;
use std::alloc::Global;
use wf_disk::MemDisk;
use wf_model::{EventId, Outer, UnitId};
use wf_server::{Admitted, Node, Received, Turn, TurnFault};

/// Of an admission.
pub fn right_admission(node: &mut Node<MemDisk>) -> usize {
    match node.admit(7, &Outer::Happen(EventId(1))) {
        Ok(Admitted::New(1)) => 1,
        _ => 0,
    }
}

/// Whether a server takes this step.
pub fn takes(node: &mut Node<MemDisk>, step: u32) -> bool {
    node.turn() == Ok(Turn::Took(step))
}

// Whether a server says that no step is left.
fn has_no_step(node: &mut Node<MemDisk>) -> bool {
    node.turn() == Err(TurnFault::StepLimit)
}

/// Of the steps from 1 to 20,000, and one behind them.
pub fn right_steps(node: &mut Node<MemDisk>) -> usize {
    for step in 0..20_000 {
        if !takes(node, step + 1) {
            return step as usize;
        }
    }
    if has_no_step(node) { 20_001 } else { 20_000 }
}

// Works out the next Turn of unit a of two units, if it may be taken.
#[tactic(auto, using(crate::proofs::Units::all_came))]
fn work_out(node: &mut Node<MemDisk>) -> bool {
    let part = node.part().data();
    let taken = node.taken();
    if part.units != 2 || part.unit.0 != 0 || taken >= 20_000 {
        return false;
    }
    if node.held(UnitId(1), taken + 1).is_none() {
        return false;
    }
    node.reserve_turn().is_ok()
}

// Whether a server holds an update of unit b from now on.
fn holds_update(alloc: Global, node: &mut Node<MemDisk>) -> bool {
    matches!(node.receive(quiet(alloc, 1, 1)), Ok(Received::Fresh))
}

/// Of an admission, an update of unit b, the step that takes it in as it is worked out, and that step.
pub fn right_step(alloc: Global, node: &mut Node<MemDisk>) -> usize {
    if right_admission(node) == 0 {
        0
    } else if !holds_update(alloc, node) {
        1
    } else if !work_out(node) {
        2
    } else if !takes(node, 1) {
        3
    } else {
        4
    }
}
