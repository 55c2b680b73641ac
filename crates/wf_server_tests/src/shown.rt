//! What a server shows and sends, and the merged list of a unit. Each public function answers how many answers are right before the first that isn't.
ghost use Rattle.wf_worlds.specs.Growing.{Fits};

use crate::agreement::{FIRST, spells};
use crate::steps::{right_admission, takes};
use std::alloc::Global;
use std::slice::from_ref;
use wf_disk::MemDisk;
use wf_model::{StateId, UnitId, Val, VarId};
use wf_projection::merged;
use wf_server::Node;
use wf_steps::History;

// Whether a new server sends these bytes as its first update to unit b.
#[tactic(auto, using(crate::proofs::Units::first_is_kept))]
fn sends_first(node: &Node<MemDisk>) -> bool {
    if node.taken() != 0 {
        return false;
    }
    match node.letter(UnitId(1), 1) {
        Ok(bytes) => bytes.as_slice() == FIRST.as_slice(),
        Err(_) => false,
    }
}

/// Of a new server of unit a: its first update, as it is sent and as it is kept, a state that is in, and one that isn't its own.
pub fn right_sight(alloc: Global, node: &Node<MemDisk>) -> usize {
    if !sends_first(node) {
        0
    } else if !spells(alloc, &FIRST, node.kept().1) {
        1
    } else if node.is_in(StateId(1)) != Some(true) {
        2
    } else if node.is_in(StateId(2)).is_some() {
        3
    } else {
        4
    }
}

// How many steps the merged list of a unit has, and how many places its last one.
fn merged_sizes(alloc: Global, history: &History) -> Option<(usize, usize)>
    requires { Fits history.now.past }
{
    let steps = merged(alloc, from_ref(history)).ok()?;
    let last = steps.as_slice().last()?;
    Some((steps.len(), last.len()))
}

/// Of a new server of a chart's only unit: a variable, an admission, a step, and the merged list, whose third step has that admission.
pub fn right_list(alloc: Global, node: &mut Node<MemDisk>) -> usize {
    if node.var(VarId(0)) != Some(Val::Int(0)) {
        0
    } else if right_admission(node) == 0 {
        1
    } else if !takes(node, 1) {
        2
    } else if merged_sizes(alloc, node.history()) != Some((3, 1)) {
        3
    } else {
        4
    }
}
