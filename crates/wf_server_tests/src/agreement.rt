//! What the histories of two units say of each other.
ghost use Rattle.std.specs.Prelude.{◌≡◌, length, IfOk};
ghost use Rattle.wf_parts.specs.Parts.{part_of};

use crate::charts::{TWO, checked_of};
use crate::servers::{Started, server_on};
use std::alloc::Global;
use wf_agreement::{Agreement, agree, own_updates};
use wf_codec::decode;
use wf_disk::MemDisk;
use wf_model::{Checked, List, Same, UnitId, Update};
use wf_server::Node;

// Unit a's journal: a Turn, with unit b's update of step 1.
const OF_A: [u8; 45] = [
    1, 0, 0, 0, 8, 0x48, 1, 3, 0x74, 0x77, 0x6F, 1, 0x61, //
    1, 0, 0, 0, 26, 0x54, 0, 0, 0, 1, 1, //
    0x55, 1, 0, 0, 0, 1, 0, 0, 0, 0, 0, 0, 0, 0, 0, 0, 0, 0, //
    0, 0, 0,
];

// Unit b's journal: a Turn, with unit a's update of step 1.
const OF_B: [u8; 45] = [
    1, 0, 0, 0, 8, 0x48, 1, 3, 0x74, 0x77, 0x6F, 1, 0x62, //
    1, 0, 0, 0, 26, 0x54, 0, 0, 0, 1, 1, //
    0x55, 0, 0, 0, 0, 1, 0, 0, 0, 0, 0, 0, 0, 0, 0, 0, 0, 0, //
    0, 0, 0,
];

// And one more, with an update of step 2 by which unit a let an event in.
const OF_B_TOLD: [u8; 79] = [
    1, 0, 0, 0, 8, 0x48, 1, 3, 0x74, 0x77, 0x6F, 1, 0x62, //
    1, 0, 0, 0, 26, 0x54, 0, 0, 0, 1, 1, //
    0x55, 0, 0, 0, 0, 1, 0, 0, 0, 0, 0, 0, 0, 0, 0, 0, 0, 0, //
    0, 0, //
    1, 0, 0, 0, 29, 0x54, 0, 0, 0, 2, 1, //
    0x55, 0, 0, 0, 0, 2, 0, 0, 0, 0, 0, 0, 0, 0, 0, 0, 0, 1, 0, 0, 1, //
    0, 0, 0,
];

const KEPT: [u8; 21] = [
    0x55, 0, 0, 0, 0, 2, 0, 0, 0, 0, 0, 0, 0, 0, 0, 0, 0, 1, 0, 0, 1,
];

const SENT: [u8; 18] = [0x55, 0, 0, 0, 0, 2, 0, 0, 0, 0, 0, 0, 0, 0, 0, 0, 0, 0];

/// An update of unit a of step 1, which tells nothing.
pub const FIRST: [u8; 18] = [0x55, 0, 0, 0, 0, 1, 0, 0, 0, 0, 0, 0, 0, 0, 0, 0, 0, 0];

// What is found of the histories of two units, and what unit a made of the steps that it took.
#[derive(Drop)]
struct Found {
    agreement: Agreement,
    updates: List<Update>,
}

// The same of two servers, which are all of a chart.
#[tactic(auto, using(crate::proofs::Units::all_made))]
fn found_of(alloc: Global, checked: &Checked, a: &Node<MemDisk>, b: &Node<MemDisk>) -> Option<Found>
    requires two { length checked.now.units ≡ 2 }
    requires a { a.now.part ≡ part_of checked.now 0 }
    requires b { b.now.part ≡ part_of checked.now 1 }
{
    let updates = own_updates(alloc, a.part(), a.history()).ok()?;
    let agreement = agree(alloc, &[a.part(), b.part()], &[a.history(), b.history()]).ok()?;
    Some(Found { agreement, updates })
}

// The same of two servers, if both started.
fn found_if_started(alloc: Global, checked: &Checked, a: &Started, b: &Started) -> Option<Found>
    requires two { length checked.now.units ≡ 2 }
    requires a { IfOk a.now (λ node. node.part ≡ part_of checked.now 0) }
    requires b { IfOk b.now (λ node. node.part ≡ part_of checked.now 1) }
{
    match (a, b) {
        (Ok(a), Ok(b)) => found_of(alloc, checked, a, b),
        _ => None,
    }
}

// The same of servers on these bytes.
fn found_in(alloc: Global, checked: &Checked, of_a: &[u8], of_b: &[u8]) -> Option<Found>
    requires two { length checked.now.units ≡ 2 }
{
    let a = server_on(alloc, checked, 0, of_a);
    let b = server_on(alloc, checked, 1, of_b);
    let found = found_if_started(alloc, checked, &a, &b);
    drop(a);
    drop(b);
    found
}

fn found_on(alloc: Global, of_a: &[u8], of_b: &[u8]) -> Option<Found> {
    let checked = checked_of(alloc, TWO)?;
    if checked.chart().units.len() == 2 {
        found_in(alloc, &checked, of_a, of_b)
    } else {
        None
    }
}

/// Whether these bytes spell an update.
pub fn spells(alloc: Global, bytes: &[u8], update: &Update) -> bool {
    match decode(alloc, bytes) {
        Ok((spelt, _)) => spelt.is_same(update),
        Err(_) => false,
    }
}

// Whether unit b kept of step 2 what unit a didn't send.
fn is_first_difference(alloc: Global, found: &Agreement) -> bool {
    match found {
        Agreement::Differ {
            reader: UnitId(1),
            step: 2,
            sender: UnitId(0),
            kept,
            sent: Some(sent),
        } => spells(alloc, &KEPT, kept) && spells(alloc, &SENT, sent),
        _ => false,
    }
}

// Whether unit a made just one update, which tells nothing.
fn made_one(alloc: Global, updates: &[Update]) -> bool {
    match updates {
        [update] => spells(alloc, &FIRST, update),
        _ => false,
    }
}

// Whether the histories differ if unit b took in what unit a didn't send, and what unit a made.
fn differ_first(alloc: Global) -> Option<(bool, bool)> {
    let found = found_on(alloc, &OF_A, &OF_B_TOLD)?;
    let differ = is_first_difference(alloc, &found.agreement);
    Some((differ, made_one(alloc, found.updates.as_slice())))
}

// Whether they agree if unit b didn't take that step.
fn agree_before(alloc: Global) -> Option<bool> {
    let found = found_on(alloc, &OF_A, &OF_B)?;
    Some(matches!(&found.agreement, Agreement::Agree))
}

#[test]
fn histories_that_differ(rt: HostRuntime) {
    assert!(rt; differ_first(rt.alloc()) == Some((true, true)));
}

#[test]
fn histories_that_agree(rt: HostRuntime) {
    assert!(rt; agree_before(rt.alloc()) == Some(true));
}
