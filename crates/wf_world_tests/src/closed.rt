//! What the disks hold that a world leaves.
use crate::plays::{chart_two, world_after_play};
use std::alloc::Global;
use std::test::Fail;
use wf_disk::MemDisk;
use wf_model::{Checked, List, UnitId};
use wf_ortho::orthogonalise;
use wf_partition::part_of;
use wf_parts::Part;
use wf_server::{Node, StartRefused};

type Started = Result<Node<MemDisk>, StartRefused<MemDisk>>;

// The part of a unit of an accepted chart.
fn part_of_unit(alloc: Global, checked: &Checked, unit: u32) -> Option<Part> {
    if unit as usize >= checked.chart().units.len() {
        return None;
    }
    let flat = orthogonalise(alloc, checked).ok()?;
    part_of(alloc, checked, &flat, UnitId(unit)).ok()
}

// The part of a unit of the chart, if the chart is accepted.
fn part_if_accepted(alloc: Global, checked: &Option<Checked>, unit: u32) -> Option<Part> {
    match checked {
        Some(checked) => part_of_unit(alloc, checked, unit),
        None => None,
    }
}

// The part of a unit.
fn part_in(alloc: Global, unit: u32) -> Option<Part> {
    let checked = chart_two(alloc);
    let part = part_if_accepted(alloc, &checked, unit);
    drop(checked);
    part
}

// How many requests a server has admitted and how many steps it has taken, if it started.
fn counts_of(server: &Started) -> Option<(u64, u32)> {
    match server {
        Ok(node) => Some((node.admitted(), node.taken())),
        Err(_) => None,
    }
}

// The same of a unit's server, as it starts on a disk.
fn counts_with(alloc: Global, part: Part, disk: MemDisk) -> Option<(u64, u32)> {
    let server = Node::start(alloc, part, disk);
    let counts = counts_of(&server);
    drop(server);
    counts
}

fn counts_on(rt: &HostRuntime, unit: u32, disk: MemDisk) -> Result<(u64, u32), Fail> {
    let part = part_in(rt.alloc(), unit).ok_or("no part")?;
    Ok(counts_with(rt.alloc(), part, disk).ok_or("no server")?)
}

// The same of each unit's disk, in order.
fn all_counts(rt: &HostRuntime, disks: List<MemDisk>) -> Result<Vec<(u64, u32)>, Fail> {
    let mut counts = Vec::new(rt.alloc());
    let mut unit = 0;
    for disk in disks.into_vec() {
        counts.push(counts_on(rt, unit, disk)?)?;
        unit = unit.saturating_add(1);
    }
    Ok(counts)
}

#[test]
fn disks_hold_the_histories(rt: HostRuntime) -> Result<(), Fail> {
    let counts = all_counts(&rt, world_after_play(&rt)?.close()?)?;
    assert!(rt; counts.as_slice() == [(1, 3), (0, 2)].as_slice());
    Ok(())
}
