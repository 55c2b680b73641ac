//! Servers over disks in memory.
ghost use Rattle.std.specs.Prelude.{◌≡◌, IfOk};
ghost use Rattle.wf_parts.specs.Parts.{part_of};

use crate::charts::{bytes_of, disk_with, part_in};
use crate::servers::Refusal::{BadFrame, BadRecord, Failed, Foreign};
use std::alloc::Global;
use wf_disk::MemDisk;
use wf_model::Checked;
use wf_server::{Node, NodeFault};

/// Why no server is started, without the names of a head.
#[derive(Clone, Copy, PartialEq, Eq)]
pub enum Refusal {
    /// The frame at this place is not whole.
    BadFrame(u64),
    /// The record at this place, with this first byte, doesn't follow.
    BadRecord(u64, u8),
    /// The journal is of another chart or unit.
    Foreign,
    /// The disk failed, memory ran out, or there is no such unit.
    Failed,
}

fn refusal_of(fault: &NodeFault) -> Refusal {
    match fault {
        NodeFault::BadFrame { at } => BadFrame(*at),
        NodeFault::BadRecord { at, first } => BadRecord(*at, *first),
        NodeFault::Foreign { .. } => Foreign,
        NodeFault::DiskFailed | NodeFault::NoMemory => Failed,
    }
}

/// A server, or why none is started. Who owns one keeps it whole, lends it, and drops it by `drop`: where a `match` takes it apart, its
/// drop is proved over all that is in a server.
pub type Started = Result<Node<MemDisk>, Refusal>;

/// The server of a unit, on a disk with these bytes.
pub fn server_on(alloc: Global, checked: &Checked, unit: u32, image: &[u8]) -> Started
    ensures { IfOk result (λ node. node.part ≡ part_of checked.now unit) }
{
    match part_in(alloc, checked, unit) {
        Some(part) => match Node::start(alloc, part, disk_with(alloc, image)) {
            Ok(node) => Ok(node),
            Err(refused) => Err(refusal_of(&refused.fault)),
        },
        None => Err(Failed),
    }
}

// The bytes that a server leaves.
fn image_left(alloc: Global, node: Node<MemDisk>) -> Option<Vec<u8>> {
    let mut left = node.close();
    let image = bytes_of(alloc, &mut left.1);
    drop(left);
    image
}

/// The same of a server, if one was started.
pub fn image_of(alloc: Global, server: Started) -> Option<Vec<u8>> {
    server.ok().and_then(|node| image_left(alloc, node))
}
