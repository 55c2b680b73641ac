//! How a unit is recovered.
ghost use Rattle.std.specs.Prelude.{◌≡◌, ◌≢◌, ◌⊎◌, ◌↔◌, ◌+◌, ◌^◌, ◌<◌, ◌≤◌, Option, None, IsTrue, IfOk, IfErr};
ghost use Rattle.wf_model.specs.Faults.{last_count};
ghost use Rattle.wf_machine.specs.Server.{Works};
ghost use Rattle.wf_slot.specs.declared.fuse.Fuse.{Fuse as FuseValue};
ghost use Rattle.wf_slot.specs.declared.slot.Doubt.{Doubt as DoubtValue};
ghost use Rattle.wf_slot.specs.declared.slot.Seat.TheVariants as seats;
ghost use Rattle.wf_slot.specs.Slots.{fallen};
ghost use Rattle.wf_slot.specs.Answers.{Goes, RecoveryWrites, RecoverAnswers, Ends, counts_if_lost};
ghost use Rattle.wf_slot.specs.Seats.{state_of, IsKept, IsSlot};
ghost use Rattle.wf_slot.specs.Reopening.{HoldsSome, Opens, StaysDown};

use crate::fuse::fuse_after;
use crate::slot::falling::{bar_reply, without_arm};
use crate::slot::{Remains, Seat, Slot, sit};
use std::alloc::Global;
use std::mem::replace;
use wf_disk::MemDisk;
use wf_machine::Reply;
use wf_model::NoMemory;
use wf_server::{Node, NodeFault};

/// Why a unit isn't up again: its disk failed, or memory ran out. The disk has no arm any more.
#[derive(Drop)]
pub struct Shut {
    remains: Remains,
    failed: bool,
}

// What is left of a unit that is stopped with no crash.
fn remains_of(seat: Seat) -> Remains
    requires { seat ≢ seats.Away }
    ensures kept { (fuse : Option FuseValue) (doubt : Option DoubtValue) → IsSlot seat fuse doubt → IsSlot (seats.Down result) fuse doubt }
    ensures same { (fuse : Option FuseValue) (doubt : Option DoubtValue) → state_of (seats.Down result) fuse doubt ≡ fallen (state_of seat fuse doubt) }
{
    match seat {
        Seat::Up(node) => {
            let _taken = node.taken();
            let (part, disk, past) = node.close();
            Remains { part, disk, past }
        }
        Seat::Down(remains) => remains,
        Seat::Away => unreachable!(),
    }
}

// Whether the disk failed. Otherwise memory ran out.
fn is_of_disk(fault: &NodeFault) -> bool
    requires { (fault.now ≡ NodeFault.DiskFailed) ⊎ (fault.now ≡ NodeFault.NoMemory) }
    ensures { IsTrue result ↔ (fault.now ≡ NodeFault.DiskFailed) }
{
    match fault {
        NodeFault::DiskFailed => true,
        NodeFault::NoMemory => false,
        NodeFault::Foreign { .. } => unreachable!(),
        NodeFault::BadRecord { .. } => unreachable!(),
        NodeFault::BadFrame { .. } => unreachable!(),
    }
}

// Starts a unit again, over a disk that holds a history of it.
fn start_again(alloc: Global, remains: Remains) -> Result<Node<MemDisk>, Shut>
    requires early { remains.disk.clock + 2000 ≤ last_count }
    requires holds { HoldsSome remains }
    ensures opens { IfOk result (λ node. (fuse : Option FuseValue) (doubt : Option DoubtValue) → IsKept remains.part remains.past.past remains.disk fuse doubt → Opens remains fuse doubt node) }
    ensures shut { IfErr result (λ shut. (fuse : Option FuseValue) (doubt : Option DoubtValue) → IsKept remains.part remains.past.past remains.disk fuse doubt → StaysDown remains fuse doubt shut) }
{
    let Remains { part, disk, past } = remains;
    match Node::start(alloc, part, disk) {
        Ok(node) => {
            let _disk = node.disk();
            Ok(node)
        }
        Err(refused) => Err(Shut {
            failed: is_of_disk(&refused.fault),
            remains: Remains {
                part: refused.part,
                disk: without_arm(refused.disk),
                past,
            },
        }),
    }
}

impl Slot {
    // Removes the arm of its disk.
    fn disarm(&mut self)
        requires { self.old.clock + 2000 ≤ last_count }
        ensures { self.new ≡ record self.old { fuse = None } }
    {
        match &mut self.seat {
            Seat::Up(node) => node.disarm(),
            Seat::Down(remains) => remains.disk.disarm(),
            Seat::Away => unreachable!(),
        }
        self.fuse = None;
    }

    /// Recovers it, as the machine does by some outcome of the record in doubt. The disk's clock isn't near its end. It refuses only if
    /// memory runs out, and then it is some unit. In linear time in the journal, times the part.
    pub fn recover(&mut self) -> Result<Reply, NoMemory>
        requires early { self.old.clock + 2000 ≤ last_count }
        ensures answer { IfOk result (λ reply. RecoverAnswers self.old reply self.new) }
        ensures writes { IfOk result (λ _. RecoveryWrites self.old self.new) }
        ensures goes { IfOk result (λ _. Goes 1 self.old self.new) }
    {
        let remains = remains_of(replace(&mut self.seat, Seat::Away));
        match start_again(self.alloc, remains) {
            Ok(node) => {
                let reply = Reply::Recovered {
                    taken: node.taken(),
                    admitted: node.admitted(),
                };
                self.fuse = fuse_after(self.fuse, 1);
                self.doubt = None;
                sit(&mut self.seat, Seat::Up(node));
                Ok(reply)
            }
            Err(Shut { remains, failed }) => {
                sit(&mut self.seat, Seat::Down(remains));
                let hit = self.fuse.take();
                if !failed {
                    return Err(NoMemory);
                }
                match hit {
                    Some(hit) => Ok(bar_reply(hit.what)),
                    None => unreachable!(),
                }
            }
        }
    }

    /// The end of a run: it removes the arm, and recovers a unit that was lost, whose counts it gives, of its steps and of its admissions.
    /// The disk's clock isn't near its end. It refuses only if memory runs out, and then it is some unit. In linear time in the journal,
    /// times the part.
    pub fn finish(&mut self) -> Result<Option<(u32, u64)>, NoMemory>
        requires early { self.old.clock + 2000 ≤ last_count }
        ensures counts { IfOk result (λ counts. counts ≡ counts_if_lost self.old self.new) }
        ensures ends { IfOk result (λ _. Ends self.old self.new) }
        ensures writes { IfOk result (λ _. RecoveryWrites self.old self.new) }
        ensures goes { IfOk result (λ _. Goes 1 self.old self.new) }
        ensures calm { IfOk result (λ _. self.old.health ≡ Works → self.new ≡ record self.old { fuse = None }) }
    {
        self.disarm();
        if self.works() {
            return Ok(None);
        }
        self.recover()?;
        Ok(Some((self.taken(), self.admitted())))
    }
}
