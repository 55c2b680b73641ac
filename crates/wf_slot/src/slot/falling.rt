//! How a unit is armed, breaks off and goes down.
ghost use Rattle.std.specs.Prelude.{◌≡◌, ◌≢◌, ◌+◌, ◌^◌, ◌<◌, ◌≤◌, ℕ, List, Option, Some};
ghost use Rattle.wf_model.specs.Faults.{last_count};
ghost use Rattle.wf_disk.specs.Memory.{told_of};
ghost use Rattle.wf_machine.specs.Bars.{bar_of, barred, turn_barred};
ghost use Rattle.wf_machine.specs.Strokes.{Fuse as FuseValue};
ghost use Rattle.wf_machine.specs.Server.{IsDown, doubted};
ghost use Rattle.wf_machine.specs.Lines.{crash_by};
ghost use Rattle.wf_histories.specs.Histories.{taken};
ghost use Rattle.wf_slot.specs.Fuses.{IsUnarmed, IsFused};
ghost use Rattle.wf_slot.specs.Slots.{server, fallen};
ghost use Rattle.wf_slot.specs.Seats.{record_of, doubt_of};
ghost use Rattle.wf_slot.specs.Writes.{IsLeftOf, BreaksTo};

use crate::fuse::Fuse;
use crate::slot::{Doubt, Remains, Seat, Slot, sit};
use std::mem::replace;
use wf_disk::{Arm, MemDisk, Outcome};
use wf_machine::{Reply, TurnReply};
use wf_server::Node;

/// A disk whose arm went off, without its arm. One that stopped takes its outcome.
pub fn without_arm(disk: MemDisk) -> MemDisk
    ensures unarmed { IsUnarmed (told_of result) }
    ensures clock { result.clock ≡ disk.clock }
    ensures leaves { (file : List ℕ) → (told_of result).may_leave file → (told_of disk).may_leave file }
{
    let mut disk = disk;
    disk.revive();
    disk.disarm();
    disk
}

/// What is left of a unit whose disk stopped.
fn remains_of_stopped(node: Node<MemDisk>) -> Remains
    ensures left { IsLeftOf node result }
    ensures unarmed { IsUnarmed (told_of result.disk) }
    ensures few { taken node.past < 2 ^ 32 }
{
    let _taken = node.taken();
    let (part, disk, past) = node.close();
    Remains {
        part,
        disk: without_arm(disk),
        past,
    }
}

/// Where a unit sits after this arm of its disk went off.
pub fn seat_after(node: Node<MemDisk>, what: Arm) -> Seat
    ensures { BreaksTo node what result }
{
    match what {
        Arm::Fail => Seat::Up(node),
        Arm::Crash(_) => Seat::Down(remains_of_stopped(node)),
    }
}

/// What is in doubt after a write of a record at which this arm went off. The third stroke of a write opens the record's gate.
pub fn doubt_after(hit: Fuse, wanted: Doubt) -> Option<Doubt>
    ensures { doubt_of result ≡ doubted hit.left (record_of wanted) }
{
    if hit.left < 3 { None } else { Some(wanted) }
}

/// The reply where this arm went off.
pub fn bar_reply(what: Arm) -> Reply
    ensures { result ≡ barred (bar_of what) }
{
    match what {
        Arm::Fail => Reply::DiskFault,
        Arm::Crash(_) => Reply::Crashed,
    }
}

/// The reply to a turn where this arm went off.
pub fn turn_bar_reply(what: Arm) -> TurnReply
    ensures { result ≡ turn_barred (bar_of what) }
{
    match what {
        Arm::Fail => TurnReply::DiskFault,
        Arm::Crash(_) => TurnReply::Crashed,
    }
}

/// What is left of a unit after a crash with this outcome. The arm stays.
fn remains_of_crashed(node: Node<MemDisk>, outcome: Outcome) -> Remains
    ensures left { IsLeftOf node result }
    ensures fused { (fuse : Option FuseValue) → IsFused (told_of node.journal.disk) fuse → IsFused (told_of result.disk) fuse }
    ensures few { taken node.past < 2 ^ 32 }
{
    let _taken = node.taken();
    let (part, disk, past) = node.close();
    let mut disk = disk;
    disk.crash(outcome);
    Remains { part, disk, past }
}

impl Slot {
    /// Arms its disk anew: of the strokes from now on, counted from 1, the one with this number is the counted one. The disk's clock isn't
    /// near its end. Takes no memory.
    pub fn arm(&mut self, stroke: u32, what: Arm)
        requires early { self.old.clock + 2000 ≤ last_count }
        requires number { (1 ≤ stroke) × (stroke ≤ 1000) }
        ensures { self.new ≡ record self.old { fuse = Some (record { left = stroke; what = what }) } }
    {
        match &mut self.seat {
            Seat::Up(node) => node.arm(stroke, what),
            Seat::Down(remains) => remains.disk.arm(stroke, what),
            Seat::Away => unreachable!(),
        }
        self.fuse = Some(Fuse { left: stroke, what });
    }

    /// A crash with this outcome. A unit that is up goes down, and one that is down stays as it is. Takes no memory. In linear time in
    /// the disk's bytes.
    pub fn crash(&mut self, outcome: Outcome) -> Reply
        ensures answer { crash_by self.old.health (server self.old) ≡ (result, server self.new) }
        ensures fell { self.old.health ≢ IsDown → self.new ≡ fallen self.old }
        ensures stays { self.old.health ≡ IsDown → self.new ≡ self.old }
    {
        match replace(&mut self.seat, Seat::Away) {
            Seat::Up(node) => {
                sit(
                    &mut self.seat,
                    Seat::Down(remains_of_crashed(node, outcome)),
                );
                Reply::Crashed
            }
            Seat::Down(remains) => {
                sit(&mut self.seat, Seat::Down(remains));
                Reply::Down
            }
            Seat::Away => unreachable!(),
        }
    }
}
