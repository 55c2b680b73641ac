//! How a unit admits.
ghost use Rattle.std.specs.Prelude.{◌≡◌, ◌+◌, ◌≤◌, false, length, None, IfOk, IsErr};
ghost use Rattle.wf_model.specs.Faults.{last_count};
ghost use Rattle.wf_machine.specs.Lines.{bar_at, asked, admit_by};
ghost use Rattle.wf_worlds.specs.Admitting.{lets_in};
ghost use Rattle.wf_bridge.specs.Full.{IsNotFull};
ghost use Rattle.wf_slot.specs.Slots.{server};
ghost use Rattle.wf_slot.specs.Answers.{Goes, AdmitWrites};
ghost use Rattle.wf_slot.specs.Seats.{IsKept};
ghost use Rattle.wf_slot.specs.Writes.{AdmitEnds, IsSpared};

use crate::fuse::{Fuse, fuse_after};
use crate::slot::falling::{bar_reply, doubt_after, seat_after};
use crate::slot::{Doubt, Seat, Slot, sit};
use std::mem::replace;
use wf_disk::MemDisk;
use wf_machine::Reply;
use wf_model::{Duplicate, NoMemory, Outer, OuterFault};
use wf_server::{AdmitFault, Admitted, Node};
use wf_steps::Admission;

/// How an admission of a unit that is up ended: it was answered, or this arm went off as it was written.
#[derive(Drop)]
pub enum AdmitEnd {
    Answered(Reply),
    Broke(Fuse),
}

// Admits an outer at a unit that is up and works.
fn admit_up(
    node: &mut Node<MemDisk>,
    fuse: &mut Option<Fuse>,
    request: u64,
    outer: &Outer,
) -> Result<AdmitEnd, NoMemory>
    requires healthy { node.old.journal.failed ≡ false }
    requires kept { IsKept node.old.part node.old.past node.old.journal.disk fuse.old None }
    requires early { node.old.journal.disk.clock + 2000 ≤ last_count }
    requires not_full { IsNotFull node.old.part node.old.past }
    ensures ends { IfOk result (AdmitEnds node.old fuse.old request outer.now node.new fuse.new) }
    ensures spared { IsErr result → (fuse.new ≡ None) × IsSpared node.old node.new }
{
    match node.admit(request, outer) {
        Ok(Admitted::New(number)) => {
            let _disk = node.disk();
            *fuse = fuse_after(*fuse, 4);
            Ok(AdmitEnd::Answered(Reply::New(number)))
        }
        Ok(Admitted::Again(number)) => Ok(AdmitEnd::Answered(Reply::Again(number))),
        Err(AdmitFault::RequestReused { number, .. }) => {
            Ok(AdmitEnd::Answered(Reply::Reused(number)))
        }
        Err(AdmitFault::WrongUnit) => {
            Ok(AdmitEnd::Answered(Reply::Refused(OuterFault::WrongUnit)))
        }
        Err(AdmitFault::NoItem) => Ok(AdmitEnd::Answered(Reply::Refused(OuterFault::NoItem))),
        Err(AdmitFault::AlreadyDone) => {
            Ok(AdmitEnd::Answered(Reply::Refused(OuterFault::AlreadyDone)))
        }
        Err(AdmitFault::WrongOutput) => {
            Ok(AdmitEnd::Answered(Reply::Refused(OuterFault::WrongOutput)))
        }
        Err(AdmitFault::DiskFailed) => match fuse.take() {
            Some(hit) => Ok(AdmitEnd::Broke(hit)),
            None => unreachable!(),
        },
        Err(AdmitFault::NoMemory) => {
            let _disk = node.disk();
            node.disarm();
            *fuse = None;
            Err(NoMemory)
        }
        Err(AdmitFault::Reopen) => unreachable!(),
        Err(AdmitFault::JournalFull) => {
            let _disk = node.disk();
            unreachable!()
        }
    }
}

impl Slot {
    /// Admits an outer by a request, as the machine does. The disk's clock isn't near its end, and the journal has room for every record.
    /// It refuses only if memory runs out, and then it is some unit. In constant time on average in the history, in linear time in the
    /// part and the outer.
    pub fn admit(&mut self, request: u64, outer: &Outer) -> Result<Reply, NoMemory>
        requires early { self.old.clock + 2000 ≤ last_count }
        requires not_full { IsNotFull self.old.part self.old.past }
        ensures answer { IfOk result (λ reply.
            admit_by (bar_at self.old.health) (asked request (server self.old).admissions) (lets_in self.old.part self.old.past outer.now) (server self.old) (record { request = request; outer = outer.now })
            ≡ (reply, server self.new)) }
        ensures writes { IfOk result (λ _. AdmitWrites self.old (record { request = request; outer = outer.now }) self.new) }
        ensures goes { IfOk result (λ _. Goes 4 self.old self.new) }
    {
        if self.is_down() {
            return Ok(Reply::Down);
        }
        if !self.works() {
            return Ok(Reply::Reopen);
        }
        let kept = outer.copy(self.alloc)?;
        let end = match &mut self.seat {
            Seat::Up(node) => admit_up(node, &mut self.fuse, request, outer)?,
            Seat::Down(_) => unreachable!(),
            Seat::Away => unreachable!(),
        };
        match end {
            AdmitEnd::Answered(reply) => Ok(reply),
            AdmitEnd::Broke(hit) => {
                let record = Doubt::Admits(Admission {
                    request,
                    outer: kept,
                });
                self.doubt = doubt_after(hit, record);
                match replace(&mut self.seat, Seat::Away) {
                    Seat::Up(node) => sit(&mut self.seat, seat_after(node, hit.what)),
                    Seat::Down(_) => unreachable!(),
                    Seat::Away => unreachable!(),
                }
                Ok(bar_reply(hit.what))
            }
        }
    }
}
