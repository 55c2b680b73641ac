//! How a unit takes steps.
ghost use Rattle.std.specs.Prelude.{◌≡◌, ◌≢◌, ◌+◌, ◌≤◌, ◌<◌, false, None, IfOk, IsErr};
ghost use Rattle.wf_model.specs.Limits.{max_steps};
ghost use Rattle.wf_model.specs.Faults.{last_count};
ghost use Rattle.wf_machine.specs.Server.{IsDown};
ghost use Rattle.wf_machine.specs.Lines.{bar_at, turn_by};
ghost use Rattle.wf_histories.specs.Histories.{taken};
ghost use Rattle.wf_bridge.specs.Full.{IsNotFull};
ghost use Rattle.wf_server.specs.Servers.{inputs_of};
ghost use Rattle.wf_slot.specs.Slots.{server, absent};
ghost use Rattle.wf_slot.specs.Answers.{Goes, TurnWrites};
ghost use Rattle.wf_slot.specs.Seats.{IsKept};
ghost use Rattle.wf_slot.specs.Writes.{TurnEnds, IsSpared};

use crate::fuse::{Fuse, fuse_after};
use crate::slot::falling::{doubt_after, seat_after, turn_bar_reply};
use crate::slot::{Doubt, Seat, Slot, sit};
use std::mem::replace;
use wf_disk::MemDisk;
use wf_machine::TurnReply;
use wf_model::{List, NoMemory, Update};
use wf_server::{Node, Turn, TurnFault};

/// How a turn of a unit that is up ended: it was answered, or this arm went off as it was written.
#[derive(Clone, Copy)]
pub enum TurnEnd {
    Answered(TurnReply),
    Broke(Fuse),
}

// Takes a step at a unit that is up and works.
fn turn_up(node: &mut Node<MemDisk>, fuse: &mut Option<Fuse>) -> Result<TurnEnd, NoMemory>
    requires healthy { node.old.journal.failed ≡ false }
    requires kept { IsKept node.old.part node.old.past node.old.journal.disk fuse.old None }
    requires early { node.old.journal.disk.clock + 2000 ≤ last_count }
    requires not_full { IsNotFull node.old.part node.old.past }
    requires steps { taken node.old.past < max_steps }
    ensures ends { IfOk result (TurnEnds node.old fuse.old node.new fuse.new) }
    ensures spared { IsErr result → (fuse.new ≡ None) × IsSpared node.old node.new }
{
    match node.turn() {
        Ok(Turn::Took(_)) => {
            let _disk = node.disk();
            *fuse = fuse_after(*fuse, 4);
            Ok(TurnEnd::Answered(TurnReply::Took(node.taken())))
        }
        Err(TurnFault::Waiting(absent)) => {
            let _part = node.part().data();
            Ok(TurnEnd::Answered(TurnReply::Waiting(absent)))
        }
        Err(TurnFault::DiskFailed) => match fuse.take() {
            Some(hit) => Ok(TurnEnd::Broke(hit)),
            None => unreachable!(),
        },
        Err(TurnFault::NoMemory) => {
            let _disk = node.disk();
            node.disarm();
            *fuse = None;
            Err(NoMemory)
        }
        Err(TurnFault::Reopen) => unreachable!(),
        Err(TurnFault::StepLimit) => unreachable!(),
        Err(TurnFault::JournalFull) => {
            let _disk = node.disk();
            unreachable!()
        }
    }
}

impl Slot {
    // The updates of the next step that it holds, in unit order. It isn't down.
    fn inputs(&self) -> Result<List<Update>, NoMemory>
        requires { self.now.health ≢ IsDown }
        ensures { IfOk result (λ inputs. inputs ≡ inputs_of self.now.came) }
    {
        match &self.seat {
            Seat::Up(node) => node.inputs(),
            Seat::Down(_) => unreachable!(),
            Seat::Away => unreachable!(),
        }
    }

    // The same if an arm is set. Without one no turn breaks off, so nothing is copied.
    fn inputs_in_doubt(&self) -> Result<List<Update>, NoMemory>
        requires { self.now.health ≢ IsDown }
        ensures { IfOk result (λ inputs. self.now.fuse ≢ None → inputs ≡ inputs_of self.now.came) }
    {
        match &self.fuse {
            Some(_) => self.inputs(),
            None => Ok(List::new(self.alloc)),
        }
    }

    /// Takes the next step, as the machine does. The disk's clock isn't near its end, the journal has room for every record, and a step is
    /// left. It refuses only if memory runs out. In linear time in the updates, the part and the view.
    pub fn turn(&mut self) -> Result<TurnReply, NoMemory>
        requires early { self.old.clock + 2000 ≤ last_count }
        requires not_full { IsNotFull self.old.part self.old.past }
        requires steps { taken self.old.past < max_steps }
        ensures answer { IfOk result (λ reply. turn_by (bar_at self.old.health) (absent self.old) (server self.old) ≡ (reply, server self.new)) }
        ensures writes { IfOk result (λ _. TurnWrites self.old self.new) }
        ensures goes { IfOk result (λ _. Goes 4 self.old self.new) }
    {
        if self.is_down() {
            return Ok(TurnReply::Down);
        }
        if !self.works() {
            return Ok(TurnReply::Reopen);
        }
        let inputs = self.inputs_in_doubt()?;
        let end = match &mut self.seat {
            Seat::Up(node) => turn_up(node, &mut self.fuse)?,
            Seat::Down(_) => unreachable!(),
            Seat::Away => unreachable!(),
        };
        match end {
            TurnEnd::Answered(reply) => Ok(reply),
            TurnEnd::Broke(hit) => {
                self.doubt = doubt_after(hit, Doubt::Turns(inputs));
                match replace(&mut self.seat, Seat::Away) {
                    Seat::Up(node) => sit(&mut self.seat, seat_after(node, hit.what)),
                    Seat::Down(_) => unreachable!(),
                    Seat::Away => unreachable!(),
                }
                Ok(turn_bar_reply(hit.what))
            }
        }
    }
}
