//! How a unit receives.
ghost use Rattle.std.specs.Prelude.{◌≢◌, Option, None};
ghost use Rattle.wf_machine.specs.Server.{IsDown};
ghost use Rattle.wf_slot.specs.declared.fuse.Fuse.{Fuse as FuseValue};
ghost use Rattle.wf_slot.specs.declared.slot.Doubt.{Doubt as DoubtValue};
ghost use Rattle.wf_slot.specs.declared.slot.Seat.TheVariants as seats;
ghost use Rattle.wf_slot.specs.Answers.{MayCome, ReceiveAnswers};
ghost use Rattle.wf_slot.specs.Seats.{state_of, IsSlot};

use crate::slot::{Seat, Slot};
use wf_disk::MemDisk;
use wf_machine::Reply;
use wf_model::Update;
use wf_server::{Node, ReceiveFault, Received};

// Takes in an update at a unit that is up.
fn receive_up(node: &mut Node<MemDisk>, update: Update) -> Reply
    requires { MayCome (state_of (seats.Up node.old) None None) update }
    ensures answers { (fuse : Option FuseValue) (doubt : Option DoubtValue) → ReceiveAnswers (state_of (seats.Up node.old) fuse doubt) update result (state_of (seats.Up node.new) fuse doubt) }
    ensures sits { (fuse : Option FuseValue) (doubt : Option DoubtValue) → IsSlot (seats.Up node.old) fuse doubt → IsSlot (seats.Up node.new) fuse doubt }
{
    match node.receive(update) {
        Ok(Received::Old) => Reply::Old,
        Ok(Received::Same) => Reply::Same,
        Ok(Received::Fresh) => Reply::Fresh,
        Err(ReceiveFault::NotPeer) => unreachable!(),
        Err(ReceiveFault::TooFar { .. }) => unreachable!(),
        Err(ReceiveFault::Clash { .. }) => unreachable!(),
        Err(ReceiveFault::Unfit) => unreachable!(),
    }
}

impl Slot {
    /// Takes in an update that comes: `Down`, `Old`, `Same` or `Fresh`, as the machine does. Unless it is down, another unit sent the
    /// update, of one of the next two steps at most; it fits the part; and what is held of its sender and step is the same. Takes no
    /// memory. In linear time in the update times the part.
    pub fn receive(&mut self, update: Update) -> Reply
        requires { self.old.health ≢ IsDown → MayCome self.old update }
        ensures { ReceiveAnswers self.old update result self.new }
    {
        match &mut self.seat {
            Seat::Up(node) => receive_up(node, update),
            Seat::Down(_) => Reply::Down,
            Seat::Away => unreachable!(),
        }
    }
}
