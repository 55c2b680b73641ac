//! One unit of a world.
ghost use Rattle.std.specs.Prelude.{◌≡◌, ◌↔◌, ◌≤◌, length, None, IsTrue, IfOk};
ghost use Rattle.wf_disk.specs.Memory.{image_of};
ghost use Rattle.wf_machine.specs.Server.{Works, IsDown};
ghost use Rattle.wf_histories.specs.Histories.{taken};
ghost use Rattle.wf_server.specs.Images.{Holds};
ghost use Rattle.wf_slot.specs.declared.slot.Seat.TheVariants as seats;
ghost use Rattle.wf_slot.specs.Units.{new_unit};
ghost use Rattle.wf_slot.specs.Slots.{unit_of};

mod falling;
mod receiving;
mod recovery;
mod showing;
mod stepping;
mod writing;

use crate::fuse::Fuse;
use std::alloc::Global;
use std::marker::Model;
use std::mem::{forget, replace};
use wf_disk::MemDisk;
use wf_model::{List, NoMemory, Update};
use wf_parts::Part;
use wf_server::{Node, NodeFault};
use wf_steps::{Admission, History};

/// A record that may stand in the journal or not.
#[derive(Drop)]
enum Doubt {
    Admits(Admission),
    /// The Turn that takes in these updates.
    Turns(List<Update>),
}

/// What is left of a unit that went down: its part and its disk, and the history that stands for sure.
#[derive(Drop)]
struct Remains {
    part: Part,
    disk: MemDisk,
    past: History,
}

/// Where a unit sits.
#[derive(Drop)]
enum Seat {
    Up(Node<MemDisk>),
    Down(Remains),
    /// Only while a call works on it.
    Away,
}

// Seats a unit where nothing sits.
fn sit(place: &mut Seat, unit: Seat)
    requires { place.old ≡ seats.Away }
    ensures { place.new ≡ unit }
{
    forget(replace(place, unit));
}

/// One unit of a world: its server over a disk in memory, or what is left of it while it is down. Contracts see its part, whether it is
/// up, the history that stands for sure, what it holds of its peers, the arm of its disk, and the record that may stand or not.
#[derive(Drop)]
pub struct Slot {
    seat: Seat,
    fuse: Option<Fuse>,
    doubt: Option<Doubt>,
    alloc: Global,
}

impl Model for Slot {
    ghost use Rattle.wf_model.specs.contracts.expr.Expr as expr;
    ghost use Rattle.std.specs.Coded.{codes};
    ghost use Rattle.wf_slot.specs.Slots.{SlotState};

    ghost Value = { SlotState };

    ghost coded = { Prim.hlevel (codes, expr.the_row.coded) };

    ghost use Rattle.wf_slot.specs.Seats.{state_of, IsSlot};

    ghost view = { λ slot. state_of slot.seat slot.fuse slot.doubt };

    ghost invariant = { λ slot. IsSlot slot.seat slot.fuse slot.doubt };
}

// Want of memory, the only fault of a start on a new disk.
fn want_of_memory(fault: &NodeFault) -> NoMemory
    requires { fault.now ≡ NodeFault.NoMemory }
{
    match fault {
        NodeFault::NoMemory => NoMemory,
        NodeFault::DiskFailed => unreachable!(),
        NodeFault::Foreign { .. } => unreachable!(),
        NodeFault::BadRecord { .. } => unreachable!(),
        NodeFault::BadFrame { .. } => unreachable!(),
    }
}

impl Slot {
    /// The unit of this part over a new disk. It refuses only if memory runs out. In linear time in the part.
    pub fn start(alloc: Global, part: Part) -> Result<Slot, NoMemory>
        ensures new { IfOk result (λ slot. unit_of slot ≡ new_unit part.unit.0) }
        ensures part { IfOk result (λ slot. slot.part ≡ part) }
        ensures certain { IfOk result (λ slot. slot.doubt ≡ None) }
        ensures clock { IfOk result (λ slot. slot.clock ≤ 7) }
    {
        match Node::start(alloc, part, MemDisk::new(alloc)) {
            Ok(node) => {
                let _disk = node.disk();
                Ok(Slot {
                    seat: Seat::Up(node),
                    fuse: None,
                    doubt: None,
                    alloc,
                })
            }
            Err(refused) => Err(want_of_memory(&refused.fault)),
        }
    }

    /// Whether it is down. Takes no memory.
    pub fn is_down(&self) -> bool
        ensures { IsTrue result ↔ (self.now.health ≡ IsDown) }
    {
        match &self.seat {
            Seat::Up(_) => false,
            Seat::Down(_) => true,
            Seat::Away => unreachable!(),
        }
    }

    // Whether it is up, and no call of its disk failed.
    fn works(&self) -> bool
        ensures tells { IsTrue result ↔ (self.now.health ≡ Works) }
        ensures certain { IsTrue result → self.now.doubt ≡ None }
    {
        match &self.seat {
            Seat::Up(node) => !node.failed(),
            Seat::Down(_) => false,
            Seat::Away => unreachable!(),
        }
    }

    /// How many steps it took for sure. Takes no memory.
    pub fn taken(&self) -> u32
        ensures { result ≡ taken self.now.past }
    {
        match &self.seat {
            Seat::Up(node) => node.taken(),
            Seat::Down(remains) => remains.past.turns().len() as u32,
            Seat::Away => unreachable!(),
        }
    }

    // How many requests it admitted for sure.
    fn admitted(&self) -> u64
        ensures { result ≡ length self.now.past.admissions }
    {
        match &self.seat {
            Seat::Up(node) => node.admitted(),
            Seat::Down(remains) => remains.past.admissions().len() as u64,
            Seat::Away => unreachable!(),
        }
    }

    /// The history that stands for sure, lent. Takes no memory.
    pub fn history(&self) -> &History
        ensures { result.now.past ≡ self.now.past }
    {
        match &self.seat {
            Seat::Up(node) => node.history(),
            Seat::Down(remains) => &remains.past,
            Seat::Away => unreachable!(),
        }
    }

    /// Gives part and disk back. The disk's image holds the history.
    pub fn close(self) -> (Part, MemDisk)
        requires { self.health ≡ Works }
        ensures part { result.0 ≡ self.part }
        ensures image { Holds self.part self.past (image_of result.1) }
    {
        let Slot { seat, .. } = self;
        match seat {
            Seat::Up(node) => {
                let _disk = node.disk();
                let (part, disk, _past) = node.close();
                (part, disk)
            }
            Seat::Down(remains) => (remains.part, remains.disk),
            Seat::Away => unreachable!(),
        }
    }
}
