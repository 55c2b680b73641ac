//! A world: all servers of a chart.
ghost use Rattle.std.specs.Prelude.{◌≡◌, ◌↔◌, length, slice_get, false, None, IfOk, IfSome};
ghost use Rattle.wf_histories.specs.Laws.{AreLean};
ghost use Rattle.wf_world.specs.Mail.{AreLetters, AreOfHistories};
ghost use Rattle.wf_world.specs.States.{state_of, first_state};
ghost use Rattle.wf_world.specs.Sounds.{hist_of};
ghost use Rattle.wf_world.specs.Fleets.{units_of, DoWork, HaveDisks};

use crate::ActFault;
use crate::fleet::Fleet;
use crate::mail::Sent;
use std::alloc::Global;
use std::marker::Model;
use wf_disk::MemDisk;
use wf_drive::Servers;
use wf_machine::{Ending, Line, Reply};
use wf_model::{Checked, List, NoMemory, UnitId};
use wf_steps::History;

/// All servers of a chart, one for each unit, and every message that was ever sent. Contracts see its chart, its servers and messages, how
/// many lines it has acted, and whether a fault left it inside a call; `state_of` tells the machine that counts for it.
#[derive(Drop)]
pub struct World {
    fleet: Fleet,
    acted: u32,
    /// Whether it was left inside a call, by a fault. It answers `NoMemory` from then on.
    lost: bool,
}

impl Model for World {
    ghost use Rattle.wf_model.specs.contracts.expr.Expr as expr;
    ghost use Rattle.std.specs.Coded.{codes};
    ghost use Rattle.std.specs.Prelude.{◌≡◌, false};
    ghost use Rattle.wf_world.specs.Fleets.{FleetState};
    ghost use Rattle.wf_world.specs.States.{Kept, Stands};

    ghost Value = { Kept };

    ghost coded = { Prim.hlevel (codes, expr.the_row.coded) };

    ghost view = { λ world. record { chart = world.fleet.chart; slots = world.fleet.slots; messages = world.fleet.messages; acted = world.acted; lost = world.lost } };

    ghost invariant = { λ world. world.lost ≡ false → Stands world.fleet world.acted };
}

impl World {
    /// All units of a chart, up, each on an empty disk, with no message. It refuses with `NoMemory` alone. Grows with the units times the
    /// chart.
    pub fn start(alloc: Global, checked: Checked) -> Result<World, NoMemory>
        ensures { IfOk result (λ world. state_of world ≡ first_state checked) }
    {
        Ok(World {
            fleet: Fleet::start(alloc, checked)?,
            acted: 0,
            lost: false,
        })
    }

    /// The chart, lent. Takes no memory.
    pub fn checked(&self) -> &Checked
        ensures { result.now ≡ self.now.chart }
    {
        self.fleet.checked()
    }

    /// How many lines were acted. Takes no memory.
    pub fn acted(&self) -> u32
        ensures { result ≡ self.now.acted }
    {
        self.acted
    }

    /// Every message that was ever sent, lent, in the order of their numbers. Unless a fault left the world, the bytes of each spell its
    /// sender's update of its step, cut by what its receiver knows: as the machine counts it, and as the sender's history has it. Takes
    /// no memory.
    pub fn messages(&self) -> &List<Sent>
        ensures messages { result.now ≡ self.now.messages }
        ensures letters { self.now.lost ≡ false → AreLetters self.now.chart (state_of self.now).machine self.now.messages }
        ensures histories { self.now.lost ≡ false → AreOfHistories self.now.chart (hist_of (units_of self.now.slots)) self.now.messages }
    {
        self.fleet.messages()
    }

    /// The history of a unit that stands for sure, lent; none exactly if there is no such unit. Unless a fault left the world, it has as
    /// many units as the chart, each history follows the rules of its unit, and they agree, so the central law holds of them. Takes no
    /// memory.
    pub fn history(&self, unit: UnitId) -> Option<&History>
        ensures past { IfSome result (λ history. history.now.past ≡ hist_of (units_of self.now.slots) unit.0) }
        ensures none { (result ≡ None) ↔ (slice_get self.now.slots unit.0 ≡ None) }
        ensures count { self.now.lost ≡ false → length self.now.slots ≡ length self.now.chart.units }
        ensures lean { self.now.lost ≡ false → AreLean self.now.chart (hist_of (units_of self.now.slots)) }
    {
        self.fleet.history(unit)
    }

    /// The disks of all units, in order, where each unit works, as is so after an Ok of `finish`: the image of each holds its unit's
    /// history. It refuses only if memory runs out, and then all disks are dropped.
    pub fn close(self) -> Result<List<MemDisk>, NoMemory>
        requires works { DoWork self.slots }
        ensures { IfOk result (λ disks. HaveDisks self.slots disks) }
    {
        let World { fleet, .. } = self;
        fleet.close()
    }
}

impl Servers for World {
    ghost use Rattle.wf_world.specs.States.{WorldState, state_of, DoFit, Acts, Finishes, MayRefuse, MayBreak, first_does_fit, others_do_fit};

    type Line = Line;

    type Reply = Reply;

    type Ending = Ending;

    type Fault = ActFault;

    ghost State = { WorldState };

    ghost state = { state_of };

    ghost fits = { DoFit };

    ghost acts = { Acts };

    ghost finishes = { Finishes };

    ghost may_refuse = { MayRefuse };

    ghost may_break = { MayBreak };

    /// Acts a line. `SentLimit` only if the bytes of all messages would be more than 256 MiB after it. After a fault the world is only to
    /// be dropped.
    fn act(&mut self, line: &Line) -> Result<Reply, ActFault> {
        if self.lost {
            return Err(ActFault::NoMemory);
        }
        self.lost = true;
        let reply = self.fleet.act(line)?;
        self.acted += 1;
        self.lost = false;
        Ok(reply)
    }

    /// Removes all arms and recovers each unit that is down or has to be reopened: how many steps it has taken then and how many admissions
    /// it has, the sights of all units, and the places of the merged list. It refuses with `NoMemory` alone, and then the world is only to
    /// be dropped.
    fn finish(&mut self) -> Result<Ending, ActFault> {
        if self.lost {
            return Err(ActFault::NoMemory);
        }
        self.lost = true;
        let ending = self.fleet.finish()?;
        self.lost = false;
        Ok(ending)
    }

    ghost first_fits = { first_does_fit };

    ghost others_fit = { others_do_fit };
}
