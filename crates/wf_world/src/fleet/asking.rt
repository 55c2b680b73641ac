//! Lines that ask one unit to do or to show something.
ghost use Rattle.std.specs.Prelude.{◌≡◌, ◌<◌, ◌≤◌, length, IfOk};
ghost use Rattle.wf_machine.specs.declared.line.Line.TheVariants as line;
ghost use Rattle.wf_machine.specs.declared.reply.Reply.TheVariants as reply;
ghost use Rattle.wf_world.specs.Fleets.{IsFleet, HasRoom, Leads, WearsOne, WearsNone};

use crate::fleet::Fleet;
use wf_disk::{Arm, Outcome};
use wf_machine::{Reply, TurnReply};
use wf_model::{NoMemory, Outer, UnitId};

impl Fleet {
    /// A unit is asked, by a request, to admit an outer.
    pub fn admit(&mut self, unit: UnitId, request: u64, outer: &Outer) -> Result<Reply, NoMemory>
        requires fleet { IsFleet self.old }
        requires unit { unit.0 < length self.old.chart.units }
        requires room { HasRoom self.old unit.0 }
        ensures led { IfOk result (λ r. Leads self.old (line.Admit unit request outer.now) r self.new) }
        ensures wear { IfOk result (λ _. WearsOne unit.0 self.old self.new) }
    {
        self.slots[unit.0 as usize].admit(request, outer)
    }

    /// A unit takes the next step.
    pub fn turn(&mut self, unit: UnitId) -> Result<TurnReply, NoMemory>
        requires fleet { IsFleet self.old }
        requires unit { unit.0 < length self.old.chart.units }
        requires room { HasRoom self.old unit.0 }
        ensures led { IfOk result (λ r. Leads self.old (line.Turn unit) (reply.Turned r) self.new) }
        ensures wear { IfOk result (λ _. WearsOne unit.0 self.old self.new) }
    {
        self.slots[unit.0 as usize].turn()
    }

    /// A unit crashes between two calls.
    pub fn crash(&mut self, unit: UnitId, outcome: Outcome) -> Reply
        requires fleet { IsFleet self.old }
        requires unit { unit.0 < length self.old.chart.units }
        ensures led { Leads self.old (line.Crash unit outcome) result self.new }
        ensures wear { WearsOne unit.0 self.old self.new }
    {
        self.slots[unit.0 as usize].crash(outcome)
    }

    /// A unit's disk will fail or stop at a stroke.
    pub fn arm(&mut self, unit: UnitId, stroke: u32, what: Arm) -> Reply
        requires fleet { IsFleet self.old }
        requires unit { unit.0 < length self.old.chart.units }
        requires room { HasRoom self.old unit.0 }
        requires stroke { (1 ≤ stroke) × (stroke ≤ 1000) }
        ensures led { Leads self.old (line.Arm unit stroke what) result self.new }
        ensures wear { WearsOne unit.0 self.old self.new }
    {
        self.slots[unit.0 as usize].arm(stroke, what);
        Reply::Armed
    }

    /// A unit is started again.
    pub fn recover(&mut self, unit: UnitId) -> Result<Reply, NoMemory>
        requires fleet { IsFleet self.old }
        requires unit { unit.0 < length self.old.chart.units }
        requires room { HasRoom self.old unit.0 }
        ensures led { IfOk result (λ r. Leads self.old (line.Recover unit) r self.new) }
        ensures wear { IfOk result (λ _. WearsOne unit.0 self.old self.new) }
    {
        self.slots[unit.0 as usize].recover()
    }

    /// The sight of a unit.
    pub fn show(&self, unit: UnitId) -> Result<Reply, NoMemory>
        requires fleet { IsFleet self.now }
        requires unit { unit.0 < length self.now.chart.units }
        ensures led { IfOk result (λ r. Leads self.now (line.Show unit) r self.now) }
    {
        match self.slots[unit.0 as usize].show()? {
            Some(sight) => Ok(Reply::Shown(sight)),
            None => Ok(Reply::Down),
        }
    }

    /// The items of a unit.
    pub fn items(&self, unit: UnitId) -> Result<Reply, NoMemory>
        requires fleet { IsFleet self.now }
        requires unit { unit.0 < length self.now.chart.units }
        ensures led { IfOk result (λ r. Leads self.now (line.Items unit) r self.now) }
    {
        match self.slots[unit.0 as usize].items()? {
            Some(items) => Ok(Reply::Items(items)),
            None => Ok(Reply::Down),
        }
    }
}
