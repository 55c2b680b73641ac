//! The line `round`: all send to all, and then all take a step.
ghost use Rattle.std.specs.Prelude.{◌≡◌, ◌≢◌, ◌<◌, ◌+◌, ◌-◌, length, IfOk, IsErrOf, OnOk};
ghost use Rattle.std.specs.List.{range_with_len};
ghost use Rattle.wf_machine.specs.declared.line.Line.TheVariants as line;
ghost use Rattle.wf_machine.specs.Machine.{all_units};
ghost use Rattle.wf_machine.specs.Lines.{peers, after_delivery, after_exchange, after_posts, after_exchanges, turn_replies, after_turns, round};
ghost use Rattle.wf_world.specs.declared.fault.ActFault.TheVariants as faults;
ghost use Rattle.wf_world.specs.Fleets.{IsFleet, machine_at, HaveRoom, Leads, WearsNone, WearsAll, IsPast, Comes};

use crate::ActFault;
use crate::fleet::Fleet;
use wf_machine::{Reply, TurnReply};
use wf_model::{List, NoMemory, UnitId};

impl Fleet {
    // Delivers the messages after so many, up to the last one.
    fn deliver_after(&mut self, before: u32) -> Result<(), NoMemory>
        requires fleet { IsFleet self.old }
        ensures done { OnOk result (Comes self.old (after_delivery (machine_at self.old) (range_with_len (before + 1) (length self.old.messages - before))) self.new) }
        ensures wear { OnOk result (WearsNone self.old self.new) }
    {
        for place in before..self.mail.count() {
            self.deliver(place + 1)?;
        }
        Ok(())
    }

    // A unit sends to another one, and what it sent is delivered.
    fn exchange(&mut self, from: UnitId, to: UnitId) -> Result<(), ActFault>
        requires fleet { IsFleet self.old }
        requires from { from.0 < length self.old.chart.units }
        requires to { to.0 < length self.old.chart.units }
        requires other { from.0 ≢ to.0 }
        requires room { HaveRoom self.old }
        ensures done { OnOk result (Comes self.old (after_exchange (machine_at self.old) from.0 to.0) self.new) }
        ensures wear { OnOk result (WearsNone self.old self.new) }
        ensures over { IsErrOf result faults.SentLimit → IsPast self.old.chart (after_exchange (machine_at self.old) from.0 to.0) }
    {
        let before = self.mail.count();
        self.send(from, to)?;
        self.deliver_after(before)?;
        Ok(())
    }

    // A unit sends to each other one, in order.
    fn post_to_all(&mut self, from: UnitId) -> Result<(), ActFault>
        requires fleet { IsFleet self.old }
        requires from { from.0 < length self.old.chart.units }
        requires room { HaveRoom self.old }
        ensures done { OnOk result (Comes self.old (after_posts (machine_at self.old) from.0 (peers (machine_at self.old) from.0)) self.new) }
        ensures wear { OnOk result (WearsNone self.old self.new) }
        ensures over { IsErrOf result faults.SentLimit → IsPast self.old.chart (after_posts (machine_at self.old) from.0 (peers (machine_at self.old) from.0)) }
    {
        for to in 0..self.slots.len() {
            if to != from.0 as usize {
                self.exchange(from, UnitId(to as u32))?;
            }
        }
        Ok(())
    }

    // Each unit sends to each other one, in order.
    fn exchange_all(&mut self) -> Result<(), ActFault>
        requires fleet { IsFleet self.old }
        requires room { HaveRoom self.old }
        ensures done { OnOk result (Comes self.old (after_exchanges (machine_at self.old) (all_units (machine_at self.old))) self.new) }
        ensures wear { OnOk result (WearsNone self.old self.new) }
        ensures over { IsErrOf result faults.SentLimit → IsPast self.old.chart (after_exchanges (machine_at self.old) (all_units (machine_at self.old))) }
    {
        for from in 0..self.slots.len() {
            self.post_to_all(UnitId(from as u32))?;
        }
        Ok(())
    }

    // Each unit takes a step, in order.
    fn turn_all(&mut self) -> Result<List<TurnReply>, NoMemory>
        requires fleet { IsFleet self.old }
        requires room { HaveRoom self.old }
        ensures replies { IfOk result (λ replies. replies ≡ turn_replies (machine_at self.old) (all_units (machine_at self.old))) }
        ensures done { IfOk result (λ _. Comes self.old (after_turns (machine_at self.old) (all_units (machine_at self.old))) self.new) }
        ensures wear { IfOk result (λ _. WearsAll self.old self.new) }
    {
        let mut replies = List::new(self.alloc);
        for unit in 0..self.slots.len() {
            replies.push(self.turn(UnitId(unit as u32))?)?;
        }
        Ok(replies)
    }

    /// Every unit that is up sends its updates to every other one, and then each takes a step. `SentLimit` only if all messages would
    /// have too many bytes with those.
    pub fn round(&mut self) -> Result<Reply, ActFault>
        requires fleet { IsFleet self.old }
        requires room { HaveRoom self.old }
        ensures led { IfOk result (λ r. Leads self.old line.Round r self.new) }
        ensures wear { IfOk result (λ _. WearsAll self.old self.new) }
        ensures over { IsErrOf result faults.SentLimit → IsPast self.old.chart (round (machine_at self.old)).after }
    {
        self.exchange_all()?;
        let replies = self.turn_all()?;
        Ok(Reply::Round(replies))
    }
}
