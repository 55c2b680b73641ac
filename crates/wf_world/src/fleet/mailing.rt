//! Lines that send and deliver messages.
ghost use Rattle.std.specs.Prelude.{◌≡◌, ◌≢◌, ◌⊎◌, ◌<◌, ◌≤◌, ◌+◌, Some, length, IfOk, IfSome, IsErrOf, OnOk};
ghost use Rattle.wf_codec.specs.Ranges.{IsUpdate};
ghost use Rattle.wf_codec.specs.Spelling.{spelling_of};
ghost use Rattle.wf_model.specs.declared.update.Update.{Update as UpdateValue};
ghost use Rattle.wf_machine.specs.declared.line.Line.TheVariants as line;
ghost use Rattle.wf_machine.specs.Server.{IsDown};
ghost use Rattle.wf_machine.specs.Lines.{send};
ghost use Rattle.wf_histories.specs.Histories.{taken};
ghost use Rattle.wf_world.specs.declared.fault.ActFault.TheVariants as faults;
ghost use Rattle.wf_world.specs.Mail.{sent_at};
ghost use Rattle.wf_world.specs.Fleets.{IsFleet, machine_at, slot_at, HaveRoom, Leads, WearsNone, IsPast, IsPost, Posts, Overflows};

use crate::fleet::Fleet;
use crate::{ActFault, Sent};
use std::alloc::Global;
use wf_codec::{CodecFault, decode};
use wf_machine::Reply;
use wf_model::{Bytes, List, NoMemory, UnitId, Update};

// The update that these bytes spell.
fn read_letter(alloc: Global, bytes: &[u8]) -> Result<Update, NoMemory>
    requires { (update : UpdateValue) × IsUpdate update × (bytes.now ≡ spelling_of update) }
    ensures { (update : UpdateValue) → IsUpdate update → bytes.now ≡ spelling_of update → IfOk result (λ read. read ≡ update) }
{
    match decode(alloc, bytes) {
        Ok((update, _)) => Ok(update),
        Err(CodecFault::NoMemory) => Err(NoMemory),
        // Bytes that spell an update have no other fault.
        Err(CodecFault::Short) => unreachable!(),
        Err(CodecFault::BadTag) => unreachable!(),
        Err(CodecFault::BadField { .. }) => unreachable!(),
    }
}

impl Fleet {
    // The bytes of the update of a step from a unit that is up to another one. Those that were sent within a round are copied: a unit
    // sends each update twice, first as that of its next step.
    fn letter(&self, from: UnitId, to: UnitId, step: u32) -> Result<Bytes, NoMemory>
        requires fleet { IsFleet self.now }
        requires from { from.0 < length self.now.chart.units }
        requires to { to.0 < length self.now.chart.units }
        requires other { from.0 ≢ to.0 }
        requires up { (slot_at self.now from.0).health ≢ IsDown }
        requires first { 1 ≤ step }
        requires kept { (step ≡ taken (slot_at self.now from.0).past) ⊎ (step ≡ taken (slot_at self.now from.0).past + 1) }
        ensures post { IfOk result (λ bytes. IsPost self.now from to step (record { sender = from; receiver = to; step = step; bytes = bytes })) }
        ensures some { IfOk result (λ bytes. 1 ≤ length bytes) }
    {
        let units = self.slots.len();
        let round = units.saturating_mul(units).saturating_mul(2);
        match self.mail.recent(from, to, step, round) {
            Some(sent) => List::from_slice(self.alloc, sent.bytes.as_slice()),
            None => self.slots[from.0 as usize].letter(to, step),
        }
    }

    // Posts the update of a step from a unit that is up to another one.
    fn post(&mut self, from: UnitId, to: UnitId, step: u32) -> Result<(), ActFault>
        requires fleet { IsFleet self.old }
        requires from { from.0 < length self.old.chart.units }
        requires to { to.0 < length self.old.chart.units }
        requires other { from.0 ≢ to.0 }
        requires up { (slot_at self.old from.0).health ≢ IsDown }
        requires first { 1 ≤ step }
        requires kept { (step ≡ taken (slot_at self.old from.0).past) ⊎ (step ≡ taken (slot_at self.old from.0).past + 1) }
        ensures posted { OnOk result (Posts self.old from to step self.new) }
        ensures over { IsErrOf result faults.SentLimit → Overflows self.old from to step }
    {
        let bytes = self.letter(from, to, step)?;
        self.mail.post(Sent {
            sender: from,
            receiver: to,
            step,
            bytes,
        })
    }

    /// A unit sends another the updates that it keeps. `SentLimit` only if all messages would have too many bytes with them.
    pub fn send(&mut self, from: UnitId, to: UnitId) -> Result<Reply, ActFault>
        requires fleet { IsFleet self.old }
        requires from { from.0 < length self.old.chart.units }
        requires to { to.0 < length self.old.chart.units }
        requires other { from.0 ≢ to.0 }
        requires room { HaveRoom self.old }
        ensures led { IfOk result (λ r. Leads self.old (line.Send from to) r self.new) }
        ensures wear { IfOk result (λ _. WearsNone self.old self.new) }
        ensures over { IsErrOf result faults.SentLimit → IsPast self.old.chart (send (machine_at self.old) from.0 to.0).after }
    {
        let slot = &self.slots[from.0 as usize];
        if slot.is_down() {
            return Ok(Reply::Down);
        }
        let taken = slot.taken();
        let first = self.mail.count() + 1;
        if taken == 0 {
            self.post(from, to, 1)?;
            return Ok(Reply::Sent {
                first,
                second: None,
            });
        }
        self.post(from, to, taken)?;
        self.post(from, to, taken + 1)?;
        Ok(Reply::Sent {
            first,
            second: Some(first + 1),
        })
    }

    // The reply to a message whose bytes needn't be read: its receiver is down, or has taken its step.
    fn unread(&self, number: u32, sent: &Sent) -> Option<Reply>
        requires fleet { IsFleet self.now }
        requires sent { sent_at self.now.messages number ≡ Some sent.now }
        ensures { IfSome result (λ r. Leads self.now (line.Deliver number) r self.now) }
    {
        let slot = &self.slots[sent.receiver.0 as usize];
        if slot.is_down() {
            Some(Reply::Down)
        } else if sent.step <= slot.taken() {
            Some(Reply::Old)
        } else {
            None
        }
    }

    /// The message with this number, counted from 1, comes to the unit that it was sent to.
    pub fn deliver(&mut self, number: u32) -> Result<Reply, NoMemory>
        requires fleet { IsFleet self.old }
        ensures led { IfOk result (λ r. Leads self.old (line.Deliver number) r self.new) }
        ensures wear { IfOk result (λ _. WearsNone self.old self.new) }
    {
        let Some(sent) = self.mail.get(number) else {
            return Ok(Reply::NoMessage);
        };
        if let Some(reply) = self.unread(number, sent) {
            return Ok(reply);
        }
        let receiver = sent.receiver.0 as usize;
        let update = read_letter(self.alloc, sent.bytes.as_slice())?;
        Ok(self.slots[receiver].receive(update))
    }
}
