//! The messages of a world.
ghost use Rattle.std.specs.Prelude.{◌≡◌, ◌+◌, ◌-◌, ◌<◌, ◌≤◌, ◌∷◌, ◌++◌, [], length, drop, find, IsErr, IsErrOf, OnOk};
ghost use Rattle.std.specs.Option.{option_copied};
ghost use Rattle.wf_model.specs.Limits.{max_sent};
ghost use Rattle.wf_world.specs.Mail.{is_of};

use crate::ActFault;
use std::alloc::Global;
use std::marker::Model;
use wf_model::limits::MAX_SENT;
use wf_model::{Bytes, List, UnitId};

/// The update of a step, as bytes, on its way from one unit to another.
#[derive(Drop)]
pub struct Sent {
    pub sender: UnitId,
    pub receiver: UnitId,
    pub step: u32,
    pub bytes: Bytes,
}

/// All messages that were ever sent, in order, each kept once. They have at most 256 MiB.
#[derive(Drop)]
pub struct Mail {
    messages: List<Sent>,
    /// How many bytes they have.
    sent: u64,
}

impl Model for Mail {
    ghost use Rattle.std.specs.Prelude.{List};
    ghost use Rattle.wf_world.specs.declared.mail.Sent.{Sent};
    ghost use Rattle.wf_world.specs.Mail.{IsCounted};

    ghost Value = { List Sent };

    ghost view = { λ mail. mail.messages };

    ghost invariant = { λ mail. IsCounted mail.messages mail.sent };
}

// Among these messages the first one of this step from one unit to another, if there is one.
fn first_of(messages: &[Sent], sender: UnitId, receiver: UnitId, step: u32) -> Option<&Sent>
    ensures { option_copied result ≡ find (is_of sender.0 receiver.0 step) messages.now }
{
    messages.iter().find(|x| x.step == step && x.sender.0 == sender.0 && x.receiver.0 == receiver.0)
}

impl Mail {
    ghost use Rattle.wf_world.specs.Mail.{bytes_in, sent_at};

    /// No message. Takes no memory.
    pub fn new(alloc: Global) -> Mail
        ensures { result ≡ [] }
    {
        Mail {
            messages: List::new(alloc),
            sent: 0,
        }
    }

    /// How many messages were sent. Takes no memory.
    pub fn count(&self) -> u32
        ensures count { result ≡ length self.now }
        ensures few { result ≤ max_sent }
    {
        self.messages.len() as u32
    }

    /// All messages, lent, in the order of their numbers. Takes no memory.
    pub fn messages(&self) -> &List<Sent>
        ensures { result.now ≡ self.now }
    {
        &self.messages
    }

    /// The message with this number, counted from 1. Takes no memory.
    pub fn get(&self, number: u32) -> Option<&Sent>
        ensures { option_copied result ≡ sent_at self.now number }
    {
        match number.checked_sub(1) {
            Some(place) => self.messages.get(place as usize),
            None => None,
        }
    }

    /// Among the last so many messages the first one of this step from one unit to another, if there is one. In linear time in so many.
    /// Takes no memory.
    pub fn recent(&self, sender: UnitId, receiver: UnitId, step: u32, last: usize) -> Option<&Sent>
        ensures { option_copied result ≡ find (is_of sender.0 receiver.0 step) (drop (length self.now - last) self.now) }
    {
        let start = self.messages.len().saturating_sub(last);
        first_of(&self.messages.as_slice()[start..], sender, receiver, step)
    }

    /// Adds a message of at least one byte. `SentLimit` exactly if all messages would have more than 256 MiB with it, but
    /// for want of memory. After a refusal the messages are as before. In constant time on average.
    pub fn post(&mut self, message: Sent) -> Result<(), ActFault>
        requires { 1 ≤ length message.bytes }
        ensures sent { OnOk result (self.new ≡ self.old ++ message ∷ []) }
        ensures few { bytes_in self.new ≤ max_sent }
        ensures over { IsErrOf result ActFault.SentLimit → max_sent < bytes_in self.old + length message.bytes }
        ensures refused { IsErr result → self.new ≡ self.old }
    {
        let sent = self.sent + message.bytes.len() as u64;
        if sent > MAX_SENT as u64 {
            return Err(ActFault::SentLimit);
        }
        if self.messages.push(message).is_err() {
            return Err(ActFault::NoMemory);
        }
        self.sent = sent;
        Ok(())
    }
}
