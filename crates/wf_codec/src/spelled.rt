//! What each part of an update is spelled as.
ghost use Rattle.std.specs.Prelude.{◌≡◌, ◌++◌, ◌∷◌, [], ◌<◌, ◌^◌, OnOk, length};
ghost use Rattle.std.specs.List.{flat_map, AllByRecursion};
ghost use Rattle.wf_model.specs.Limits.{max_events, max_states, max_transitions};
ghost use Rattle.wf_codec.specs.Spelling.{two, four, state_spelling, event_spelling, trans_spelling, value_spelling, write_spelling, start_spelling, output_spelling, outer_spelling, spelling_of};
ghost use Rattle.wf_codec.specs.Parts.{changes_spelling, rest_spelling};
ghost use Rattle.wf_codec.specs.Ranges.{any_numbers, IsWrite, IsStart, IsOuter, IsInRange};

use crate::number::{spell_four, spell_two};
use crate::outer::{COMPLETE, HAPPEN};
use crate::spelling::{Spell, spell_items, spell_list};
use crate::update::TAG;
use crate::value::{BOOL, INT, TEXT};
use wf_model::{
    ActId, EventId, NoMemory, Outer, Output, StartAt, StateId, TransId, Update, Val, Write,
};

impl Spell for StateId {
    ghost spelling = { state_spelling };

    ghost fits = { λ s. s.0 < max_states };

    fn spell(&self, bytes: &mut Vec<u8>) -> Result<(), NoMemory> {
        spell_two(self.0, bytes)
    }
}

impl Spell for EventId {
    ghost spelling = { event_spelling };

    ghost fits = { λ e. e.0 < max_events };

    fn spell(&self, bytes: &mut Vec<u8>) -> Result<(), NoMemory> {
        spell_two(self.0, bytes)
    }
}

impl Spell for TransId {
    ghost spelling = { trans_spelling };

    ghost fits = { λ t. t.0 < max_transitions };

    fn spell(&self, bytes: &mut Vec<u8>) -> Result<(), NoMemory> {
        spell_two(self.0, bytes)
    }
}

impl Spell for Val {
    ghost spelling = { value_spelling };

    ghost fits = { λ _. Unit {0} };

    #[tactic(auto, unfolding(crate::specs::Spelling::value_spelling))]
    fn spell(&self, bytes: &mut Vec<u8>) -> Result<(), NoMemory> {
        match self {
            Val::Bool(truth) => bytes.extend_from_slice(&[BOOL, u8::from(*truth)])?,
            Val::Int(number) => {
                bytes.push(INT)?;
                bytes.extend_from_slice(&number.to_be_bytes())?;
            }
            Val::Text(text) => {
                bytes.extend_from_slice(&[TEXT, text.len() as u8])?;
                bytes.extend_from_slice(text.as_slice())?;
            }
        }
        Ok(())
    }
}

impl Spell for Write {
    ghost spelling = { write_spelling };

    ghost fits = { IsWrite };

    fn spell(&self, bytes: &mut Vec<u8>) -> Result<(), NoMemory> {
        spell_two(self.var.0, bytes)?;
        spell_two(self.trans.0, bytes)?;
        self.val.spell(bytes)
    }
}

impl Spell for StartAt {
    ghost spelling = { start_spelling };

    ghost fits = { IsStart };

    fn spell(&self, bytes: &mut Vec<u8>) -> Result<(), NoMemory> {
        spell_two(self.act.0, bytes)?;
        spell_two(self.trans.0, bytes)?;
        bytes.push(self.place)?;
        Ok(())
    }
}

impl Spell for Output {
    ghost spelling = { output_spelling };

    ghost fits = { λ o. o.var.0 < 2 ^ 16 };

    fn spell(&self, bytes: &mut Vec<u8>) -> Result<(), NoMemory> {
        spell_two(self.var.0, bytes)?;
        self.val.spell(bytes)
    }
}

/// Adds an event that happens.
fn spell_happening(event: EventId, bytes: &mut Vec<u8>) -> Result<(), NoMemory>
    requires { event.0 < 2 ^ 16 }
    ensures { OnOk result (bytes.new.items ≡ bytes.old.items ++ HAPPEN ∷ two event.0) }
{
    bytes.push(HAPPEN)?;
    spell_two(event.0, bytes)
}

/// Adds an item that is completed.
fn spell_completion(
    item: u32,
    act: ActId,
    outputs: &[Output],
    bytes: &mut Vec<u8>,
) -> Result<(), NoMemory>
    requires act { act.0 < 2 ^ 16 }
    requires count { length outputs.now < 256 }
    requires each { AllByRecursion (λ o. o.var.0 < 2 ^ 16) outputs.now }
    ensures { OnOk result (bytes.new.items ≡ bytes.old.items ++ COMPLETE ∷ four item ++ (two act.0 ++ length outputs.now ∷ flat_map output_spelling outputs.now)) }
{
    bytes.push(COMPLETE)?;
    spell_four(item, bytes)?;
    spell_two(act.0, bytes)?;
    bytes.push(outputs.len() as u8)?;
    spell_items(outputs, bytes)
}

impl Spell for Outer {
    ghost spelling = { outer_spelling };

    ghost fits = { IsOuter any_numbers };

    #[tactic(auto, unfolding(crate::specs::Spelling::outer_spelling))]
    fn spell(&self, bytes: &mut Vec<u8>) -> Result<(), NoMemory> {
        match self {
            Outer::Happen(event) => spell_happening(*event, bytes),
            Outer::Complete { item, act, outputs } => {
                spell_completion(*item, *act, outputs.as_slice(), bytes)
            }
        }
    }
}

/// Adds what an update changes at once: its states, its variables and the events that it raises.
#[tactic(auto, unfolding(crate::specs::Parts::changes_spelling), using(crate::proofs::Fits::flips_few, crate::proofs::Fits::writes_few, crate::proofs::Fits::raised_few))]
fn spell_changes(update: &Update, bytes: &mut Vec<u8>) -> Result<(), NoMemory>
    requires { IsInRange update.now }
    ensures { OnOk result (bytes.new.items ≡ bytes.old.items ++ changes_spelling update.now) }
{
    spell_list(update.flips.as_slice(), bytes)?;
    spell_list(update.writes.as_slice(), bytes)?;
    spell_list(update.raised.as_slice(), bytes)
}

/// Adds what an update starts, what fired, and the outers of the next step.
#[tactic(auto, unfolding(crate::specs::Parts::rest_spelling), using(crate::proofs::Fits::outers_fit))]
fn spell_rest(update: &Update, bytes: &mut Vec<u8>) -> Result<(), NoMemory>
    requires { IsInRange update.now }
    ensures { OnOk result (bytes.new.items ≡ bytes.old.items ++ rest_spelling update.now) }
{
    spell_list(update.starts.as_slice(), bytes)?;
    spell_list(update.fired.as_slice(), bytes)?;
    spell_list(update.outer.as_slice(), bytes)
}

impl Spell for Update {
    ghost spelling = { spelling_of };

    ghost fits = { IsInRange };

    fn spell(&self, bytes: &mut Vec<u8>) -> Result<(), NoMemory> {
        bytes.extend_from_slice(&[TAG, self.from.0 as u8])?;
        spell_four(self.step, bytes)?;
        spell_changes(self, bytes)?;
        spell_rest(self, bytes)
    }
}
