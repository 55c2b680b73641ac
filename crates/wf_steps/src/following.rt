//! Records of a journal, one after another.
ghost use Rattle.std.specs.Prelude.{◌≡◌, ◌+◌, length, Some, None, OnOk, IsErrOf};
ghost use Rattle.wf_journal.specs.Frames.{header};
ghost use Rattle.wf_codec.specs.Records.{IsRecordInRange};
ghost use Rattle.wf_codec.specs.declared.record.JournalRecord.TheVariants.{Admit, Turn};
ghost use Rattle.wf_worlds.specs.Ends.{end_of_history};
ghost use Rattle.wf_steps.specs.Records.{admission_follows, turn_follows, after, after_body};

use crate::Replica;
use crate::fitting::are_inputs;
use std::alloc::Global;
use wf_codec::{JournalRecord, RecordFault, decode_record};
use wf_model::limits::MAX_STEPS;
use wf_model::{List, NoMemory, Outer, Update};

/// Why a record isn't taken.
#[derive(Drop)]
pub enum Unfollowed {
    /// It doesn't follow those before it.
    Misfit,
    /// Memory ran out.
    NoMemory,
}

impl From<RecordFault> for Unfollowed {
    ghost use Rattle.std.specs.Prelude.{◌≡◌};
    ghost use Rattle.wf_steps.specs.Following.{unfollowed};

    ghost from_gives = { λ fault made. made ≡ unfollowed fault };

    fn from(fault: RecordFault) -> Unfollowed {
        match fault {
            RecordFault::NotRecord => Unfollowed::Misfit,
            RecordFault::NoMemory => Unfollowed::NoMemory,
        }
    }
}

impl From<NoMemory> for Unfollowed {
    ghost use Rattle.std.specs.Prelude.{◌≡◌};
    ghost use Rattle.wf_steps.specs.declared.following.Unfollowed.TheVariants as un;

    ghost from_gives = { λ _ unfollowed. unfollowed ≡ un.NoMemory };

    fn from(_: NoMemory) -> Unfollowed {
        Unfollowed::NoMemory
    }
}

/// Takes a record, if it follows those before it. `Misfit` comes exactly if it doesn't.
#[tactic(auto, unfolding(crate::specs::Records::after))]
pub fn follow(alloc: Global, replica: &mut Replica, entry: JournalRecord) -> Result<(), Unfollowed>
    requires { IsRecordInRange entry }
    ensures part { replica.new.part ≡ replica.old.part }
    ensures ok { OnOk result (after replica.old.part replica.old.past entry ≡ Some replica.new.past) }
    ensures misfit { IsErrOf result Unfollowed.Misfit → after replica.old.part replica.old.past entry ≡ None }
{
    match entry {
        JournalRecord::Head { .. } => Err(Unfollowed::Misfit),
        JournalRecord::Admit { request, outer } => follow_admit(replica, request, outer),
        JournalRecord::Turn {
            step,
            inputs,
            sealed,
        } => follow_turn(alloc, replica, step, inputs, sealed),
    }
}

// Whether an admission follows.
fn admission_follows(replica: &Replica, request: u64, outer: &Outer) -> bool
    ensures { result ≡ admission_follows replica.now.part replica.now.past request outer.now }
{
    replica.find(request).is_none() && replica.lets_in(outer).is_ok()
}

// Takes an admission.
fn follow_admit(replica: &mut Replica, request: u64, outer: Outer) -> Result<(), Unfollowed>
    ensures part { replica.new.part ≡ replica.old.part }
    ensures ok { OnOk result (after replica.old.part replica.old.past (Admit request outer) ≡ Some replica.new.past) }
    ensures misfit { IsErrOf result Unfollowed.Misfit → after replica.old.part replica.old.past (Admit request outer) ≡ None }
{
    if !admission_follows(replica, request, &outer) {
        return Err(Unfollowed::Misfit);
    }
    replica.reserve_admit()?;
    replica.admit(request, outer);
    Ok(())
}

// Whether a Turn follows.
fn turn_follows(replica: &Replica, step: u32, inputs: &[Update], sealed: u32) -> bool
    ensures { result ≡ turn_follows replica.now.part replica.now.past step inputs.now sealed }
{
    let taken = replica.taken();
    step == taken + 1
        && taken < MAX_STEPS
        && sealed == replica.next_sealed()
        && are_inputs(replica.part().data(), step, inputs)
}

// Takes a Turn.
fn follow_turn(
    alloc: Global,
    replica: &mut Replica,
    step: u32,
    inputs: List<Update>,
    sealed: u32,
) -> Result<(), Unfollowed>
    requires { IsRecordInRange (Turn step inputs sealed) }
    ensures part { replica.new.part ≡ replica.old.part }
    ensures ok { OnOk result (after replica.old.part replica.old.past (Turn step inputs sealed) ≡ Some replica.new.past) }
    ensures misfit { IsErrOf result Unfollowed.Misfit → after replica.old.part replica.old.past (Turn step inputs sealed) ≡ None }
{
    if !turn_follows(replica, step, inputs.as_slice(), sealed) {
        return Err(Unfollowed::Misfit);
    }
    let prepared = replica.prepare(alloc, inputs)?;
    replica.reserve_turn(&prepared)?;
    replica.turn(prepared);
    Ok(())
}

/// Takes the record that has this body, if it is one and follows those before it. `Misfit` comes exactly if it is none or doesn't follow.
pub fn take_body(alloc: Global, replica: &mut Replica, body: &[u8]) -> Result<(), Unfollowed>
    ensures part { replica.new.part ≡ replica.old.part }
    ensures ok { OnOk result (after_body replica.old.part replica.old.past body.now ≡ Some replica.new.past) }
    ensures misfit { IsErrOf result Unfollowed.Misfit → after_body replica.old.part replica.old.past body.now ≡ None }
    ensures grows { OnOk result (end_of_history replica.new.part replica.new.past ≡ end_of_history replica.old.part replica.old.past + (header + length body.now)) }
{
    let entry = decode_record(alloc, body)?;
    follow(alloc, replica, entry)
}
