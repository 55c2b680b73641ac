//! How a node takes steps.
ghost use Rattle.std.specs.Prelude.{◌≡◌, ◌≢◌, ◌+◌, ◌<◌, ◌≤◌, ◌^◌, ℕ, None, false, true, Ok, Err, length, IfOk, IfErr, IsOk, IsErr, IsErrOf, OnOk};
ghost use Rattle.std.specs.Option.{ForSome};
ghost use Rattle.wf_model.specs.Limits.{max_steps};
ghost use Rattle.wf_codec.specs.Bodies.{IsBodyOf};
ghost use Rattle.wf_codec.specs.Records.{record_spelling};
ghost use Rattle.wf_journal.specs.Room.{UsesRoom};
ghost use Rattle.wf_histories.specs.Histories.{taken};
ghost use Rattle.wf_worlds.specs.Ends.{frame_size, longest_turn};
ghost use Rattle.wf_steps.specs.Growing.{MayTurn};
ghost use Rattle.wf_steps.specs.Replicas.{prepared_of};
ghost use Rattle.wf_worlds.specs.Growing.{turned};
ghost use Rattle.wf_server.specs.Servers.{held, held_in, told_by, turn_record, with_turn, inputs_of};
ghost use Rattle.wf_server.specs.Inbox.{AllCame, IsInbox};
ghost use Rattle.wf_server.specs.Images.{CrashLeaves};
ghost use Rattle.wf_server.specs.Running.{RunsOn};
ghost use Rattle.wf_server.specs.Answers.{CanTurn, TurnAnswers};
ghost use Rattle.wf_server.specs.Nodes.{IsReady};

use crate::node::inbox::{copies_of, go_on, missing_peers};
use crate::node::{Node, Ready};
use crate::{Turn, TurnFault};
use std::alloc::Global;
use wf_disk::Disk;
use wf_journal::Journal;
use wf_model::limits::MAX_STEPS;
use wf_model::{NoMemory, Update};
use wf_steps::Replica;

// Works the Turn out that takes in what came, with its body.
fn work_out(alloc: Global, replica: &Replica, came: &[Option<Update>]) -> Result<Ready, NoMemory>
    requires { MayTurn replica.now.part replica.now.past (inputs_of came.now) }
    ensures prepared { IfOk result (λ ready. ready.prepared ≡ prepared_of replica.now.part replica.now.past (inputs_of came.now)) }
    ensures few { IfOk result (λ ready. length ready.prepared.starts < 2 ^ 32) }
    ensures body { IfOk result (λ ready. IsBodyOf (turn_record replica.now.past came.now) ready.body) }
    ensures short { IfOk result (λ ready. length ready.body ≤ longest_turn) }
{
    let inputs = copies_of(alloc, came)?;
    let prepared = replica.prepare(alloc, inputs)?;
    let body = replica.turn_body(alloc, &prepared)?;
    Ok(Ready { prepared, body })
}

// Works the Turn out, and makes room for it.
fn make_ready<D: Disk>(
    alloc: Global,
    journal: &mut Journal<D>,
    replica: &mut Replica,
    came: &[Option<Update>],
) -> Result<Ready, NoMemory>
    requires came { AllCame replica.old.part came.now }
    requires may { MayTurn replica.old.part replica.old.past (inputs_of came.now) }
    ensures part { replica.new.part ≡ replica.old.part }
    ensures past { replica.new.past ≡ replica.old.past }
    ensures journal { journal.new ≡ record journal.old { room = journal.new.room } }
    ensures ready { IfOk result (IsReady journal.new.room replica.new came.now) }
{
    let ready = work_out(alloc, replica, came)?;
    replica.reserve_turn(&ready.prepared)?;
    journal.reserve(ready.body.len() as u32)?;
    Ok(ready)
}

// Takes the Turn that is worked out.
fn take(ready: &mut Option<Ready>, replica: &mut Replica)
    requires { ForSome ready.old (λ r. MayTurn replica.old.part replica.old.past r.prepared.done.inputs × (r.prepared ≡ prepared_of replica.old.part replica.old.past r.prepared.done.inputs) × (1 ≤ replica.old.turn_room) × (length r.prepared.starts ≤ replica.old.item_room)) }
    ensures none { ready.new ≡ None }
    ensures part { replica.new.part ≡ replica.old.part }
    ensures past { ForSome ready.old (λ r. replica.new.past ≡ turned replica.old.past r.prepared.done.inputs) }
{
    if let Some(Ready { prepared, body: _ }) = ready.take() {
        replica.turn(prepared);
    }
}

impl<D: Disk> Node<D> {
    // Why no step may be taken.
    fn may_turn(&self) -> Result<(), TurnFault>
        ensures can { OnOk result (CanTurn self.now) }
        ensures refused { IfErr result (λ fault. TurnAnswers self.now (Err fault)) }
        ensures reopen { self.now.journal.failed ≡ true → result ≡ Err TurnFault.Reopen }
        ensures no_memory { IsErrOf result TurnFault.NoMemory → ⊥ }
        ensures no_disk { IsErrOf result TurnFault.DiskFailed → ⊥ }
    {
        if self.journal.is_failed() {
            return Err(TurnFault::Reopen);
        }
        let absent = missing_peers(self.replica.part().data(), self.came.as_slice());
        if absent.0 != 0 {
            return Err(TurnFault::Waiting(absent));
        }
        if self.replica.taken() == MAX_STEPS {
            return Err(TurnFault::StepLimit);
        }
        Ok(())
    }

    /// Works out the Turn that `turn` would take now, and keeps it with all the room that it needs: the next `turn`, if nothing was
    /// admitted in between, answers no `NoMemory` of its own. An update of each peer of the next step is held, which `held` shows, and a
    /// step is left. What others see of the node stays as before. It refuses only if memory runs out. In linear time in the updates,
    /// the part and the view, if the Turn isn't worked out yet.
    pub fn reserve_turn(&mut self) -> Result<(), NoMemory>
        requires came { AllCame self.old.part self.old.came }
        requires steps { taken self.old.past < max_steps }
        ensures ready { OnOk result (self.new.ready ≡ true) }
        ensures again { self.old.ready ≡ true → IsOk result }
        ensures kept { self.new ≡ record self.old { journal = record self.old.journal { room = self.new.journal.room }; ready = self.new.ready } }
    {
        if self.ready.is_some() {
            return Ok(());
        }
        let _part = self.replica.part().data();
        let came = self.came.as_slice();
        let ready = make_ready(self.alloc, &mut self.journal, &mut self.replica, came)?;
        self.ready = Some(ready);
        Ok(())
    }

    // Appends the Turn that is worked out, and takes it.
    fn add_turn(&mut self) -> Result<Turn, TurnFault>
        requires ready { self.old.ready ≡ true }
        requires can { CanTurn self.old }
        ensures answer { TurnAnswers self.old result }
        ensures took { OnOk result (self.new ≡ record self.old { journal = self.new.journal; past = with_turn self.old.past self.old.came; came = self.old.early; early = self.new.early; ready = false }) }
        ensures none { OnOk result ((v : ℕ) → held_in self.new.early v ≡ None) }
        ensures kept { IsErr result → self.new ≡ record self.old { journal = self.new.journal } }
        ensures refused { IsErr result → (IsErrOf result TurnFault.NoMemory → ⊥) → (IsErrOf result TurnFault.DiskFailed → ⊥) → self.new ≡ self.old }
        ensures place { OnOk result (self.new.journal.place ≡ self.old.journal.place + frame_size (turn_record self.old.past self.old.came)) }
        ensures place_kept { IsErr result → self.new.journal.place ≡ self.old.journal.place }
        ensures healthy { IsOk result → self.new.journal.failed ≡ false }
        ensures no_memory { IsErrOf result TurnFault.NoMemory → self.new.journal.failed ≡ false }
        ensures failed { IsErrOf result TurnFault.DiskFailed → self.new.journal.failed ≡ true }
        ensures enough { (told_by D.told self.old).has_room 2 (length (record_spelling (turn_record self.old.past self.old.came)) + 6) → IsErrOf result TurnFault.NoMemory → ⊥ }
        ensures crash { CrashLeaves (told_by D.told self.old) (told_by D.told self.new) self.old.journal.failed self.old.part self.old.past (with_turn self.old.past self.old.came) }
        ensures disk { RunsOn (told_by D.told self.old) (told_by D.told self.new) (IsOk result) (IsErrOf result TurnFault.NoMemory) (IsErrOf result TurnFault.DiskFailed) }
        ensures disk_room { UsesRoom (told_by D.told self.old) (told_by D.told self.new) 2 (length (record_spelling (turn_record self.old.past self.old.came)) + 6) }
    {
        let Some(ready) = &self.ready else {
            return Err(TurnFault::NoMemory);
        };
        self.journal.append(ready.body.as_slice())?;
        take(&mut self.ready, &mut self.replica);
        go_on(&mut self.came, &mut self.early);
        Ok(Turn::Took(self.replica.taken()))
    }

    /// Takes the next step, with the updates that are held of it. In this order: `Reopen` exactly if a disk call of `admit` or `turn`
    /// failed since the start; `Waiting` with exactly the peers whose update of the next step isn't held, if there are any; `StepLimit`
    /// exactly at 20,000 steps; `JournalFull` exactly if the journal says so; `NoMemory`; `DiskFailed`, exactly at a stroke that the
    /// disk is to fail. Else `Took`, with the step. After all but `Took`, `DiskFailed` and `NoMemory` the node is as before, but that the
    /// Turn may be worked out, and after these two it is but for its journal; after `Reopen` it is just as before. The journal's closed gate
    /// goes behind the record at `Took`, and else it stays. Of the disk's room no more is gone than two writes, of the record's length and
    /// six bytes in all. In linear time in the updates, the part and the view.
    pub fn turn(&mut self) -> Result<Turn, TurnFault>
        ensures answer { TurnAnswers self.old result }
        ensures inbox { IsInbox self.old.part (taken self.old.past + 1) self.old.came }
        ensures took { OnOk result (self.new ≡ record self.old { journal = self.new.journal; past = with_turn self.old.past self.old.came; came = self.old.early; early = self.new.early; ready = false }) }
        ensures later { OnOk result ((v step : ℕ) → taken self.old.past + 1 < step → held self.new v step ≡ held self.old v step) }
        ensures kept { IsErr result → self.new ≡ record self.old { journal = self.new.journal; ready = self.new.ready } }
        ensures refused { IsErr result → (IsErrOf result TurnFault.NoMemory → ⊥) → (IsErrOf result TurnFault.DiskFailed → ⊥) →
            self.new ≡ record self.old { journal = record self.old.journal { room = self.new.journal.room }; ready = self.new.ready } }
        ensures healthy { IsOk result → self.new.journal.failed ≡ false }
        ensures no_memory { IsErrOf result TurnFault.NoMemory → self.new.journal.failed ≡ self.old.journal.failed }
        ensures failed { IsErrOf result TurnFault.DiskFailed → self.new.journal.failed ≡ true }
        ensures reopen { self.old.journal.failed ≡ true → (result ≡ Err TurnFault.Reopen) × (self.new ≡ self.old) }

        // Where the journal's closed gate stands, also over a disk that doesn't tell its image.
        ensures place { OnOk result (self.new.journal.place ≡ self.old.journal.place + frame_size (turn_record self.old.past self.old.came)) }
        ensures place_kept { IsErr result → self.new.journal.place ≡ self.old.journal.place }

        // What `reserve_turn` is for.
        ensures enough { self.old.ready ≡ true → (told_by D.told self.old).has_room 2 (length (record_spelling (turn_record self.old.past self.old.came)) + 6) →
            IsErrOf result TurnFault.NoMemory → ⊥ }

        // What a crash leaves, at any moment of the call, and what the call does to its disk.
        ensures crash { CrashLeaves (told_by D.told self.old) (told_by D.told self.new) self.old.journal.failed self.old.part self.old.past (with_turn self.old.past self.old.came) }
        ensures disk { RunsOn (told_by D.told self.old) (told_by D.told self.new) (IsOk result) (IsErrOf result TurnFault.NoMemory) (IsErrOf result TurnFault.DiskFailed) }
        ensures disk_room { UsesRoom (told_by D.told self.old) (told_by D.told self.new) 2 (length (record_spelling (turn_record self.old.past self.old.came)) + 6) }
    {
        let _stands = &self.journal;
        self.may_turn()?;
        self.reserve_turn()?;
        self.add_turn()
    }
}
