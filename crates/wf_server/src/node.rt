//! A server of one unit.
ghost use Rattle.std.specs.Prelude.{◌≡◌, ◌⊎◌, ◌+◌, ◌<◌, ◌≤◌, ◌^◌, suc, ℕ, true, false, Some, List, length, IfOk};
ghost use Rattle.std.specs.Option.{option_copied};
ghost use Rattle.wf_histories.specs.Histories.{taken, local, local_update};
ghost use Rattle.wf_steps.specs.Growing.{IsMade};
ghost use Rattle.wf_steps.specs.Items.{items_of, item_steps};
ghost use Rattle.wf_worlds.specs.Growing.{Fits};
ghost use Rattle.wf_server.specs.Servers.{held, inputs_of};
ghost use Rattle.wf_server.specs.Inbox.{IsInbox};
ghost use Rattle.wf_server.specs.Images.{Holds, HoldsOn, IsPlaced};
ghost use Rattle.wf_server.specs.Sending.{shown_state, shown_var};

mod admission;
mod head;
mod inbox;
mod letters;
mod opening;
mod step;

use crate::NodeFault;
use inbox::{copies_of, slot_of};
use std::alloc::Global;
use std::marker::Model;
use wf_activities::Items;
use wf_disk::{Arm, Disk, MemDisk};
use wf_journal::Journal;
use wf_model::{Bytes, List, NoMemory, StateId, UnitId, Update, Val, VarId};
use wf_parts::Part;
use wf_steps::{History, Prepared, Replica};
use wf_updates::View;

/// Why no node is started. Part and disk are given back.
#[derive(Drop)]
pub struct StartRefused<D> {
    pub fault: NodeFault,
    pub part: Part,
    pub disk: D,
}

/// The next Turn, worked out, with the body of its record.
#[derive(Drop)]
struct Ready {
    prepared: Prepared,
    body: Bytes,
}

/// The server of one unit over its journal. Contracts see its journal, its part and its history, what it holds of its peers, and whether
/// the next Turn is worked out.
#[derive(Drop)]
pub struct Node<D: Disk> {
    journal: Journal<D>,
    replica: Replica,
    /// By unit, the updates of the next step.
    came: Vec<Option<Update>>,
    /// By unit, the updates of the step behind it.
    early: Vec<Option<Update>>,
    ready: Option<Ready>,
    alloc: Global,
}

impl<D: Disk> Model for Node<D> {
    ghost use Rattle.std.specs.Prelude.{is_some};
    ghost use Rattle.wf_model.specs.contracts.expr.Expr as expr;
    ghost use Rattle.std.specs.Coded.{codes};
    ghost use Rattle.wf_journal.specs.State.{kept_code};
    ghost use Rattle.wf_server.specs.Servers.{Server};

    ghost Value = { Server D };

    ghost coded = { Prim.hlevel (codes, expr.the_row.coded, kept_code) };

    ghost use Rattle.wf_server.specs.Nodes.{IsNode};

    ghost view = { λ node. record {
      journal = node.journal;
      part = node.replica.part;
      past = node.replica.past;
      came = node.came.items;
      early = node.early.items;
      ready = is_some node.ready;
    } };

    ghost invariant = { λ node. IsNode D.told node.journal node.replica node.came.items node.early.items node.ready };
}

impl<D: Disk> Node<D> {
    /// The disk, lent. If it tells its image, that holds just this history until a disk call of `admit` or `turn` failed, and so does
    /// what a crash now may leave; after such a failure a crash leaves a history that begins with this one. The journal's closed gate stands
    /// behind a head and the records of the history. Takes no memory.
    pub fn disk(&self) -> &D
        ensures disk { result.now ≡ self.now.journal.disk }
        ensures stands { self.now.journal.failed ≡ false → (file : List ℕ) → (D.told self.now.journal.disk).image ≡ Some file →
            (c : List ℕ) → (D.told self.now.journal.disk).may_leave c → Holds self.now.part self.now.past c }
        ensures stays { (file : List ℕ) → (D.told self.now.journal.disk).image ≡ Some file →
            (c : List ℕ) → (D.told self.now.journal.disk).may_leave c → HoldsOn self.now.part self.now.past c }
        ensures place { IsPlaced D.told self.now.journal self.now.part self.now.past }
    {
        self.journal.disk()
    }

    /// The part, lent. Takes no memory.
    pub fn part(&self) -> &Part
        ensures { result.now ≡ self.now.part }
    {
        self.replica.part()
    }

    /// The view after the steps taken, lent. Takes no memory.
    pub fn view(&self) -> &View
        ensures { result.now ≡ local self.now.part self.now.past (taken self.now.past) }
    {
        self.replica.view()
    }

    /// The history, lent: some records made it, each of which may follow those before it, and it seals no more than was admitted. Takes
    /// no memory.
    pub fn history(&self) -> &History
        ensures past { result.now.past ≡ self.now.past }
        ensures made { IsMade self.now.part self.now.past }
        ensures fits { Fits self.now.past }
    {
        self.replica.history()
    }

    /// The unit's items: those of the steps taken, where what an admission completes is closed. There are fewer than 2^32. Takes no memory.
    pub fn items(&self) -> &Items
        ensures items { result.now.items ≡ items_of self.now.part self.now.past }
        ensures steps { result.now.steps ≡ item_steps self.now.part self.now.past (taken self.now.past) }
        ensures few { length result.now.items < 2 ^ 32 }
    {
        self.replica.items()
    }

    /// How many steps were taken. Takes no memory.
    pub fn taken(&self) -> u32
        ensures { result ≡ taken self.now.past }
    {
        self.replica.taken()
    }

    /// How many requests were admitted. Takes no memory.
    pub fn admitted(&self) -> u64
        ensures { result ≡ length self.now.past.admissions }
    {
        self.replica.history().admissions().len() as u64
    }

    /// The own updates of the step that was taken last and of the next one; before the first step the first is the empty update of
    /// step 0, which is never sent. Takes no memory.
    pub fn kept(&self) -> (&Update, &Update)
        ensures last { result.0.now ≡ local_update self.now.part self.now.past (taken self.now.past) }
        ensures next { result.1.now ≡ local_update self.now.part self.now.past (suc (taken self.now.past)) }
    {
        (self.replica.last_update(), self.replica.next_update())
    }

    /// Whether a disk call of `admit` or `turn` failed since the start, so that both answer `Reopen`. Takes no memory.
    pub fn failed(&self) -> bool
        ensures { result ≡ self.now.journal.failed }
    {
        self.journal.is_failed()
    }

    /// Whether a state of the unit is in, after the steps taken; none exactly for a state that isn't the unit's own. In linear time in
    /// the states that the part knows. Takes no memory.
    pub fn is_in(&self, state: StateId) -> Option<bool>
        ensures { result ≡ shown_state self.now.part self.now.past state.0 }
    {
        if letters::is_own_state(self.replica.part().data(), state) {
            Some(letters::is_inside(self.replica.view().states(), state))
        } else {
            None
        }
    }

    /// The value of a variable, after the steps taken; none exactly for a variable that the part doesn't know. In linear time in the
    /// variables that it knows. Takes no memory.
    pub fn var(&self, var: VarId) -> Option<Val>
        ensures { result ≡ shown_var self.now.part self.now.past var.0 }
    {
        letters::value_of(self.replica.view().vars(), var)
    }

    /// The update that is held of a unit and a step, if one is: of the next step, or of the one behind it. There is a slot for each unit,
    /// in order, that of the own one empty, and each holds an update of its unit that the part takes in. Takes no memory.
    pub fn held(&self, peer: UnitId, step: u32) -> Option<&Update>
        ensures held { option_copied result ≡ held self.now peer.0 step }
        ensures came { IsInbox self.now.part (taken self.now.past + 1) self.now.came }
        ensures early { IsInbox self.now.part (taken self.now.past + 2) self.now.early }
    {
        let taken = self.replica.taken();
        if step == taken + 1 {
            slot_of(self.came.as_slice(), peer)
        } else if step == taken + 2 {
            slot_of(self.early.as_slice(), peer)
        } else {
            None
        }
    }

    /// Copies of the updates of the next step that are held, in unit order. It refuses only if memory runs out. In linear time in them.
    pub fn inputs(&self) -> Result<List<Update>, NoMemory>
        ensures { IfOk result (λ inputs. inputs ≡ inputs_of self.now.came) }
    {
        copies_of(self.alloc, self.came.as_slice())
    }

    /// Gives part, disk and history back.
    pub fn close(self) -> (Part, D, History)
        ensures part { result.0 ≡ self.part }
        ensures disk { result.1 ≡ self.journal.disk }
        ensures past { result.2.past ≡ self.past }
    {
        let Node {
            journal,
            replica,
            ..
        } = self;
        let (part, history) = replica.close();
        (part, journal.close(), history)
    }
}

impl Node<MemDisk> {
    ghost use Rattle.wf_disk.specs.Memory.{armed, disarmed};

    /// Arms the disk. All else stays. Takes no memory.
    pub fn arm(&mut self, stroke: u32, what: Arm)
        ensures { self.new ≡ record self.old { journal = record self.old.journal { disk = armed self.old.journal.disk stroke what } } }
    {
        self.journal.arm(stroke, what);
    }

    /// Removes the disk's arm. All else stays. Takes no memory.
    pub fn disarm(&mut self)
        ensures { self.new ≡ record self.old { journal = record self.old.journal { disk = disarmed self.old.journal.disk } } }
    {
        self.journal.disarm();
    }
}
