//! How a node is started.
ghost use Rattle.std.specs.Prelude.{◌≡◌, ◌+◌, ℕ, List, Some, false, true, IfOk, IfErr};
ghost use Rattle.wf_disk.specs.Disk.{LeavesOnly};
ghost use Rattle.wf_journal.specs.Frames.{can_start};
ghost use Rattle.wf_journal.specs.Start.{CanBeRead};
ghost use Rattle.wf_histories.specs.Histories.{History};
ghost use Rattle.wf_steps.specs.Growing.{IsMade};
ghost use Rattle.wf_steps.specs.Records.{history_of};
ghost use Rattle.std.specs.Prelude.{Ok};
ghost use Rattle.wf_server.specs.Images.{Holds, HoldsOneOf};
ghost use Rattle.wf_server.specs.Heads.{Stretch, HeadStrokes, HeadRoom, most_head, IsStill, ReadFails};
ghost use Rattle.wf_server.specs.Starting.{StartFails, LeavesBad, IsStarted, StartRuns, StartRoom, strokes_on, Reopens, StaysShut};

use crate::NodeFault;
use crate::node::head::read_unit;
use crate::node::inbox::empty_inboxes;
use crate::node::{Node, StartRefused};
use std::alloc::Global;
use wf_disk::Disk;
use wf_journal::Journal;
use wf_parts::Part;

impl<D: Disk> Node<D> {
    // The node of a journal as it was opened.
    fn of_journal(
        alloc: Global,
        part: Part,
        journal: Journal<D>,
    ) -> Result<Node<D>, StartRefused<D>>
        requires healthy { journal.failed ≡ false }
        requires readable { CanBeRead (D.told journal.disk) }
        requires still { IsStill (D.told journal.disk) }
        ensures history { IfOk result (λ node. (file : List ℕ) → (D.told journal.disk).image ≡ Some file → history_of part file ≡ Ok node.past) }
        ensures started { IfOk result (IsStarted part) }
        ensures made { IfOk result (λ node. IsMade part node.past) }
        ensures refused { IfErr result (λ refused. (file : List ℕ) → (D.told journal.disk).image ≡ Some file → ReadFails (history_of part file) refused.fault) }
        ensures given_back { IfErr result (λ refused. refused.part ≡ part) }

        // The disk.
        ensures stretch { IfOk result (λ node. Stretch part (D.told journal.disk) (D.told node.journal.disk) (most_head (D.told journal.disk).image) ⊥) }
        ensures stretch_refused { IfErr result (λ refused. Stretch part (D.told journal.disk) (D.told refused.disk) (most_head (D.told journal.disk).image) (refused.fault ≡ NodeFault.DiskFailed)) }
        ensures strokes { IfOk result (λ node. HeadStrokes (D.told journal.disk) (D.told node.journal.disk)) }
        ensures room { IfOk result (λ node. HeadRoom part (D.told journal.disk) (D.told node.journal.disk)) }
        ensures room_refused { IfErr result (λ refused. HeadRoom part (D.told journal.disk) (D.told refused.disk)) }
    {
        let mut journal = journal;
        let Ok((came, early)) = empty_inboxes(alloc, part.data().units) else {
            return Err(StartRefused {
                fault: NodeFault::NoMemory,
                part,
                disk: journal.close(),
            });
        };
        match read_unit(alloc, part, &mut journal) {
            Ok(replica) => {
                let _made = replica.history();
                let _ready = journal.disk();
                Ok(Node {
                    journal,
                    replica,
                    came,
                    early,
                    ready: None,
                    alloc,
                })
            }
            Err(refused) => Err(StartRefused {
                fault: NodeFault::from(refused.fault),
                part: refused.part,
                disk: journal.close(),
            }),
        }
    }

    /// Starts a node on a disk: it opens the journal, writes the head record on one without frames, and recovers the history. The refusal
    /// is what the journal's start answers, and only then what the recovery answers, so that `BadFrame` comes before `Foreign` and
    /// `BadRecord`; each comes exactly if the image is so, and then leaves the image as it is. Part and disk are given back at a refusal,
    /// and the disk's history is as before. A crash meanwhile leaves a history that a crash just before could leave. Over an image that a node left it makes one stroke,
    /// and answers Ok with that history, unless the disk fails or memory runs out. Of the disk's room no more is gone than three writes, of
    /// the head's length and seven bytes in all, and where there is a frame no more than one write of one byte. In linear time in the
    /// journal, with one frame in memory at a time beside the history.
    pub fn start(alloc: Global, part: Part, disk: D) -> Result<Node<D>, StartRefused<D>>
        ensures history { IfOk result (λ node. (file : List ℕ) → (D.told disk).image ≡ Some file → history_of part file ≡ Ok node.past) }
        ensures whole { IfOk result (λ _. (file : List ℕ) → (D.told disk).image ≡ Some file → can_start file ≡ true) }
        ensures started { IfOk result (IsStarted part) }
        ensures made { IfOk result (λ node. IsMade part node.past) }
        ensures refused { IfErr result (λ refused. (file : List ℕ) → (D.told disk).image ≡ Some file → StartFails part file refused.fault) }
        ensures given_back { IfErr result (λ refused. refused.part ≡ part) }
        ensures kept { IfErr result (λ refused. (old new : List ℕ) → (D.told disk).image ≡ Some old → (D.told refused.disk).image ≡ Some new →
            history_of part new ≡ history_of part old) }
        ensures untouched { IfErr result (λ refused. LeavesBad (D.told disk) (D.told refused.disk) refused.fault) }

        // Over an image that a node left.
        ensures reopens { IfOk result (λ node. (past : History) (file : List ℕ) → (D.told disk).image ≡ Some file → Holds part past file →
            Reopens (D.told disk) (D.told node.journal.disk) past node.past) }
        ensures stays_shut { IfErr result (λ refused. (past : History) (file : List ℕ) → (D.told disk).image ≡ Some file → Holds part past file →
            StaysShut (D.told disk) (D.told refused.disk) refused.fault) }

        // What a crash leaves, at any moment of the call, and what the call does to its disk.
        ensures crash { IfOk result (λ node. (file : List ℕ) → (D.told disk).image ≡ Some file →
            LeavesOnly (D.told disk) (D.told node.journal.disk) (HoldsOneOf part (D.told disk).may_leave)) }
        ensures crash_refused { IfErr result (λ refused. (file : List ℕ) → (D.told disk).image ≡ Some file →
            LeavesOnly (D.told disk) (D.told refused.disk) (HoldsOneOf part (D.told disk).may_leave)) }
        ensures strokes { IfOk result (λ node. (file : List ℕ) → (D.told disk).image ≡ Some file →
            (D.told node.journal.disk).clock ≡ (D.told disk).clock + strokes_on file) }
        ensures runs { IfOk result (λ node. StartRuns (D.told disk) (D.told node.journal.disk) ⊥) }
        ensures runs_refused { IfErr result (λ refused. StartRuns (D.told disk) (D.told refused.disk) (refused.fault ≡ NodeFault.DiskFailed)) }
        ensures disk_room { IfOk result (λ node. StartRoom part (D.told disk) (D.told node.journal.disk)) }
        ensures disk_room_refused { IfErr result (λ refused. StartRoom part (D.told disk) (D.told refused.disk)) }
    {
        match Journal::start(alloc, disk) {
            Ok(journal) => Node::of_journal(alloc, part, journal),
            Err(refused) => Err(StartRefused {
                fault: NodeFault::from(refused.fault),
                part,
                disk: refused.disk,
            }),
        }
    }
}
