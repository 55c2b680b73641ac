//! The node's calls that may add a record, by which what was kept of the unit is kept.
ghost use Rattle.std.specs.Prelude.{◌≡◌, ◌+◌, ◌<◌, ℕ, true, false, IsErr, IsErrOf, OnOk};
ghost use Rattle.wf_disk.specs.Disk.{HasCause};
ghost use Rattle.wf_histories.specs.Histories.{taken};
ghost use Rattle.wf_server.specs.Answers.{AdmitAnswers, TurnAnswers, IsAsked, IsNew};
ghost use Rattle.wf_server.specs.Servers.{held, told_by, with_admission, with_turn};
ghost use Rattle.wf_worlds.specs.Ends.{IsShort};
ghost use Rattle.wf_actors.specs.Keeping.{KeepsAll};

use wf_disk::Disk;
use wf_model::Outer;
use wf_server::{AdmitFault, Admitted, Node, Turn, TurnFault};

/// Admits, as the node does. No call of the disk failed before.
pub fn admit<D: Disk>(
    node: &mut Node<D>,
    request: u64,
    outer: &Outer,
) -> Result<Admitted, AdmitFault>
    requires working { node.old.journal.failed ≡ false }
    ensures keeps { KeepsAll D.told node.old node.new }
    ensures answer { AdmitAnswers node.old request outer.now result }
    ensures new { IsNew result → node.new ≡ record node.old { journal = node.new.journal; past = with_admission node.old.past request outer.now; ready = false } }
    ensures old { (IsNew result → ⊥) → node.new ≡ record node.old { journal = node.new.journal } }
    ensures short { IsAsked result → IsShort outer.now }
    ensures place { IsErr result → node.new.journal.place ≡ node.old.journal.place }
    ensures cause { HasCause (told_by D.told node.old) (told_by D.told node.new) (IsErrOf result AdmitFault.DiskFailed) }
    ensures working { (IsErrOf result AdmitFault.DiskFailed → ⊥) → node.new.journal.failed ≡ false }
{
    node.admit(request, outer)
}

/// Takes the next step, as the node does. No call of the disk failed before.
pub fn turn<D: Disk>(node: &mut Node<D>) -> Result<Turn, TurnFault>
    requires working { node.old.journal.failed ≡ false }
    ensures keeps { KeepsAll D.told node.old node.new }
    ensures answer { TurnAnswers node.old result }
    ensures took { OnOk result (node.new ≡ record node.old { journal = node.new.journal; past = with_turn node.old.past node.old.came; came = node.old.early; early = node.new.early; ready = false }) }
    ensures later { OnOk result ((v s : ℕ) → taken node.old.past + 1 < s → held node.new v s ≡ held node.old v s) }
    ensures kept { IsErr result → node.new ≡ record node.old { journal = node.new.journal; ready = node.new.ready } }
    ensures place { IsErr result → node.new.journal.place ≡ node.old.journal.place }
    ensures cause { HasCause (told_by D.told node.old) (told_by D.told node.new) (IsErrOf result TurnFault.DiskFailed) }
    ensures working { (IsErrOf result TurnFault.DiskFailed → ⊥) → node.new.journal.failed ≡ false }
{
    node.turn()
}
