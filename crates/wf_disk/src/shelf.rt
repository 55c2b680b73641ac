//! A shelf of named disks, from which a run takes its disks and to which it gives them back.
ghost use Rattle.std.specs.Prelude.{◌≡◌, ◌≢◌, List, ℕ, is_some, IsTrue, IfOk, IsErr, IsErrOf};
ghost use Rattle.wf_disk.specs.Shelf.{ShelfTold, KeepsDisk, IsTaken, IsGiven, ShelfHasCause, FailsAtReturn};

use crate::Disk;
use std::alloc::AllocError;
use thiserror::Error;
use wf_model::{Failed, Name};

/// Why a shelf hands out no disk.
#[derive(Clone, Copy, Debug, PartialEq, Eq, Error)]
pub enum TakeRefused {
    /// The shelf failed, and its count of faults rose.
    #[error("the shelf failed")]
    Failed,
    /// Memory ran out.
    #[error("out of memory")]
    NoMemory,
}

impl From<Failed> for TakeRefused {
    ghost use Rattle.wf_disk.specs.declared.shelf.TakeRefused.{TakeRefused};

    ghost from_gives = { λ _ refused. refused ≡ TakeRefused.Failed };

    fn from(_: Failed) -> TakeRefused {
        TakeRefused::Failed
    }
}

impl From<AllocError> for TakeRefused {
    ghost use Rattle.wf_disk.specs.declared.shelf.TakeRefused.{TakeRefused};

    ghost from_gives = { λ _ refused. refused ≡ TakeRefused.NoMemory };

    fn from(_: AllocError) -> TakeRefused {
        TakeRefused::NoMemory
    }
}

/// Named disks. A disk is out from the take that hands it out until it is given back, and else stands on the shelf.
/// The shelf's count of faults rises exactly if a call fails or a disk comes back that had failed, but for its greatest
/// value, at which it stays. A call moves no disk but the one that it names.
pub trait DiskShelf {
    /// What it hands out.
    type Disk: Disk + Send;

    /// What the shelf is at this moment.
    ghost told: { Self → ShelfTold };

    /// Hands out the disk of this name, as the shelf told it, with a count of faults of 0. A disk that is out is
    /// refused with `Failed`. After an `Err` each disk is where it was, and unless that is `Failed` the count of faults is as
    /// it was. It makes the room for the disk's return.
    fn take(&mut self, unit: &Name) -> Result<Self::Disk, TakeRefused>
        ensures taken { IfOk result (λ disk. IsTaken unit.now (told self.old) (told self.new) (Self.Disk.told disk)) }
        ensures others { (name : List ℕ) → name ≢ unit.now → KeepsDisk name (told self.old) (told self.new) }
        ensures refused { IsErr result → KeepsDisk unit.now (told self.old) (told self.new) }
        ensures out { IsTrue (is_some ((told self.old).taken_at unit.now)) → IsErrOf result TakeRefused.Failed }
        ensures cause { ShelfHasCause (told self.old) (told self.new) (IsErrOf result TakeRefused.Failed) };

    /// Puts a disk back under the name of one that is out, also where it answers `Failed`. From then on the shelf
    /// tells what a crash in between may have left of it. The shelf's count of faults rises if it answers `Failed`, and
    /// if the disk's own count is over 0; else it stays. It takes no memory.
    fn give(&mut self, unit: &Name, disk: Self::Disk) -> Result<(), Failed>
        requires out { IsTrue (is_some ((told self.old).taken_at unit.now)) }
        ensures given { IsGiven unit.now (told self.old) (told self.new) (Self.Disk.told disk) }
        ensures others { (name : List ℕ) → name ≢ unit.now → KeepsDisk name (told self.old) (told self.new) }
        ensures cause { ShelfHasCause (told self.old) (told self.new) (FailsAtReturn (IsErr result) (Self.Disk.told disk)) };
}
