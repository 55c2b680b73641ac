//! A disk as the layers above see it.
ghost use Rattle.std.specs.Prelude.{◌≡◌, ◌+◌, ◌^◌, ◌<◌, ◌≤◌, List, ℕ, length, take, drop, is_some, IfSome, IfOk, OnOk, IsOk, IsErr, IsErrOf};
ghost use Rattle.wf_disk.specs.Disk.{Told, put_at, Torn, Follows, Within, Only, IsSame, IsDown, Elapses, Strikes, GoesToPlan, HasCause, IsLawful};

use std::alloc::AllocError;
use thiserror::Error;
use wf_model::Failed;

/// Why a disk writes nothing, or not all.
#[derive(Clone, Copy, Debug, Error)]
pub enum WriteRefused {
    /// The disk failed. Its count of faults rose, and what was to be written may stand or not.
    #[error("the disk failed")]
    Failed,
    /// Memory ran out, and nothing changed.
    #[error("out of memory")]
    NoMemory,
}

impl From<Failed> for WriteRefused {
    ghost use Rattle.wf_disk.specs.declared.disk.WriteRefused.{WriteRefused};

    ghost from_gives = { λ _ refused. refused ≡ WriteRefused.Failed };

    fn from(_: Failed) -> WriteRefused {
        WriteRefused::Failed
    }
}

impl From<AllocError> for WriteRefused {
    ghost use Rattle.wf_disk.specs.declared.disk.WriteRefused.{WriteRefused};

    ghost from_gives = { λ _ refused. refused ≡ WriteRefused.NoMemory };

    fn from(_: AllocError) -> WriteRefused {
        WriteRefused::NoMemory
    }
}

/// A disk that may crash at any moment. A stroke is a write or a sync, failed ones too. Between two syncs each
/// written range, and the part past the old end, may hold any bytes after a crash, at any size from the old to the
/// new; all other bytes stay. A call fails only where the disk's count of faults rises.
pub trait Disk {
    /// What the disk is at this moment.
    ghost told: { Self → Told };

    /// How many bytes it has. No stroke: nothing changes but the count of faults.
    fn size(&mut self) -> Result<u64, Failed>
        ensures value { IfOk result (λ n. IfSome (told self.old).image (λ file. n ≡ length file)) }
        ensures same { IsSame (told self.old) (told self.new) }
        ensures down { IsErr result → IsDown (told self.old) }
        ensures cause { HasCause (told self.old) (told self.new) (IsErr result) };

    /// Fills `into` with the bytes from `at` on, which lie in the disk where it tells its bytes. A disk that doesn't
    /// tell them fails at a read past its end. No stroke: nothing changes but the count of faults.
    fn read_at(&mut self, at: u64, into: &mut [u8]) -> Result<(), Failed>
        requires inside { IfSome (told self.old).image (λ file. at + length into.old ≤ length file) }
        ensures bytes { OnOk result (IfSome (told self.old).image (λ file. into.new ≡ take (length into.old) (drop at file))) }
        ensures same { IsSame (told self.old) (told self.new) }
        ensures down { IsErr result → IsDown (told self.old) }
        ensures cause { HasCause (told self.old) (told self.new) (IsErr result) };

    /// Writes over what is there, and past the end. Until a sync, a crash may leave any bytes in the range; a failed
    /// write counts as written. `NoMemory` is no stroke, and changes nothing.
    fn write_at(&mut self, at: u64, bytes: &[u8]) -> Result<(), WriteRefused>
        requires begins { IfSome (told self.old).image (λ file. at ≤ length file) }
        requires ends { at + length bytes.now < 2 ^ 63 }
        ensures written { OnOk result (IfSome (told self.old).image (λ file. (told self.new).image ≡ Some (put_at file at bytes.now))) }
        ensures tells { is_some (told self.new).image ≡ is_some (told self.old).image }
        ensures no_memory { IsErrOf result WriteRefused.NoMemory → IsSame (told self.old) (told self.new) }
        ensures crash { Follows (Torn at (length bytes.now)) (told self.old).may_leave (told self.new).may_leave }
        ensures time { Elapses (told self.old) (told self.new) }
        ensures stroke { Strikes (told self.old) (told self.new) (IsOk result) (IsErrOf result WriteRefused.Failed) }
        ensures plan { GoesToPlan (told self.old) (told self.new) (IsOk result) (IsErrOf result WriteRefused.Failed) }
        ensures room { (writes rest : ℕ) → (told self.old).has_room (writes + 1) (rest + length bytes.now) →
            (IsErrOf result WriteRefused.NoMemory → ⊥) × (told self.new).has_room writes rest }
        ensures cause { HasCause (told self.old) (told self.new) (IsErrOf result WriteRefused.Failed) };

    /// After it a crash leaves what a read gives. It takes no memory.
    fn sync(&mut self) -> Result<(), Failed>
        ensures synced { OnOk result (IfSome (told self.old).image (λ file. Only file (told self.new).may_leave)) }
        ensures image { (told self.new).image ≡ (told self.old).image }
        ensures crash { Within (told self.new).may_leave (told self.old).may_leave }
        ensures time { Elapses (told self.old) (told self.new) }
        ensures stroke { Strikes (told self.old) (told self.new) (IsOk result) (IsErr result) }
        ensures plan { GoesToPlan (told self.old) (told self.new) (IsOk result) (IsErr result) }
        ensures room { (writes bytes : ℕ) → (told self.old).has_room writes bytes → (told self.new).has_room writes bytes }
        ensures cause { HasCause (told self.old) (told self.new) (IsErr result) };

    /// What holds of a disk at any moment.
    ghost lawful: { (disk : Self) → IsLawful (told disk) };
}
