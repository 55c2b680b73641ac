//! A journal: bodies that were appended in order, each on the disk before it is acknowledged.
ghost use Rattle.std.specs.Prelude.{◌≡◌, ◌≢◌, ◌⊎◌, ◌+◌, ◌≤◌, ◌<◌, ◌∷◌, [], ℕ, List, true, false, None, Some, IfSome, OnSome, is_some, IsNone, IfOk, IfErr, IsOk, OnOk, IsErr, IsErrOf, length};
ghost use Rattle.wf_disk.specs.Disk.{HasCause, IsDown, IsSafeFor, LeavesOnly, IsSame};
ghost use Rattle.wf_journal.specs.Append.{IsWritten, LeavesBeforeOrAfter, LeavesBefore};
ghost use Rattle.wf_journal.specs.Plan.{WentOn, MeetsPlan, StartMeetsPlan};
ghost use Rattle.wf_journal.specs.Room.{UsesRoom};
ghost use Rattle.wf_journal.specs.Start.{start_strokes, TakesStrokes, IsWhole, IsBadAt, IsMade, LeavesStart, CanBeRead};
ghost use Rattle.wf_journal.specs.Frames.{header};
ghost use Rattle.wf_journal.specs.Journal.{IsLeft, HasBodiesOf, KeepsBodies, IsReadFrom};
ghost use Rattle.wf_journal.specs.Faults.{refusal_of};
ghost use Rattle.wf_journal.specs.State.{IsReady};

use crate::append::put;
use crate::fault::{AppendFault, ReadFault, StartFault};
use crate::frame::HEADER;
use crate::steps::{find_end, read_frame};
use std::alloc::Global;
use std::marker::Model;
use std::mem::replace;
use wf_disk::{Arm, Disk, MemDisk, WriteRefused};
use wf_model::limits::{MAX_BODY, MAX_JOURNAL};
use wf_model::{Bytes, List as Items, NoMemory};

/// A journal that could not be started.
#[derive(Drop)]
pub struct JournalRefused<D> {
    /// Why.
    pub fault: StartFault,
    /// The disk, given back.
    pub disk: D,
}

/// A journal on a disk. A crash at any moment leaves the bodies that were appended, in order, and of an append that
/// wasn't acknowledged its one body or none, and a journal starts on what it leaves. Contracts see its disk, the place
/// of its closed gate, whether a disk call of an append failed, and the longest body for which it has room of its own.
#[derive(Drop)]
pub struct Journal<D: Disk> {
    /// The disk that holds the frames.
    disk: D,
    /// The place of the closed gate, in bytes from the file's begin.
    place: u64,
    /// Whether a disk call of an append failed.
    failed: bool,
    /// The buffer in which a frame is made. Its capacity never falls.
    frame: Vec<u8>,
    /// Where bodies that are read take their memory.
    alloc: Global,
}

impl<D: Disk> Model for Journal<D> {
    ghost use Rattle.std.specs.Prelude.{◌-◌, vec_capacity};
    ghost use Rattle.wf_journal.specs.State.{Kept, kept_code, IsReady};
    ghost use Rattle.wf_journal.specs.Frames.{header};

    ghost Value = { Kept D };

    ghost coded = { kept_code D.code };

    ghost view = { λ it. record { disk = it.disk; place = it.place; failed = it.failed; room = vec_capacity it.frame - header } };

    ghost invariant = { λ it. IsReady (D.told it.disk) it.place it.failed };
}

impl<D: Disk> Journal<D> {
    /// Finds the end of the journal on a disk, or makes a new one on a disk of fewer than two bytes. It syncs first.
    /// A refusal hands the disk back. Either way the disk has its bodies as before, and of two bytes or more it has each
    /// byte as before. A crash meanwhile leaves a disk on which a journal starts, if one did before. It makes three
    /// strokes on a disk of fewer than two bytes and else one, which it makes also if it is refused by a bad frame.
    /// `NoMemory` comes only on a disk of fewer than two bytes that has no room for a write of one byte, and of the
    /// disk's room no more is gone than that write. In linear time in the number of frames, with the head of one in
    /// memory at a time.
    pub fn start(alloc: Global, disk: D) -> Result<Journal<D>, JournalRefused<D>>
        // At Ok: a closed gate is found or made, and a crash leaves the file as it is.
        ensures left { IfOk result (λ journal.
            (journal.failed ≡ false) × IsLeft (D.told disk) (D.told journal.disk) journal.place []) }
        ensures made { IfOk result (λ journal. IsMade (D.told disk) (D.told journal.disk)) }
        ensures begins { IfOk result (λ journal. CanBeRead (D.told journal.disk)) }
        ensures whole { IfOk result (λ _. IsWhole (D.told disk)) }

        // A bad frame.
        ensures bad { IfErr result (λ refused. (at : ℕ) → refused.fault ≡ StartFault.BadFrame at →
            IsBadAt (D.told disk) (D.told refused.disk) at) }

        // The bodies stay, and so they do in a crash.
        ensures kept { IfOk result (λ journal. KeepsBodies (D.told disk) (D.told journal.disk)) }
        ensures kept_refused { IfErr result (λ refused. KeepsBodies (D.told disk) (D.told refused.disk)) }
        ensures any_moment { IfOk result (λ journal. LeavesStart (D.told disk) (D.told journal.disk)) }
        ensures any_moment_refused { IfErr result (λ refused. LeavesStart (D.told disk) (D.told refused.disk)) }

        // The disk's strokes.
        ensures strokes { IfOk result (λ journal. TakesStrokes (D.told disk) (D.told journal.disk)) }
        ensures most { IfOk result (λ journal. (D.told journal.disk).clock ≤ (D.told disk).clock + 3) }
        ensures one_stroke { IfErr result (λ refused. refused.fault ≢ StartFault.DiskFailed →
            (D.told refused.disk).clock ≡ (D.told disk).clock + 1) }
        ensures plan { IfOk result (λ journal. WentOn (D.told disk) (D.told journal.disk)) }
        ensures plan_refused { IfErr result (λ refused.
            StartMeetsPlan (D.told disk) (D.told refused.disk) (refused.fault ≡ StartFault.DiskFailed)) }

        // It fails only over a disk that fails.
        ensures safe { IsSafeFor (D.told disk) (start_strokes (D.told disk).image + 1) →
            IfErr result (λ refused. refused.fault ≢ StartFault.DiskFailed) }
        ensures faults { IfOk result (λ journal. (D.told journal.disk).faults ≡ (D.told disk).faults) }
        ensures cause { IfErr result (λ refused.
            HasCause (D.told disk) (D.told refused.disk) (refused.fault ≡ StartFault.DiskFailed)) }

        // It wants memory only for its one write of one byte, without room on the disk.
        ensures enough { (D.told disk).has_room 1 1 →
            IfErr result (λ refused. refused.fault ≢ StartFault.NoMemory) }
        ensures no_need { (file : List ℕ) → (D.told disk).image ≡ Some file → 2 ≤ length file →
            IfErr result (λ refused. refused.fault ≢ StartFault.NoMemory) }
        ensures disk_room { IfOk result (λ journal. UsesRoom (D.told disk) (D.told journal.disk) 1 1) }
        ensures disk_room_refused { IfErr result (λ refused. UsesRoom (D.told disk) (D.told refused.disk) 1 1) }
    {
        let mut disk = disk;
        match find_end(&mut disk) {
            Ok(place) => Ok(Journal {
                disk,
                place,
                failed: false,
                frame: Vec::new(alloc),
                alloc,
            }),
            Err(fault) => Err(JournalRefused { fault, disk }),
        }
    }

    // Why a body of this length is refused before anything is done.
    #[tactic(auto, unfolding(crate::specs::Faults::refusal_of))]
    fn refusal(&self, len: usize) -> Option<AppendFault>
        ensures why { result ≡ refusal_of self.now.failed self.now.place len }
        ensures ready { IsReady (D.told self.now.disk) self.now.place self.now.failed }
    {
        if self.failed {
            Some(AppendFault::Reopen)
        } else if len == 0 || MAX_BODY < len as u64 {
            Some(AppendFault::TooLong)
        } else if MAX_JOURNAL - HEADER - (len as u64) - 1 < self.place {
            Some(AppendFault::Full)
        } else {
            None
        }
    }

    /// Adds a body, in four strokes. At `Ok` each crash from then on leaves a journal that has it. `Reopen`, `TooLong`
    /// and `Full` come in this order, before anything is done, and leave the journal as it was. After `NoMemory` the
    /// bodies are as before; it doesn't come where the journal and its disk have room. Of the disk's room no more is gone
    /// than two writes, of the body's length and six bytes in all. `DiskFailed` comes at the first stroke that the disk
    /// is to fail, which is the last of this call. Then the body may stand or not, and each later append answers
    /// `Reopen`. In linear time in the body.
    pub fn append(&mut self, body: &[u8]) -> Result<(), AppendFault>
        // Refused before anything is done: nothing changed.
        ensures refused { IfSome (refusal_of self.old.failed self.old.place (length body.now))
            (λ fault. (result ≡ Err fault) × (self.new ≡ self.old)) }
        ensures other { IsNone (refusal_of self.old.failed self.old.place (length body.now)) →
            IfErr result (λ fault. (fault ≡ AppendFault.NoMemory) ⊎ (fault ≡ AppendFault.DiskFailed)) }

        // Acknowledged: the body is the last one, and a crash leaves the file as it is.
        ensures ok { OnOk result (IsLeft (D.told self.old.disk) (D.told self.new.disk) self.new.place (body.now ∷ [])) }
        ensures bytes { OnOk result (IsWritten (D.told self.old.disk) (D.told self.new.disk) self.old.place body.now) }
        ensures place { OnOk result (self.new.place ≡ self.old.place + (header + length body.now)) }

        // Not acknowledged.
        ensures no_memory { IsErrOf result AppendFault.NoMemory →
            IsLeft (D.told self.old.disk) (D.told self.new.disk) self.new.place [] }
        ensures failed { IsErrOf result AppendFault.DiskFailed → self.new.failed ≡ true }
        ensures not_failed { (IsErrOf result AppendFault.DiskFailed → ⊥) → self.new.failed ≡ self.old.failed }
        ensures place_kept { IsErr result → self.new.place ≡ self.old.place }
        ensures tells { is_some (D.told self.new.disk).image ≡ is_some (D.told self.old.disk).image }

        // What a crash leaves, at any moment of the call.
        ensures any_moment { self.old.failed ≡ false →
            LeavesBeforeOrAfter (D.told self.old.disk) (D.told self.new.disk) body.now }
        ensures fewer { self.old.failed ≡ false → (D.told self.new.disk).clock < (D.told self.old.disk).clock + 3 →
            LeavesBefore (D.told self.old.disk) (D.told self.new.disk) }
        ensures reopen { self.old.failed ≡ true →
            LeavesOnly (D.told self.old.disk) (D.told self.new.disk) (HasBodiesOf (D.told self.old.disk).may_leave) }

        // The disk's strokes.
        ensures four { OnOk result ((D.told self.new.disk).clock ≡ (D.told self.old.disk).clock + 4) }
        ensures two { IsErrOf result AppendFault.NoMemory →
            (D.told self.new.disk).clock ≤ (D.told self.old.disk).clock + 2 }
        ensures plan { MeetsPlan (D.told self.old.disk) (D.told self.new.disk) 4 (IsErrOf result AppendFault.DiskFailed) }

        // It fails only over a disk that fails, and wants memory only without room.
        ensures safe { IsSafeFor (D.told self.old.disk) 4 → IsErrOf result AppendFault.DiskFailed → ⊥ }
        ensures good { IsNone (refusal_of self.old.failed self.old.place (length body.now)) →
            IsSafeFor (D.told self.old.disk) 4 → (D.told self.old.disk).has_room 2 (length body.now + 6) →
            length body.now ≤ self.old.room → IsOk result }
        ensures enough { length body.now ≤ self.old.room →
            (D.told self.old.disk).has_room 2 (length body.now + 6) → IsErrOf result AppendFault.NoMemory → ⊥ }
        ensures room { self.old.room ≤ self.new.room }
        ensures disk_room { UsesRoom (D.told self.old.disk) (D.told self.new.disk) 2 (length body.now + 6) }
        ensures cause { HasCause (D.told self.old.disk) (D.told self.new.disk) (IsErrOf result AppendFault.DiskFailed) }
    {
        if let Some(fault) = self.refusal(body.len()) {
            return Err(fault);
        }
        match put(&mut self.disk, self.place, body, &mut self.frame) {
            Ok(()) => {
                self.place += HEADER + body.len() as u64;
                Ok(())
            }
            Err(WriteRefused::NoMemory) => Err(AppendFault::NoMemory),
            Err(WriteRefused::Failed) => {
                self.failed = true;
                Err(AppendFault::DiskFailed)
            }
        }
    }

    /// Reads the body of the frame at a place into `into`, and gives the place behind it; none at the end. The place
    /// is 0, or was given by an earlier read. At the end and after an `Err` `into` is empty. `DiskFailed` comes only
    /// over a disk that is down. In linear time in the body, for which the memory that `into` has is used again.
    pub fn read(&mut self, place: u64, into: &mut Bytes) -> Result<Option<u64>, ReadFault>
        ensures read { IfOk result (λ found. IsReadFrom (D.told self.old.disk) place found into.new) }
        ensures next { IfOk result (λ found. IfSome found (λ next. next ≡ place + (header + length into.new))) }
        ensures some { IfOk result (λ found. OnSome found (1 ≤ length into.new)) }
        ensures none { IfOk result (λ found. found ≡ None → into.new ≡ []) }
        ensures empty { IsErr result → into.new ≡ [] }
        ensures same { IsSame (D.told self.old.disk) (D.told self.new.disk) }
        ensures kept { self.new ≡ record self.old { disk = self.new.disk } }
        ensures down { IsErrOf result ReadFault.DiskFailed → IsDown (D.told self.old.disk) }
        ensures safe { IsSafeFor (D.told self.old.disk) 1 → IsErrOf result ReadFault.DiskFailed → ⊥ }
        ensures cause { HasCause (D.told self.old.disk) (D.told self.new.disk) (IsErrOf result ReadFault.DiskFailed) }
    {
        let mut body = replace(into, Items::new(self.alloc)).into_vec();
        let next = read_frame(&mut self.disk, place, &mut body)?;
        *into = Items::from_vec(body);
        Ok(next)
    }

    /// Makes room of its own for an append of at most so many bytes. The room that it has stays, also at a refusal.
    /// With that room already, for one byte or more, it answers Ok.
    pub fn reserve(&mut self, len: u32) -> Result<(), NoMemory>
        ensures room { OnOk result (len ≤ self.new.room) }
        ensures more { self.old.room ≤ self.new.room }
        ensures succeeds { 1 ≤ len → len ≤ self.old.room → IsOk result }
        ensures kept { self.new ≡ record self.old { room = self.new.room } }
    {
        self.frame.clear();
        self.frame.reserve(HEADER as usize + len as usize)?;
        Ok(())
    }

    /// Whether a disk call of an append failed. Each later append answers `Reopen` then.
    pub fn is_failed(&self) -> bool
        ensures { result ≡ self.now.failed }
    {
        self.failed
    }

    /// The disk, lent.
    pub fn disk(&self) -> &D
        ensures disk { result.now ≡ self.now.disk }
        ensures ready { IsReady (D.told self.now.disk) self.now.place self.now.failed }
    {
        &self.disk
    }

    /// Gives the disk back.
    pub fn close(self) -> D
        ensures { result ≡ self.disk }
    {
        self.disk
    }
}

impl Journal<MemDisk> {
    ghost use Rattle.wf_disk.specs.Memory.{armed, disarmed};

    /// Arms the disk. All else stays. Takes no memory.
    pub fn arm(&mut self, stroke: u32, what: Arm)
        ensures { self.new ≡ record self.old { disk = armed self.old.disk stroke what } }
    {
        self.disk.arm(stroke, what);
    }

    /// Removes the disk's arm. All else stays. Takes no memory.
    pub fn disarm(&mut self)
        ensures { self.new ≡ record self.old { disk = disarmed self.old.disk } }
    {
        self.disk.disarm();
    }
}
