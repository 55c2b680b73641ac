//! How a node admits.
ghost use Rattle.std.specs.Prelude.{◌≡◌, ◌≢◌, ◌+◌, ◌<◌, ℕ, None, false, true, Ok, Err, length, IfOk, IfErr, IfSome, IsOk, IsErr, IsErrOf, MatchResult};
ghost use Rattle.wf_codec.specs.Records.{record_spelling};
ghost use Rattle.wf_journal.specs.Room.{UsesRoom};
ghost use Rattle.wf_worlds.specs.Ends.{IsShort, frame_size};
ghost use Rattle.wf_steps.specs.Growing.{MayAdmit};
ghost use Rattle.wf_server.specs.Servers.{admission, admit_record, told_by, with_admission};
ghost use Rattle.wf_server.specs.Images.{CrashLeaves};
ghost use Rattle.wf_server.specs.Running.{RunsOn};
ghost use Rattle.wf_server.specs.Answers.{outer_at, IsNew, IsNewRequest, IsAsked, AdmitAnswers};
ghost use Rattle.wf_server.specs.Repeating.{RepeatRefused};

use crate::node::Node;
use crate::{AdmitFault, Admitted};
use std::alloc::Global;
use wf_disk::Disk;
use wf_model::{Duplicate, Outer, Same};
use wf_steps::Admission;

// The number of a request that was admitted before, or that it was with another outer.
fn earlier_admission(
    alloc: Global,
    admissions: &[Admission],
    at: usize,
    outer: &Outer,
) -> Result<u64, AdmitFault>
    requires { at < length admissions.now }
    ensures { MatchResult result (λ number. (number ≡ at + 1) × (outer_at admissions.now at ≡ Some outer.now)) (RepeatRefused admissions.now at outer.now) }
{
    let found = &admissions[at];
    let kept = &found.outer;
    let number = at as u64 + 1;
    if kept.is_same(outer) {
        return Ok(number);
    }
    Err(AdmitFault::RequestReused {
        number,
        kept: kept.copy(alloc)?,
    })
}

impl<D: Disk> Node<D> {
    // The number of a request that was admitted before, none for one that may be admitted, or why it may not.
    fn consider(&self, request: u64, outer: &Outer) -> Result<Option<u64>, AdmitFault>
        ensures again { IfOk result (λ known. IfSome known (λ number. AdmitAnswers self.now request outer.now (Ok (Admitted.Again number)))) }
        ensures fresh { IfOk result (λ known. known ≡ None → IsNewRequest self.now request outer.now (Ok tt)) }
        ensures refused { IfErr result (λ fault. AdmitAnswers self.now request outer.now (Err fault)) }
        ensures reopen { self.now.journal.failed ≡ true → result ≡ Err AdmitFault.Reopen }
        ensures no_disk { IsErrOf result AdmitFault.DiskFailed → ⊥ }
        ensures unasked { IfErr result (λ fault. IsAsked (Err fault) → ⊥) }
    {
        if self.journal.is_failed() {
            return Err(AdmitFault::Reopen);
        }
        if let Some(at) = self.replica.find(request) {
            let admissions = self.replica.history().admissions();
            return Ok(Some(earlier_admission(self.alloc, admissions, at, outer)?));
        }
        self.replica.lets_in(outer)?;
        Ok(None)
    }

    // Admits a new request.
    fn add(&mut self, request: u64, outer: &Outer) -> Result<Admitted, AdmitFault>
        requires { IsNewRequest self.old request outer.now (Ok tt) }
        ensures answer { AdmitAnswers self.old request outer.now result }
        ensures done { IfOk result (λ _. self.new ≡ record self.old { journal = self.new.journal; past = with_admission self.old.past request outer.now; ready = false }) }
        ensures new { IfOk result (λ _. IsNew result) }
        ensures short { IsAsked result → IsShort outer.now }
        ensures kept { IsErr result → self.new ≡ record self.old { journal = self.new.journal } }
        ensures refused { IsErrOf result AdmitFault.JournalFull → self.new ≡ self.old }
        ensures place { IsNew result → self.new.journal.place ≡ self.old.journal.place + frame_size (admit_record request outer.now) }
        ensures place_kept { IsErr result → self.new.journal.place ≡ self.old.journal.place }
        ensures healthy { IsOk result → self.new.journal.failed ≡ false }
        ensures no_memory { IsErrOf result AdmitFault.NoMemory → self.new.journal.failed ≡ false }
        ensures failed { IsErrOf result AdmitFault.DiskFailed → self.new.journal.failed ≡ true }
        ensures crash { CrashLeaves (told_by D.told self.old) (told_by D.told self.new) self.old.journal.failed self.old.part self.old.past (with_admission self.old.past request outer.now) }
        ensures disk { RunsOn (told_by D.told self.old) (told_by D.told self.new) (IsNew result) (IsErrOf result AdmitFault.NoMemory) (IsErrOf result AdmitFault.DiskFailed) }
        ensures disk_room { UsesRoom (told_by D.told self.old) (told_by D.told self.new) 2 (length (record_spelling (admit_record request outer.now)) + 6) }
    {
        let number = self.replica.history().admissions().len() as u64 + 1;
        let body = self.replica.admit_body(self.alloc, request, outer)?;
        let outer = outer.copy(self.alloc)?;
        self.replica.reserve_admit()?;
        self.journal.append(body.as_slice())?;
        self.ready = None;
        self.replica.admit(request, outer);
        Ok(Admitted::New(number))
    }

    /// Admits an outer by a request. In this order: `Reopen` exactly if a disk call of `admit` or `turn` failed since the start;
    /// `Again` with the number of an admission that has this request and this outer, and `RequestReused` if it has another outer;
    /// `WrongUnit`, `NoItem`, `AlreadyDone` and `WrongOutput` exactly by the rule, over the items of the steps taken and all
    /// admissions so far; `JournalFull` exactly if the journal says so; `NoMemory`; `DiskFailed`, exactly at a stroke that the disk is
    /// to fail. Else `New`, with one more than the admissions before. After all but `New`, `DiskFailed` and `NoMemory` the node is as
    /// before, and after these two it is but for its journal. The journal's closed gate goes behind the record at `New`, and else it stays.
    /// Of the disk's room no more is gone than two writes, of the record's length and six bytes in all. If the journal was asked, the outer
    /// has at most 552 bytes.
    /// In constant time on average in the history, in linear time in the part and the outer.
    pub fn admit(&mut self, request: u64, outer: &Outer) -> Result<Admitted, AdmitFault>
        ensures answer { AdmitAnswers self.old request outer.now result }
        ensures new { IsNew result → self.new ≡ record self.old { journal = self.new.journal; past = with_admission self.old.past request outer.now; ready = false } }
        ensures short { IsAsked result → IsShort outer.now }
        ensures again { IfOk result (λ _. (IsNew result → ⊥) → self.new ≡ self.old) }
        ensures kept { IsErr result → self.new ≡ record self.old { journal = self.new.journal } }
        ensures refused { IsErr result → (IsErrOf result AdmitFault.NoMemory → ⊥) → (IsErrOf result AdmitFault.DiskFailed → ⊥) → self.new ≡ self.old }
        ensures healthy { IsOk result → self.new.journal.failed ≡ false }
        ensures no_memory { IsErrOf result AdmitFault.NoMemory → self.new.journal.failed ≡ self.old.journal.failed }
        ensures failed { IsErrOf result AdmitFault.DiskFailed → self.new.journal.failed ≡ true }
        ensures reopen { self.old.journal.failed ≡ true → (result ≡ Err AdmitFault.Reopen) × (self.new ≡ self.old) }

        // Where the journal's closed gate stands, also over a disk that doesn't tell its image.
        ensures place { IsNew result → self.new.journal.place ≡ self.old.journal.place + frame_size (admit_record request outer.now) }
        ensures place_kept { IsErr result → self.new.journal.place ≡ self.old.journal.place }

        // What a crash leaves, at any moment of the call, and what the call does to its disk.
        ensures crash { CrashLeaves (told_by D.told self.old) (told_by D.told self.new) self.old.journal.failed self.old.part self.old.past (with_admission self.old.past request outer.now) }
        ensures disk { RunsOn (told_by D.told self.old) (told_by D.told self.new) (IsNew result) (IsErrOf result AdmitFault.NoMemory) (IsErrOf result AdmitFault.DiskFailed) }
        ensures disk_room { UsesRoom (told_by D.told self.old) (told_by D.told self.new) 2 (length (record_spelling (admit_record request outer.now)) + 6) }
    {
        let _stands = &self.journal;
        if let Some(number) = self.consider(request, outer)? {
            return Ok(Admitted::Again(number));
        }
        self.add(request, outer)
    }
}
