//! The four strokes of an append.
ghost use Rattle.std.specs.Prelude.{◌≡◌, ◌+◌, ◌≤◌, ◌<◌, ◌∷◌, [], OnOk, IsOk, IsErrOf, is_some, length, vec_capacity};
ghost use Rattle.wf_disk.specs.Disk.{HasCause, IsSafeFor};
ghost use Rattle.wf_model.specs.Limits.{max_body, max_journal};
ghost use Rattle.wf_journal.specs.Append.{IsWritten, LeavesBeforeOrAfter, LeavesBefore};
ghost use Rattle.wf_journal.specs.Plan.{MeetsPlan};
ghost use Rattle.wf_journal.specs.Room.{UsesRoom};
ghost use Rattle.wf_journal.specs.Frames.{header};
ghost use Rattle.wf_journal.specs.Journal.{IsSettled, IsLeft};

use crate::frame::{OPEN, pack};
use wf_disk::{Disk, WriteRefused};

/// Writes a frame behind the closed gate, and then opens the gate.
pub fn put<D: Disk>(
    disk: &mut D,
    place: u64,
    body: &[u8],
    frame: &mut Vec<u8>,
) -> Result<(), WriteRefused>
    requires some { 1 ≤ length body.now }
    requires most { length body.now ≤ max_body }
    requires fits { place + length body.now + 6 ≤ max_journal }
    requires settled { IsSettled (D.told disk.old) place }

    ensures ok { OnOk result
        (IsLeft (D.told disk.old) (D.told disk.new) (place + (header + length body.now)) (body.now ∷ [])) }
    ensures bytes { OnOk result (IsWritten (D.told disk.old) (D.told disk.new) place body.now) }
    ensures no_memory { IsErrOf result WriteRefused.NoMemory → IsLeft (D.told disk.old) (D.told disk.new) place [] }
    ensures any_moment { LeavesBeforeOrAfter (D.told disk.old) (D.told disk.new) body.now }
    ensures fewer { (D.told disk.new).clock < (D.told disk.old).clock + 3 → LeavesBefore (D.told disk.old) (D.told disk.new) }
    ensures tells { is_some (D.told disk.new).image ≡ is_some (D.told disk.old).image }
    ensures four { OnOk result ((D.told disk.new).clock ≡ (D.told disk.old).clock + 4) }
    ensures two { IsErrOf result WriteRefused.NoMemory → (D.told disk.new).clock ≤ (D.told disk.old).clock + 2 }
    ensures plan { MeetsPlan (D.told disk.old) (D.told disk.new) 4 (IsErrOf result WriteRefused.Failed) }
    ensures good { IsSafeFor (D.told disk.old) 4 → (D.told disk.old).has_room 2 (length body.now + 6) →
        header + length body.now ≤ vec_capacity frame.old → IsOk result }
    ensures enough { (D.told disk.old).has_room 2 (length body.now + 6) →
        header + length body.now ≤ vec_capacity frame.old → IsErrOf result WriteRefused.NoMemory → ⊥ }
    ensures capacity { vec_capacity frame.old ≤ vec_capacity frame.new }
    ensures disk_room { UsesRoom (D.told disk.old) (D.told disk.new) 2 (length body.now + 6) }
    ensures cause { HasCause (D.told disk.old) (D.told disk.new) (IsErrOf result WriteRefused.Failed) }
{
    pack(frame, body)?;
    disk.write_at(place + 1, frame)?;
    disk.sync()?;
    disk.write_at(place, &[OPEN])?;
    disk.sync()?;
    Ok(())
}
