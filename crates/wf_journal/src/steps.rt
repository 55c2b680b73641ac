//! The walk over the frames of a disk.
ghost use Rattle.std.specs.Prelude.{◌≡◌, ◌≢◌, ◌∷◌, IfSome, OnSome, ◌+◌, ◌≤◌, ◌<◌, ℕ, List, Option, None, Some, IfOk, IfErr, IsErr, IsErrOf, true, false, [], length, drop};
ghost use Rattle.wf_disk.specs.Disk.{IsSame, IsDown, HasCause};
ghost use Rattle.wf_journal.specs.Plan.{StartMeetsPlan};
ghost use Rattle.wf_journal.specs.Room.{UsesRoom};
ghost use Rattle.wf_journal.specs.Start.{TakesStrokes, IsWhole, IsBadAt, IsMade, LeavesStart};
ghost use Rattle.wf_journal.specs.Frames.{header, IsAtRest, end_of, is_broken};
ghost use Rattle.wf_journal.specs.Journal.{IsLeft, KeepsBodies, IsReadFrom};
ghost use Rattle.wf_journal.specs.StepAt.{step_of};

use crate::fault::{ReadFault, StartFault};
use crate::frame::{CLOSED, HEADER, is_fit, is_open};
use wf_disk::Disk;
use wf_model::Failed;

/// What stands at a place of the walk: a closed gate, an open gate with no whole frame behind it, or a frame and the
/// place behind it.
#[derive(Clone, Copy)]
pub enum Step {
    Closed,
    Broken,
    Next(u64),
}

/// What stands at a place of the walk.
pub fn step_at<D: Disk>(disk: &mut D, at: u64, size: u64) -> Result<Step, Failed>
    requires within { at < size }
    requires size { (file : List ℕ) → (D.told disk.old).image ≡ Some file → size ≡ length file }
    ensures step { IfOk result (λ step. (file : List ℕ) → (D.told disk.old).image ≡ Some file → step ≡ step_of at (drop at file)) }
    ensures next { IfOk result (λ step. (next : ℕ) → step ≡ Step.Next next → (at + header < next × next < size)) }
    ensures same { IsSame (D.told disk.old) (D.told disk.new) }
    ensures down { IsErr result → IsDown (D.told disk.old) }
    ensures cause { HasCause (D.told disk.old) (D.told disk.new) (IsErr result) }
{
    let mut gate = [0u8; 1];
    disk.read_at(at, &mut gate)?;
    if !is_open(gate[0]) {
        return Ok(Step::Closed);
    }
    if size - at <= HEADER {
        return Ok(Step::Broken);
    }
    let mut field = [0u8; 4];
    disk.read_at(at + 1, &mut field)?;
    let len = u64::from(u32::from_be_bytes(field));
    if is_fit(len, size - at - HEADER) {
        Ok(Step::Next(at + HEADER + len))
    } else {
        Ok(Step::Broken)
    }
}

/// The place of the closed gate behind the last frame.
pub fn walk<D: Disk>(disk: &mut D, size: u64) -> Result<u64, StartFault>
    requires some { 0 < size }
    requires size { (file : List ℕ) → (D.told disk.old).image ≡ Some file → size ≡ length file }
    ensures rests { IfOk result (λ at. (file : List ℕ) → (D.told disk.old).image ≡ Some file → IsAtRest file at) }
    ensures bad { IfErr result (λ e. (at : ℕ) → e ≡ StartFault.BadFrame at →
        (file : List ℕ) → (D.told disk.old).image ≡ Some file → (is_broken file ≡ true) × (end_of file ≡ at)) }
    ensures memory { IsErrOf result StartFault.NoMemory → ⊥ }
    ensures down { IsErrOf result StartFault.DiskFailed → IsDown (D.told disk.old) }
    ensures same { IsSame (D.told disk.old) (D.told disk.new) }
    ensures cause { HasCause (D.told disk.old) (D.told disk.new) (IsErrOf result StartFault.DiskFailed) }
{
    let mut at = 0;
    loop {
        match step_at(disk, at, size)? {
            Step::Closed => return Ok(at),
            Step::Broken => return Err(StartFault::BadFrame { at }),
            Step::Next(next) => at = next,
        }
    }
}

/// Syncs, makes a new journal on a disk of fewer than two bytes, and finds the closed gate.
pub fn find_end<D: Disk>(disk: &mut D) -> Result<u64, StartFault>
    ensures left { IfOk result (λ place. IsLeft (D.told disk.old) (D.told disk.new) place []) }
    ensures kept { KeepsBodies (D.told disk.old) (D.told disk.new) }
    ensures whole { IfOk result (λ _. IsWhole (D.told disk.old)) }
    ensures bad { IfErr result (λ e. (at : ℕ) → e ≡ StartFault.BadFrame at → IsBadAt (D.told disk.old) (D.told disk.new) at) }
    ensures any_moment { LeavesStart (D.told disk.old) (D.told disk.new) }
    ensures made { IfOk result (λ _. IsMade (D.told disk.old) (D.told disk.new)) }
    ensures strokes { IfOk result (λ _. TakesStrokes (D.told disk.old) (D.told disk.new)) }
    ensures most { IfOk result (λ _. (D.told disk.new).clock ≤ (D.told disk.old).clock + 3) }
    ensures one_stroke { IfErr result (λ e. e ≢ StartFault.DiskFailed → (D.told disk.new).clock ≡ (D.told disk.old).clock + 1) }
    ensures plan { StartMeetsPlan (D.told disk.old) (D.told disk.new) (IsErrOf result StartFault.DiskFailed) }
    ensures enough { (D.told disk.old).has_room 1 1 → IsErrOf result StartFault.NoMemory → ⊥ }
    ensures no_need { (file : List ℕ) → (D.told disk.old).image ≡ Some file → 2 ≤ length file → IsErrOf result StartFault.NoMemory → ⊥ }
    ensures disk_room { UsesRoom (D.told disk.old) (D.told disk.new) 1 1 }
    ensures cause { HasCause (D.told disk.old) (D.told disk.new) (IsErrOf result StartFault.DiskFailed) }
{
    disk.sync()?;
    let size = disk.size()?;
    if size < 2 {
        disk.write_at(0, &[CLOSED])?;
        disk.sync()?;
        return Ok(0);
    }
    walk(disk, size)
}

/// Clears `body`, reads the body of the frame at a place into it, and gives the place behind it; none at the end.
pub fn read_frame<D: Disk>(
    disk: &mut D,
    place: u64,
    body: &mut Vec<u8>,
) -> Result<Option<u64>, ReadFault>
    ensures read { IfOk result (λ next. IsReadFrom (D.told disk.old) place next body.new.items) }
    ensures next { IfOk result (λ found. IfSome found (λ next. next ≡ place + (header + length body.new.items))) }
    ensures some { IfOk result (λ found. OnSome found (1 ≤ length body.new.items)) }
    ensures none { IfOk result (λ next. next ≡ None → body.new.items ≡ []) }
    ensures same { IsSame (D.told disk.old) (D.told disk.new) }
    ensures down { IsErrOf result ReadFault.DiskFailed → IsDown (D.told disk.old) }
    ensures cause { HasCause (D.told disk.old) (D.told disk.new) (IsErrOf result ReadFault.DiskFailed) }
{
    body.clear();
    let size = disk.size()?;
    if place >= size {
        return Ok(None);
    }
    let step = step_at(disk, place, size)?;
    let Step::Next(next) = step else {
        return Ok(None);
    };
    body.resize((next - place - HEADER) as usize, 0)?;
    disk.read_at(place + HEADER, body)?;
    Ok(Some(next))
}
