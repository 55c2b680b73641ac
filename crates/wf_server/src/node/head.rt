//! How a start writes the head of a journal without frames, and reads the unit.
ghost use Rattle.std.specs.Prelude.{◌≡◌, ◌↔◌, ◌+◌, ◌≤◌, ℕ, List, Some, Ok, Err, true, false, IfOk, IfErr, OnOk, IsErrOf};
ghost use Rattle.wf_disk.specs.Disk.{HasCause, IsDown, IsSame};
ghost use Rattle.wf_journal.specs.Room.{UsesRoom};
ghost use Rattle.wf_journal.specs.Start.{CanBeRead};
ghost use Rattle.wf_journal.specs.Frames.{end_of};
ghost use Rattle.wf_steps.specs.Records.{history_of};
ghost use Rattle.wf_worlds.specs.Ends.{end_of_history};
ghost use Rattle.wf_steps.specs.Recovering.{IsFault};
ghost use Rattle.wf_server.specs.Heads.{Stretch, HeadStrokes, HeadRoom, most_head, IsStill, IsEmpty, IsBegun, IsOpen};
ghost use Rattle.wf_server.specs.Starting.{head_length};

use std::alloc::Global;
use wf_codec::encode_head;
use wf_disk::{Disk, WriteRefused};
use wf_journal::{AppendFault, Journal, ReadFault};
use wf_model::Bytes;
use wf_parts::Part;
use wf_steps::{RecoverFault, RecoverRefused, Replica, recover};

// Whether a journal has a frame.
fn has_frame<D: Disk>(alloc: Global, journal: &mut Journal<D>) -> Result<bool, ReadFault>
    requires { CanBeRead (D.told journal.old.disk) }
    ensures none { IfOk result (λ found. found ≡ false → IsEmpty (D.told journal.old.disk)) }
    ensures some { IfOk result (λ found. found ≡ true → IsBegun (D.told journal.old.disk)) }
    ensures same { IsSame (D.told journal.old.disk) (D.told journal.new.disk) }
    ensures kept { journal.new ≡ record journal.old { disk = journal.new.disk } }
    ensures down { IsErrOf result ReadFault.DiskFailed → IsDown (D.told journal.old.disk) }
    ensures cause { HasCause (D.told journal.old.disk) (D.told journal.new.disk) (IsErrOf result ReadFault.DiskFailed) }
{
    let mut body = Bytes::new(alloc);
    match journal.read(0, &mut body) {
        Ok(Some(_)) => Ok(true),
        Ok(None) => Ok(false),
        Err(fault) => Err(fault),
    }
}

// Why a head isn't written. Where the disk tells its image, a journal without frames has room for one.
fn unwritten_by(fault: AppendFault) -> WriteRefused
    ensures { (result ≡ WriteRefused.Failed) ↔ (fault ≡ AppendFault.DiskFailed) }
{
    match fault {
        AppendFault::DiskFailed => WriteRefused::Failed,
        AppendFault::Reopen | AppendFault::TooLong | AppendFault::Full | AppendFault::NoMemory => {
            WriteRefused::NoMemory
        }
    }
}

// Why a journal's first frame isn't read.
fn unread_by(fault: ReadFault) -> WriteRefused
    ensures { (result ≡ WriteRefused.Failed) ↔ (fault ≡ ReadFault.DiskFailed) }
{
    match fault {
        ReadFault::DiskFailed => WriteRefused::Failed,
        ReadFault::NoMemory => WriteRefused::NoMemory,
    }
}

// Writes the head of a journal without frames, in four strokes.
fn write_head<D: Disk>(
    alloc: Global,
    part: &Part,
    journal: &mut Journal<D>,
) -> Result<(), WriteRefused>
    requires healthy { journal.old.failed ≡ false }
    requires empty { IsEmpty (D.told journal.old.disk) }
    ensures stretch { Stretch part.now (D.told journal.old.disk) (D.told journal.new.disk) 4 (IsErrOf result WriteRefused.Failed) }
    ensures begun { OnOk result (IsOpen (D.told journal.new.disk)) }
    ensures healthy { OnOk result (journal.new.failed ≡ false) }
    ensures four { OnOk result ((D.told journal.new.disk).clock ≡ (D.told journal.old.disk).clock + 4) }
    ensures room { UsesRoom (D.told journal.old.disk) (D.told journal.new.disk) 2 (head_length part.now + 6) }
{
    let data = part.data();
    let Ok(body) = encode_head(alloc, &data.chart, &data.name) else {
        return Err(WriteRefused::NoMemory);
    };
    match journal.append(body.as_slice()) {
        Ok(()) => Ok(()),
        Err(fault) => Err(unwritten_by(fault)),
    }
}

// Writes the head of a journal where there is no frame.
fn begin<D: Disk>(alloc: Global, part: &Part, journal: &mut Journal<D>) -> Result<(), WriteRefused>
    requires healthy { journal.old.failed ≡ false }
    requires readable { CanBeRead (D.told journal.old.disk) }
    requires still { IsStill (D.told journal.old.disk) }
    ensures stretch { Stretch part.now (D.told journal.old.disk) (D.told journal.new.disk) (most_head (D.told journal.old.disk).image) (IsErrOf result WriteRefused.Failed) }
    ensures begun { OnOk result (IsOpen (D.told journal.new.disk)) }
    ensures healthy { OnOk result (journal.new.failed ≡ false) }
    ensures strokes { OnOk result (HeadStrokes (D.told journal.old.disk) (D.told journal.new.disk)) }
    ensures room { HeadRoom part.now (D.told journal.old.disk) (D.told journal.new.disk) }
{
    match has_frame(alloc, journal) {
        Ok(true) => Ok(()),
        Ok(false) => write_head(alloc, part, journal),
        Err(fault) => Err(unread_by(fault)),
    }
}

/// The unit of a journal as it was opened. The head is written where there is no frame. The refusals are those of a recovery, and the part
/// is given back. In linear time in the journal, times the part, with one frame in memory at a time.
pub fn read_unit<D: Disk>(
    alloc: Global,
    part: Part,
    journal: &mut Journal<D>,
) -> Result<Replica, RecoverRefused>
    requires healthy { journal.old.failed ≡ false }
    requires readable { CanBeRead (D.told journal.old.disk) }
    requires still { IsStill (D.told journal.old.disk) }
    ensures history { IfOk result (λ r. (file : List ℕ) → (D.told journal.old.disk).image ≡ Some file → history_of part file ≡ Ok r.past) }
    ensures fault { IfErr result (λ refused. (file : List ℕ) → (D.told journal.old.disk).image ≡ Some file → IsFault (history_of part file) refused.fault) }
    ensures part { IfOk result (λ r. r.part ≡ part) }
    ensures given_back { IfErr result (λ refused. refused.part ≡ part) }

    // The disk.
    ensures stretch { IfOk result (λ _. Stretch part (D.told journal.old.disk) (D.told journal.new.disk) (most_head (D.told journal.old.disk).image) ⊥) }
    ensures stretch_refused { IfErr result (λ refused. Stretch part (D.told journal.old.disk) (D.told journal.new.disk) (most_head (D.told journal.old.disk).image) (refused.fault ≡ RecoverFault.DiskFailed)) }
    ensures begun { IfOk result (λ _. IsOpen (D.told journal.new.disk)) }
    ensures end { IfOk result (λ r. (file : List ℕ) → (D.told journal.new.disk).image ≡ Some file → end_of file ≡ end_of_history r.part r.past) }
    ensures healthy { IfOk result (λ _. journal.new.failed ≡ false) }
    ensures strokes { IfOk result (λ _. HeadStrokes (D.told journal.old.disk) (D.told journal.new.disk)) }
    ensures room { HeadRoom part (D.told journal.old.disk) (D.told journal.new.disk) }
{
    match begin(alloc, &part, journal) {
        Ok(()) => recover(alloc, part, journal),
        Err(WriteRefused::Failed) => Err(RecoverRefused {
            fault: RecoverFault::DiskFailed,
            part,
        }),
        Err(WriteRefused::NoMemory) => Err(RecoverRefused {
            fault: RecoverFault::NoMemory,
            part,
        }),
    }
}
