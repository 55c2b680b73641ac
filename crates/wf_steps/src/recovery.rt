//! A unit's history, read from its journal.
ghost use Rattle.std.specs.Prelude.{◌≡◌, ◌+◌, ◌≤◌, ◌&&◌, List, ℕ, Some, Ok, Err, length, if◌then◌else◌, OnOk, IfOk, IfErr, IsErrOf, IsErrAnd};
ghost use Rattle.std.specs.Str.{bytes_eq};
ghost use Rattle.wf_disk.specs.Disk.{IsSame, IsDown, HasCause};
ghost use Rattle.wf_journal.specs.Frames.{header, end_of};
ghost use Rattle.wf_journal.specs.Journal.{IsPlace};
ghost use Rattle.wf_codec.specs.Records.{record_of};
ghost use Rattle.wf_codec.specs.declared.record.JournalRecord.TheVariants.{Head};
ghost use Rattle.wf_worlds.specs.Worlds.{first_history};
ghost use Rattle.wf_steps.specs.Records.{after_body, bad_at, or_bad, head_of};
ghost use Rattle.wf_worlds.specs.Ends.{frame_size, end_of_history};
ghost use Rattle.wf_steps.specs.Recovering.{IsFault, Reads, FromPlace, OfImage, EndsAt};
ghost use Rattle.wf_steps.specs.declared.fault.RecoverFault.TheVariants as f;

use crate::Replica;
use crate::fault::{HeadNames, RecoverFault};
use crate::following::{Unfollowed, take_body};
use std::alloc::Global;
use wf_codec::{JournalRecord, RecordFault, decode_record};
use wf_disk::Disk;
use wf_journal::Journal;
use wf_model::{Bytes, Duplicate, Name, NoMemory};
use wf_parts::{Part, PartData};

/// Why no unit is recovered, with its part.
#[derive(Drop)]
pub struct RecoverRefused {
    /// Why.
    pub fault: RecoverFault,
    /// The part, given back.
    pub part: Part,
}

// The names by which a journal is the part's.
fn wanted_names(alloc: Global, part: &PartData) -> Result<HeadNames, NoMemory>
    ensures { IfOk result (λ names. names ≡ record { chart = part.now.chart; unit = part.now.name }) }
{
    let chart = part.chart.copy(alloc)?;
    let unit = part.name.copy(alloc)?;
    Ok(HeadNames { chart, unit })
}

// Whether these are the names of the part.
fn are_own(part: &PartData, chart: &Name, unit: &Name) -> bool
    ensures { result ≡ (bytes_eq chart.now part.now.chart && bytes_eq unit.now part.now.name) }
{
    chart.as_bytes() == part.chart.as_bytes() && unit.as_bytes() == part.name.as_bytes()
}

// Tests the names of a head.
fn check_names(alloc: Global, part: &PartData, chart: Name, unit: Name) -> Result<(), RecoverFault>
    ensures reads { Reads (if bytes_eq chart part.now.chart && bytes_eq unit part.now.name then Ok (first_history part.now.unit.0) else Err (f.Foreign (record { chart = chart; unit = unit }) (record { chart = part.now.chart; unit = part.now.name }))) (first_history part.now.unit.0) result }
    ensures own { OnOk result ((chart ≡ part.now.chart) × (unit ≡ part.now.name)) }
    ensures running { IsErrOf result RecoverFault.DiskFailed → ⊥ }
{
    if are_own(part, &chart, &unit) {
        return Ok(());
    }
    let wanted = wanted_names(alloc, part)?;
    Err(RecoverFault::Foreign {
        kept: HeadNames { chart, unit },
        wanted,
    })
}

// The body at this place is no record, or doesn't follow.
fn bad_record(at: u64, body: &[u8]) -> RecoverFault
    requires { 1 ≤ length body.now }
    ensures { result ≡ bad_at at body.now }
{
    RecoverFault::BadRecord { at, first: body[0] }
}

// Tests the first record of a journal: a head with the names of the part.
fn check_head(alloc: Global, part: &PartData, at: u64, body: &[u8]) -> Result<(), RecoverFault>
    requires place { at ≡ header }
    requires some { 1 ≤ length body.now }
    ensures reads { Reads (head_of part.now body.now (record_of body.now)) (first_history part.now.unit.0) result }
    ensures size { OnOk result (header + length body.now ≡ frame_size (Head 1 part.now.chart part.now.name)) }
    ensures running { IsErrOf result RecoverFault.DiskFailed → ⊥ }
{
    match decode_record(alloc, body) {
        Ok(JournalRecord::Head { chart, unit, .. }) => check_names(alloc, part, chart, unit),
        Ok(JournalRecord::Admit { .. }) => Err(bad_record(at, body)),
        Ok(JournalRecord::Turn { .. }) => Err(bad_record(at, body)),
        Err(RecordFault::NotRecord) => Err(bad_record(at, body)),
        Err(RecordFault::NoMemory) => Err(RecoverFault::NoMemory),
    }
}

// Takes the record whose body begins at this place.
fn read_record(
    alloc: Global,
    replica: &mut Replica,
    at: u64,
    body: &[u8],
) -> Result<(), RecoverFault>
    requires { 1 ≤ length body.now }
    ensures part { replica.new.part ≡ replica.old.part }
    ensures reads { Reads (or_bad (bad_at at body.now) (after_body replica.old.part replica.old.past body.now) (λ h. Ok h)) replica.new.past result }
    ensures grows { OnOk result (end_of_history replica.new.part replica.new.past ≡ end_of_history replica.old.part replica.old.past + (header + length body.now)) }
    ensures running { IsErrOf result RecoverFault.DiskFailed → ⊥ }
{
    match take_body(alloc, replica, body) {
        Ok(()) => Ok(()),
        Err(Unfollowed::Misfit) => Err(bad_record(at, body)),
        Err(Unfollowed::NoMemory) => Err(RecoverFault::NoMemory),
    }
}

// Takes the records of the frames from this place on, one in memory at a time.
fn read_rest<D: Disk>(
    alloc: Global,
    replica: &mut Replica,
    journal: &mut Journal<D>,
    place: u64,
) -> Result<(), RecoverFault>
    ensures part { replica.new.part ≡ replica.old.part }
    ensures reads { FromPlace (D.told journal.old.disk) replica.old.part place replica.old.past (λ wanted. Reads wanted replica.new.past result) }
    ensures end { OnOk result (place ≡ end_of_history replica.old.part replica.old.past → (file : List ℕ) → (D.told journal.old.disk).image ≡ Some file → IsPlace file place →
        end_of file ≡ end_of_history replica.new.part replica.new.past) }
    ensures same { IsSame (D.told journal.old.disk) (D.told journal.new.disk) }
    ensures kept { journal.new ≡ record journal.old { disk = journal.new.disk } }
    ensures down { IsErrOf result RecoverFault.DiskFailed → IsDown (D.told journal.old.disk) }
    ensures cause { HasCause (D.told journal.old.disk) (D.told journal.new.disk) (IsErrOf result RecoverFault.DiskFailed) }
{
    let mut body = Bytes::new(alloc);
    let mut at = place;
    while let Some(next) = journal.read(at, &mut body)? {
        read_record(alloc, replica, next - body.len() as u64, body.as_slice())?;
        at = next;
    }
    Ok(())
}

// Takes the records of a journal, the head first.
fn read_all<D: Disk>(
    alloc: Global,
    replica: &mut Replica,
    journal: &mut Journal<D>,
) -> Result<(), RecoverFault>
    requires { replica.old.past ≡ first_history replica.old.part.unit.0 }
    ensures part { replica.new.part ≡ replica.old.part }
    ensures reads { OfImage (D.told journal.old.disk) replica.old.part (λ wanted. Reads wanted replica.new.past result) }
    ensures end { OnOk result (EndsAt (D.told journal.old.disk) replica.new.part replica.new.past) }
    ensures same { IsSame (D.told journal.old.disk) (D.told journal.new.disk) }
    ensures kept { journal.new ≡ record journal.old { disk = journal.new.disk } }
    ensures down { IsErrOf result RecoverFault.DiskFailed → IsDown (D.told journal.old.disk) }
    ensures cause { HasCause (D.told journal.old.disk) (D.told journal.new.disk) (IsErrOf result RecoverFault.DiskFailed) }
{
    let mut body = Bytes::new(alloc);
    let Some(next) = journal.read(0, &mut body)? else {
        return Ok(());
    };
    let at = next - body.len() as u64;
    check_head(alloc, replica.part().data(), at, body.as_slice())?;
    read_rest(alloc, replica, journal, next)
}

/// The unit after the records of its journal, one frame in memory at a time. `Foreign` comes exactly where the first record is a head
/// with other names, `BadRecord` exactly where a body is no record or doesn't follow, for the first such body, and `DiskFailed` only
/// over a disk that is down. The part is given back. It makes no stroke. In linear time in the journal, times the part.
pub fn recover<D: Disk>(
    alloc: Global,
    part: Part,
    journal: &mut Journal<D>,
) -> Result<Replica, RecoverRefused>
    // The history is the image's, and the fault is that of the first body that is wrong.
    ensures history { OfImage (D.told journal.old.disk) part (λ wanted. IfOk result (λ r. wanted ≡ Ok r.past)) }
    ensures fault { OfImage (D.told journal.old.disk) part (λ wanted. IfErr result (λ refused. IsFault wanted refused.fault)) }

    // Behind its records stands the gate, if there are any.
    ensures end { IfOk result (λ r. EndsAt (D.told journal.old.disk) r.part r.past) }

    // The part, and where the disk and the journal stay.
    ensures part { IfOk result (λ r. r.part ≡ part) }
    ensures given_back { IfErr result (λ refused. refused.part ≡ part) }
    ensures same { IsSame (D.told journal.old.disk) (D.told journal.new.disk) }
    ensures kept { journal.new ≡ record journal.old { disk = journal.new.disk } }

    // It fails only over a disk that fails.
    ensures down { IsErrAnd result (λ refused. refused.fault ≡ RecoverFault.DiskFailed) → IsDown (D.told journal.old.disk) }
    ensures cause { HasCause (D.told journal.old.disk) (D.told journal.new.disk) (IsErrAnd result (λ refused. refused.fault ≡ RecoverFault.DiskFailed)) }
{
    let mut replica = match Replica::new(alloc, part) {
        Ok(replica) => replica,
        Err(refused) => {
            return Err(RecoverRefused {
                fault: RecoverFault::NoMemory,
                part: refused.part,
            });
        }
    };
    match read_all(alloc, &mut replica, journal) {
        Ok(()) => Ok(replica),
        Err(fault) => Err(RecoverRefused {
            fault,
            part: replica.into_part(),
        }),
    }
}
