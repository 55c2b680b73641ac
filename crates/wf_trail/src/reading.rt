//! What a unit's disk holds.
ghost use Rattle.std.specs.Prelude.{◌≡◌, ◌≤◌, List, ℕ, Some, length, IfOk, IfSome, IsErrOf};
ghost use Rattle.wf_disk.specs.Disk.{HasCause, IsSame};
ghost use Rattle.wf_journal.specs.Journal.{IsPlace};
ghost use Rattle.wf_journal.specs.Frames.{bodies_of};
ghost use Rattle.wf_journal.specs.Start.{LeavesStart};
ghost use Rattle.wf_steps.specs.Records.{history_of};
ghost use Rattle.wf_trail.specs.Images as spec;
ghost use Rattle.wf_trail.specs.Telling.{start_fault, IsKept};

use std::alloc::Global;
use wf_disk::Disk;
use wf_journal::{Journal, StartFault};
use wf_model::{Bytes, Failed};
use wf_parts::Part;
use wf_steps::{RecoverFault, Replica, recover};

/// A disk of fewer bytes has no frame.
const FEWEST_BYTES: u64 = 2;

/// A disk that was read, and what it holds: nothing where it has no frame.
pub struct Reading<D> {
    pub disk: D,
    pub kept: Result<Option<Replica>, RecoverFault>,
}

// Why a journal doesn't start, as a trail tells it.
fn start_fault(fault: StartFault) -> RecoverFault
    ensures { result ≡ start_fault fault }
{
    match fault {
        StartFault::BadFrame { at } => RecoverFault::BadRecord { at, first: 1 },
        StartFault::DiskFailed => RecoverFault::DiskFailed,
        StartFault::NoMemory => RecoverFault::NoMemory,
    }
}

// What the records of a journal make of the part's unit.
fn recover_unit<D: Disk>(
    alloc: Global,
    part: Part,
    journal: &mut Journal<D>,
) -> Result<Option<Replica>, RecoverFault>
    ensures part { IfOk result (λ kept. IfSome kept (λ replica. replica.part ≡ part)) }
    ensures kept { (file : List ℕ) → (D.told journal.old.disk).image ≡ Some file → IsPlace file 0 →
        IsKept (spec.some_of (history_of part file)) result }
    ensures same { IsSame (D.told journal.old.disk) (D.told journal.new.disk) }
    ensures cause { HasCause (D.told journal.old.disk) (D.told journal.new.disk) (IsErrOf result RecoverFault.DiskFailed) }
{
    match recover(alloc, part, journal) {
        Ok(replica) => Ok(Some(replica)),
        Err(refused) => Err(refused.fault),
    }
}

// What a journal holds of the part's unit: nothing if it has no frame.
fn replica_in<D: Disk>(
    alloc: Global,
    part: Part,
    journal: &mut Journal<D>,
) -> Result<Option<Replica>, RecoverFault>
    ensures part { IfOk result (λ kept. IfSome kept (λ replica. replica.part ≡ part)) }
    ensures kept { (file : List ℕ) → (D.told journal.old.disk).image ≡ Some file → IsPlace file 0 →
        IsKept (spec.kept_with part file (bodies_of file)) result }
    ensures same { IsSame (D.told journal.old.disk) (D.told journal.new.disk) }
    ensures cause { HasCause (D.told journal.old.disk) (D.told journal.new.disk) (IsErrOf result RecoverFault.DiskFailed) }
{
    let mut body = Bytes::new(alloc);
    match journal.read(0, &mut body) {
        Ok(Some(_)) => recover_unit(alloc, part, journal),
        Ok(None) => Ok(None),
        Err(fault) => Err(RecoverFault::from(fault)),
    }
}

// Reads a disk of two bytes or more.
fn read_journal<D: Disk>(alloc: Global, part: Part, disk: D) -> Reading<D>
    requires { (file : List ℕ) → (D.told disk).image ≡ Some file → 2 ≤ length file }
    ensures part { IfOk result.kept (λ kept. IfSome kept (λ replica. replica.part ≡ part)) }
    ensures kept { (file : List ℕ) → (D.told disk).image ≡ Some file → IsKept (spec.kept_in part file) result.kept }
    ensures image { (D.told result.disk).image ≡ (D.told disk).image }
    ensures crash { LeavesStart (D.told disk) (D.told result.disk) }
    ensures cause { HasCause (D.told disk) (D.told result.disk) (IsErrOf result.kept RecoverFault.DiskFailed) }
{
    match Journal::start(alloc, disk) {
        Ok(journal) => {
            let mut journal = journal;
            let kept = replica_in(alloc, part, &mut journal);
            Reading {
                disk: journal.close(),
                kept,
            }
        }
        Err(refused) => Reading {
            disk: refused.disk,
            kept: Err(start_fault(refused.fault)),
        },
    }
}

// Reads a disk of so many bytes.
fn read_sized<D: Disk>(alloc: Global, part: Part, disk: D, size: u64) -> Reading<D>
    requires { (file : List ℕ) → (D.told disk).image ≡ Some file → size ≡ length file }
    ensures part { IfOk result.kept (λ kept. IfSome kept (λ replica. replica.part ≡ part)) }
    ensures kept { (file : List ℕ) → (D.told disk).image ≡ Some file → IsKept (spec.kept_in part file) result.kept }
    ensures image { (D.told result.disk).image ≡ (D.told disk).image }
    ensures crash { LeavesStart (D.told disk) (D.told result.disk) }
    ensures cause { HasCause (D.told disk) (D.told result.disk) (IsErrOf result.kept RecoverFault.DiskFailed) }
{
    if size < FEWEST_BYTES {
        return Reading {
            disk,
            kept: Ok(None),
        };
    }
    read_journal(alloc, part, disk)
}

/// Reads what a disk holds of the part's unit. No byte of it is written. In linear time in the disk, times the part.
pub fn read_disk<D: Disk>(alloc: Global, part: Part, disk: D) -> Reading<D>
    ensures part { IfOk result.kept (λ kept. IfSome kept (λ replica. replica.part ≡ part)) }
    ensures kept { (file : List ℕ) → (D.told disk).image ≡ Some file → IsKept (spec.kept_in part file) result.kept }
    ensures image { (D.told result.disk).image ≡ (D.told disk).image }
    ensures crash { LeavesStart (D.told disk) (D.told result.disk) }
    ensures cause { HasCause (D.told disk) (D.told result.disk) (IsErrOf result.kept RecoverFault.DiskFailed) }
{
    let mut disk = disk;
    match disk.size() {
        Ok(size) => read_sized(alloc, part, disk, size),
        Err(Failed) => Reading {
            disk,
            kept: Err(RecoverFault::DiskFailed),
        },
    }
}
