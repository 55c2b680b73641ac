//! The trail of all units, by the disks of a shelf.
ghost use Rattle.std.specs.Prelude.{◌≡◌, ◌≢◌, ◌⊎◌, ◌↔◌, ◌+◌, ◌^◌, ◌≤◌, ◌<◌, List, ℕ, None, Some, length, is_some, option_map, IsTrue, MatchResult, IfOk, IfErr, IfSome, IsSome, IsOk, OnOk, OnErr, IsErrOf, IsErrAnd};
ghost use Rattle.wf_model.specs.Faults.{Rose};
ghost use Rattle.wf_disk.specs.Disk.{HasCause, IsLawful};
ghost use Rattle.wf_disk.specs.Shelf.{KeepsDisk, IsTaken};
ghost use Rattle.wf_journal.specs.Start.{LeavesStart};
ghost use Rattle.wf_parts.specs.Components.{flat_of};
ghost use Rattle.wf_parts.specs.Parts.{part_of};
ghost use Rattle.wf_trail.specs.TrailText.{unit_text};
ghost use Rattle.wf_trail.specs.Images as spec;
ghost use Rattle.wf_trail.specs.Shelves.{Tells, KeepsDisks, KeepsBodies, IsOfDisk, IsOfUnits};
ghost use Rattle.wf_trail.specs.Telling.{TellsBy, TellsBoth, TellsShort, TellsUnit, ComesBack, IsFree, HasCauses, NamesUnits, take_fault, first_loss};

use crate::TrailFault;
use crate::fault::fault_at;
use crate::reading::{Reading, read_disk};
use crate::text::unit_text;
use std::alloc::Global;
use wf_disk::{Disk, DiskShelf, TakeRefused};
use wf_model::limits::MAX_REPORT;
use wf_model::{Bytes, Checked, Failed, Name, NoMemory, UnitId};
use wf_ortho::orthogonalise;
use wf_partition::part_of;
use wf_parts::Flat;
use wf_steps::{RecoverFault, Replica};

// A disk that was read, and the text of its unit.
struct UnitTrail<D> {
    disk: D,
    text: Result<Bytes, TrailFault>,
}

// What is told of some units, after their disks were given back.
#[derive(Drop)]
struct Trails {
    text: Result<Bytes, TrailFault>,
    // The first unit whose disk the shelf failed to take back.
    lost: Option<UnitId>,
}

// Lets go of what a unit kept.
fn let_go(kept: Option<Replica>) {
    if let Some(replica) = kept {
        let _part = replica.into_part();
    }
}

// The text of a unit that kept this, or nothing.
fn text_of(
    alloc: Global,
    checked: &Checked,
    unit: UnitId,
    kept: Option<Replica>,
) -> Result<Bytes, TrailFault>
    requires { IfSome kept (λ replica. replica.part ≡ part_of checked.now unit.0) }
    ensures { MatchResult result
        (λ text. text ≡ unit_text checked.now unit.0 (option_map (λ replica. replica.past) kept)) (λ fault. fault ≡ TrailFault.NoMemory) }
{
    let text = unit_text(alloc, checked, unit, &kept);
    let_go(kept);
    Ok(text?)
}

// The text of a unit, by what its disk holds.
fn text_by(
    alloc: Global,
    checked: &Checked,
    unit: UnitId,
    kept: Result<Option<Replica>, RecoverFault>,
) -> Result<Bytes, TrailFault>
    requires part { IfOk kept (λ kept. IfSome kept (λ replica. replica.part ≡ part_of checked.now unit.0)) }
    requires within { unit.0 < length checked.now.units }
    ensures text { TellsBy checked.now unit.0 kept result }
    ensures cause { IsErrAnd result IsOfDisk ↔ IsErrOf kept RecoverFault.DiskFailed }
    ensures unit { IfErr result (IsOfUnits (length checked.now.units)) }
{
    match kept {
        Ok(kept) => text_of(alloc, checked, unit, kept),
        Err(fault) => Err(fault_at(unit, fault)),
    }
}

// Reads the disk of a unit.
fn read_unit<D: Disk>(
    alloc: Global,
    checked: &Checked,
    flat: &Flat,
    unit: UnitId,
    disk: D,
) -> UnitTrail<D>
    requires flat { flat.now ≡ flat_of checked.now }
    requires within { unit.0 < length checked.now.units }
    ensures text { (file : List ℕ) → (D.told disk).image ≡ Some file →
        spec.MayTell (spec.text_by checked.now unit.0 (spec.kept_in (part_of checked.now unit.0) file)) result.text }
    ensures image { (D.told result.disk).image ≡ (D.told disk).image }
    ensures crash { LeavesStart (D.told disk) (D.told result.disk) }
    ensures lawful { IsLawful (D.told result.disk) }
    ensures cause { HasCause (D.told disk) (D.told result.disk) (IsErrAnd result.text IsOfDisk) }
    ensures unit { IfErr result.text (IsOfUnits (length checked.now.units)) }
{
    match part_of(alloc, checked, flat, unit) {
        Ok(part) => {
            let Reading { disk, kept } = read_disk(alloc, part, disk);
            let text = text_by(alloc, checked, unit, kept);
            UnitTrail { disk, text }
        }
        Err(NoMemory) => UnitTrail {
            disk,
            text: Err(TrailFault::NoMemory),
        },
    }
}

// A unit's text, and that of the units behind it; or the first fault.
fn append_rest(
    text: Result<Bytes, TrailFault>,
    rest: Result<Bytes, TrailFault>,
) -> Result<Bytes, TrailFault>
    ensures text { TellsBoth text rest result }
    ensures cause { IsErrAnd result IsOfDisk → IsErrAnd text IsOfDisk ⊎ IsErrAnd rest IsOfDisk }
    ensures both { IsOk result → IsOk text × IsOk rest }
    ensures unit { (units : ℕ) → IfErr text (IsOfUnits units) → IfErr rest (IsOfUnits units) → IfErr result (IsOfUnits units) }
{
    let mut text = text?;
    let rest = rest?;
    text.append(rest.as_slice())?;
    Ok(text)
}

// The first unit whose disk wasn't taken back, by that of the units behind this one.
fn first_loss(unit: UnitId, behind: Option<UnitId>, given: Result<(), Failed>) -> Option<UnitId>
    ensures { result ≡ first_loss unit behind given }
{
    match given {
        Ok(()) => behind,
        Err(Failed) => Some(unit),
    }
}

// What is told of a unit and of those behind it, after the unit's disk was given back or not.
fn join(
    unit: UnitId,
    text: Result<Bytes, TrailFault>,
    rest: Trails,
    given: Result<(), Failed>,
) -> Trails
    ensures text { TellsBoth text rest.text result.text }
    ensures cause { IsErrAnd result.text IsOfDisk → IsErrAnd text IsOfDisk ⊎ IsErrAnd rest.text IsOfDisk }
    ensures both { IsOk result.text → IsOk text × IsOk rest.text }
    ensures lost { result.lost ≡ first_loss unit rest.lost given }
    ensures unit { (units : ℕ) → unit.0 < units → IfErr text (IsOfUnits units) → NamesUnits units rest → NamesUnits units result }
{
    Trails {
        text: append_rest(text, rest.text),
        lost: first_loss(unit, rest.lost, given),
    }
}

// Reads the disk of a unit, after those of the units behind it, and gives it back.
fn tell_unit<H: DiskShelf>(
    alloc: Global,
    checked: &Checked,
    flat: &Flat,
    shelf: &mut H,
    unit: UnitId,
    name: &Name,
    disk: H::Disk,
    rest: Trails,
) -> Trails
    requires flat { flat.now ≡ flat_of checked.now }
    requires within { unit.0 < length checked.now.units }
    requires out { IsTrue (is_some ((H.told shelf.old).taken_at name.now)) }
    requires sound { (H.Disk.told disk).faults ≡ 0 }
    ensures text { TellsUnit checked.now unit.0 (H.Disk.told disk).image rest.text result.text }
    ensures back { ComesBack name.now (H.told shelf.old) (H.told shelf.new) (H.Disk.told disk) }
    ensures causes { (before : ℕ) → HasCauses before (H.told shelf.old).faults rest → HasCauses before (H.told shelf.new).faults result }
    ensures units { NamesUnits (length checked.now.units) rest → NamesUnits (length checked.now.units) result }
{
    let UnitTrail { disk, text } = read_unit(alloc, checked, flat, unit, disk);
    let given = shelf.give(name, disk);
    join(unit, text, rest, given)
}

// Why a disk isn't handed out, as a trail tells it.
fn take_fault(unit: UnitId, refused: TakeRefused) -> TrailFault
    ensures { result ≡ take_fault unit refused }
{
    match refused {
        TakeRefused::Failed => TrailFault::DiskFailed { unit },
        TakeRefused::NoMemory => TrailFault::NoMemory,
    }
}

// Takes the disk of a unit.
fn take_disk<H: DiskShelf>(shelf: &mut H, unit: UnitId, name: &Name) -> Result<H::Disk, TrailFault>
    ensures taken { IfOk result (λ disk. IsTaken name.now (H.told shelf.old) (H.told shelf.new) (H.Disk.told disk)) }
    ensures others { (n : List ℕ) → n ≢ name.now → KeepsDisk n (H.told shelf.old) (H.told shelf.new) }
    ensures same { OnOk result ((H.told shelf.new).faults ≡ (H.told shelf.old).faults) }
    ensures kept { OnErr result (KeepsDisks (H.told shelf.old) (H.told shelf.new)) }
    ensures bodies { OnErr result (KeepsBodies (H.told shelf.old) (H.told shelf.new)) }
    ensures free { IfErr result IsFree }
    ensures later { (H.told shelf.old).faults ≤ (H.told shelf.new).faults }
    ensures rose { IsErrAnd result IsOfDisk → Rose (H.told shelf.old).faults (H.told shelf.new).faults }
    ensures unit { (units : ℕ) → unit.0 < units → IfErr result (IsOfUnits units) }
{
    match shelf.take(name) {
        Ok(disk) => Ok(disk),
        Err(refused) => Err(take_fault(unit, refused)),
    }
}

// Tells the prover what holds of every disk. It does nothing.
fn is_a_disk<D: Disk>(disk: &D)
    ensures { IsLawful (D.told disk.now) }
{}

// Takes the disks of the units with these names, the first of which has this number. Once all are out it reads them, from the last to
// the first, and gives each back. If one isn't handed out, none is read, and those that are out are given back.
fn trail_from<H: DiskShelf>(
    alloc: Global,
    checked: &Checked,
    flat: &Flat,
    shelf: &mut H,
    unit: UnitId,
    names: &[Name],
) -> Result<Trails, TrailFault>
    requires flat { flat.now ≡ flat_of checked.now }
    requires within { unit.0 + length names.now ≤ length checked.now.units }
    requires few { length checked.now.units < 2 ^ 32 }
    ensures text { (images : List ℕ → List ℕ) → Tells (H.told shelf.old) images →
        IfOk result (λ trail. spec.MayTell (spec.trail_from checked.now images unit.0 names.now) trail.text) }
    ensures free { IfErr result IsFree }
    ensures disks { KeepsDisks (H.told shelf.old) (H.told shelf.new) }
    ensures bodies { KeepsBodies (H.told shelf.old) (H.told shelf.new) }
    ensures later { (H.told shelf.old).faults ≤ (H.told shelf.new).faults }
    ensures rose { IsErrAnd result IsOfDisk → Rose (H.told shelf.old).faults (H.told shelf.new).faults }
    ensures causes { IfOk result (HasCauses (H.told shelf.old).faults (H.told shelf.new).faults) }
    ensures unit { IfErr result (IsOfUnits (length checked.now.units)) }
    ensures units { IfOk result (NamesUnits (length checked.now.units)) }
{
    let [name, others @ ..] = names else {
        return Ok(Trails {
            text: Ok(Bytes::new(alloc)),
            lost: None,
        });
    };
    let disk = take_disk(shelf, unit, name)?;
    match trail_from(alloc, checked, flat, shelf, UnitId(unit.0 + 1), others) {
        Ok(rest) => Ok(tell_unit(alloc, checked, flat, shelf, unit, name, disk, rest)),
        Err(fault) => {
            is_a_disk(&disk);
            let _ = shelf.give(name, disk);
            Err(fault)
        }
    }
}

// The text, unless it is too long, or a disk wasn't taken back.
fn finish(trail: Trails) -> Result<Bytes, TrailFault>
    ensures text { TellsShort trail.text result }
    ensures cause { IsErrAnd result IsOfDisk → IsErrAnd trail.text IsOfDisk ⊎ IsSome trail.lost }
    ensures ok { IsOk result → IsOk trail.text × (trail.lost ≡ None) }
    ensures unit { (units : ℕ) → NamesUnits units trail → IfErr result (IsOfUnits units) }
{
    let text = trail.text?;
    if text.len() > MAX_REPORT {
        return Err(TrailFault::TooLong);
    }
    match trail.lost {
        Some(unit) => Err(TrailFault::DiskFailed { unit }),
        None => Ok(text),
    }
}

/// What the journals of the chart's units tell, a line for each record. All disks are taken before the first is read, and each is
/// given back, with its image as it was, whatever is answered. A crash since it was last taken leaves of each the bodies of what a
/// crash before might have left. `Foreign` and `Bad` are of the first unit, in order, whose journal is wrong, and of what is wrong
/// with it first: a frame that isn't whole comes before any record, wherever it stands.
/// `TooLong` comes if the text has more than `MAX_REPORT` bytes, `NoMemory` if memory runs out, and `DiskFailed` only if the shelf's
/// count of faults rose. A unit that is named is one of the chart's.
///
/// Linear in the journals and in what is written, and for each Turn in its unit's part and view.
#[tactic(auto, unfolding(crate::specs::Images::trail_of))]
pub fn trail<H: DiskShelf>(
    alloc: Global,
    checked: &Checked,
    shelf: &mut H,
) -> Result<Bytes, TrailFault>
    ensures text { (images : List ℕ → List ℕ) → Tells (H.told shelf.old) images → spec.MayTell (spec.trail_of checked.now images) result }
    ensures disks { KeepsDisks (H.told shelf.old) (H.told shelf.new) }
    ensures bodies { KeepsBodies (H.told shelf.old) (H.told shelf.new) }
    ensures later { (H.told shelf.old).faults ≤ (H.told shelf.new).faults }
    ensures rose { IsErrAnd result IsOfDisk → Rose (H.told shelf.old).faults (H.told shelf.new).faults }
    ensures kept { IsOk result → (H.told shelf.new).faults ≡ (H.told shelf.old).faults }
    ensures unit { IfErr result (IsOfUnits (length checked.now.units)) }
{
    let flat = orthogonalise(alloc, checked)?;
    let names = checked.chart().units.as_slice();
    let trail = trail_from(alloc, checked, &flat, shelf, UnitId(0), names)?;
    finish(trail)
}
