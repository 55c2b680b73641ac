//! A shelf of disks in memory.
use crate::shelves::{read, refuses};
use std::test::Fail;
use wf_disk::{Arm, Disk, DiskShelf, MemDisk};
use wf_model::Name;
use wf_shelf::MemShelf;

// Writes, and fails as it syncs: how often the disk has failed.
fn write_unsynced(disk: &mut MemDisk) -> Option<u64> {
    disk.write_at(0, b"abc").ok()?;
    disk.arm(1, Arm::Fail);
    let _ = disk.sync();
    Some(disk.faults())
}

// Takes a disk, which fails, and gives it back.
fn fail_once(shelf: &mut MemShelf, unit: &Name) -> Option<u64> {
    let mut disk = shelf.take(unit).ok()?;
    let faults = write_unsynced(&mut disk);
    shelf.give(unit, disk).ok()?;
    faults
}

// Whether a disk that comes again has no fault, and is out then.
fn is_out_and_sound(shelf: &mut MemShelf, unit: &Name) -> Option<bool> {
    let disk = shelf.take(unit).ok()?;
    Some(disk.faults() == 0 && refuses(shelf, unit))
}

#[test]
fn a_disk_that_failed_comes_back(rt: HostRuntime) -> Result<(), Fail> {
    let unit = Name::new(rt.alloc(), b"a")?;
    let mut shelf = MemShelf::new(rt.alloc());
    assert_eq!(rt; fail_once(&mut shelf, &unit), Some(1));
    let held = read(rt.alloc(), &mut shelf, &unit).ok_or("no disk")?;
    assert_eq!(rt; held.as_slice(), b"abc".as_slice());
    assert_eq!(rt; is_out_and_sound(&mut shelf, &unit), Some(true));
    Ok(())
}
