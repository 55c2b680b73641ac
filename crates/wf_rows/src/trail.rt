//! The trail of journals in memory, on disks that fail.
use crate::inputs::TWO;
use crate::run::{Ends, Outcome, input_of, run_on};
use std::alloc::Global;
use std::test::Fail;
use wf_disk::{Arm, Disk, DiskShelf, MemDisk};
use wf_model::{Name, NoMemory, Status};
use wf_shelf::MemShelf;

// The head of a journal of unit a, and an admission.
const JOURNAL: [u8; 31] = [
    1, 0, 0, 0, 8, 0x48, 1, 3, 0x74, 0x77, 0x6f, 1, 0x61, 1, 0, 0, 0, 12, 0x41, 0, 0, 0, 0, 0, 0,
    0, 7, 0, 0, 1, 0,
];

const TEXT: &str = "unit a\nhead two a\nadmit 1 request 7 event go\nunit b\nempty\n";

// A disk that holds the journal, and whose stroke of this number fails, none if that is 0.
fn disk_with(alloc: Global, stroke: u32) -> Option<MemDisk> {
    let mut disk = MemDisk::new(alloc);
    disk.write_at(0, &JOURNAL).ok()?;
    disk.sync().ok()?;
    if stroke > 0 {
        disk.arm(stroke, Arm::Fail);
    }
    Some(disk)
}

// A shelf on which that disk is the one of unit a.
fn shelf_with(alloc: Global, unit: &Name, stroke: u32) -> Option<MemShelf> {
    let mut shelf = MemShelf::new(alloc);
    let _empty = shelf.take(unit).ok()?;
    let disk = disk_with(alloc, stroke)?;
    shelf.give(unit, disk).ok()?;
    Some(shelf)
}

// Whether the disk of this unit holds the journal.
fn holds_journal(shelf: &mut MemShelf, unit: &Name) -> Option<bool> {
    let mut disk = shelf.take(unit).ok()?;
    let size = disk.size().ok()?;
    if size != 31 {
        return Some(false);
    }
    let mut bytes = [0; 31];
    disk.read_at(0, &mut bytes).ok()?;
    Some(bytes == JOURNAL)
}

fn told(alloc: Global, shelf: &mut MemShelf) -> Result<Outcome, NoMemory> {
    let ends = Ends {
        piece: 7,
        failing_reads: &[],
        failing_writes: &[],
    };
    let input = input_of(alloc, TWO, "---\nno line of any script\n")?;
    run_on(alloc, "trail", input, ends, shelf)
}

#[test]
fn journals_stay_as_they_were(rt: HostRuntime) -> Result<(), Fail> {
    let unit = Name::new(rt.alloc(), b"a")?;
    let rows = [
        (0, Status::Ok, TEXT),
        (1, Status::DiskFault, "refused disk a\n"),
        (2, Status::Ok, TEXT),
    ];
    for (stroke, status, text) in rows {
        let mut shelf = shelf_with(rt.alloc(), &unit, stroke).ok_or("no shelf")?;
        let outcome = told(rt.alloc(), &mut shelf)?;
        assert_eq!(rt; outcome.status, status, "at {stroke}");
        assert_eq!(rt; outcome.text.as_slice(), text.as_bytes(), "at {stroke}");
        assert_eq!(rt; holds_journal(&mut shelf, &unit), Some(true), "at {stroke}");
    }
    Ok(())
}
