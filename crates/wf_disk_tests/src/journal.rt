//! A journal's bytes, what it starts on, its room, and what stands after an arm.
ghost use Rattle.std.specs.Prelude.{◌≡◌, ◌+◌, ◌*◌, ◌≤◌, length, false, IfOk};
ghost use Rattle.wf_disk.specs.Memory.{told_of};
ghost use Rattle.wf_journal.specs.Room.{UsesRoom};

use std::test::Fail;
use wf_disk::{Arm, Disk, MemDisk, Outcome};
use wf_journal::{AppendFault, Journal, JournalRefused, StartFault};
use wf_model::List;

const HEAD: [u8; 8] = [0x48, 1, 3, 0x74, 0x77, 0x6F, 1, 0x61];

const ADMIT: [u8; 12] = [0x41, 0, 0, 0, 0, 0, 0, 0, 7, 0, 0, 1];

/// A journal that was started on a disk.
fn journal_on(rt: &HostRuntime, disk: MemDisk) -> Result<Journal<MemDisk>, Fail>
    ensures { IfOk result (λ journal. UsesRoom (told_of disk) (told_of journal.disk) 1 1) }
{
    match Journal::start(rt.alloc(), disk) {
        Ok(journal) => Ok(journal),
        Err(refused) => Err(Fail::from(refused.fault)),
    }
}

/// The bytes of a disk.
fn bytes_of(rt: &HostRuntime, disk: &mut MemDisk) -> Result<Vec<u8>, Fail> {
    let size = disk.size()?;
    let mut bytes = vec![in rt.alloc(); 0; size as usize]?;
    disk.read_at(0, &mut bytes)?;
    Ok(bytes)
}

/// What a journal answers as it starts on an image, and the disk's bytes then.
fn answer_of_start(rt: &HostRuntime, image: &[u8]) -> Result<(Option<StartFault>, Vec<u8>), Fail> {
    let mut disk = MemDisk::new(rt.alloc());
    disk.write_at(0, image)?;
    let (fault, mut disk) = match Journal::start(rt.alloc(), disk) {
        Ok(journal) => (None, journal.close()),
        Err(JournalRefused { fault, disk }) => (Some(fault), disk),
    };
    let bytes = bytes_of(rt, &mut disk)?;
    Ok((fault, bytes))
}

#[test]
fn what_a_journal_starts_on(rt: HostRuntime) -> Result<(), Fail> {
    let images: [(&[u8], Option<StartFault>); 8] = [
        // Any two bytes of which the first isn't 1 are an empty journal.
        (&[0xFF, 1], None),
        // An open gate and too few bytes for a frame.
        (&[1, 0], Some(StartFault::BadFrame { at: 0 })),
        // A frame, and behind its closed gate what a crash may leave of another.
        (&[1, 0, 0, 0, 2, 7, 7, 0, 0xFF, 0xFF, 0xFF], None),
        // No byte, not even a gate, behind a body.
        (&[1, 0, 0, 0, 2, 7, 7], Some(StartFault::BadFrame { at: 0 })),
        (
            &[1, 0, 0, 0, 2, 7, 7, 1, 0, 0, 0, 1, 7],
            Some(StartFault::BadFrame { at: 7 }),
        ),
        // A body that ends past the file.
        (
            &[1, 0, 0, 0, 3, 7, 7, 0],
            Some(StartFault::BadFrame { at: 0 }),
        ),
        // A length of 0.
        (
            &[
                1, 0, 0, 0, 8, 0x48, 1, 3, 0x74, 0x77, 0x6F, 1, 0x61, 1, 0, 0, 0, 0, 0,
            ],
            Some(StartFault::BadFrame { at: 13 }),
        ),
        // An open gate at the end.
        (
            &[1, 0, 0, 0, 2, 7, 7, 1],
            Some(StartFault::BadFrame { at: 7 }),
        ),
    ];
    for (image, wanted) in images {
        let (fault, bytes) = answer_of_start(&rt, image)?;
        assert_eq!(rt; fault, wanted);
        assert_eq!(rt; bytes.as_slice(), image);
    }
    Ok(())
}

#[test]
fn bodies_are_written_and_read(rt: HostRuntime) -> Result<(), Fail> {
    let mut journal = journal_on(&rt, MemDisk::new(rt.alloc()))?;
    journal.reserve(12)?;
    journal.append(&HEAD)?;
    journal.append(&ADMIT)?;
    let mut body = List::new(rt.alloc());
    assert_eq!(rt; journal.read(0, &mut body)?, Some(13));
    assert_eq!(rt; journal.read(13, &mut body)?, Some(30));
    assert_eq!(rt; body.as_slice(), ADMIT.as_slice());
    assert_eq!(rt; journal.read(30, &mut body)?, None);
    journal.arm(1, Arm::Fail);
    journal.disarm();
    assert!(rt; !journal.is_failed() && !journal.disk().stopped());
    let mut disk = journal.close();
    let two: &[u8] = &[
        1, 0, 0, 0, 8, 0x48, 1, 3, 0x74, 0x77, 0x6F, 1, 0x61, 1, 0, 0, 0, 0x0C, 0x41, 0, 0, 0, 0,
        0, 0, 0, 7, 0, 0, 1, 0,
    ];
    assert_eq!(rt; bytes_of(&rt, &mut disk)?.as_slice(), two);
    Ok(())
}

/// A journal on a new disk, with room for two appends of at most so many bytes each.
fn journal_with_room(rt: &HostRuntime, len: u32) -> Result<Journal<MemDisk>, Fail>
    ensures own { IfOk result (λ journal. len ≤ journal.room) }
    ensures disk { IfOk result (λ journal. (told_of journal.disk).has_room 4 (2 * (len + 6))) }
{
    let mut disk = MemDisk::new(rt.alloc());
    disk.reserve(2 * (u64::from(len) + 6) + 1, 5)?;
    let mut journal = journal_on(rt, disk)?;
    journal.reserve(len)?;
    Ok(journal)
}

/// Whether memory runs out in an append for which there is room.
fn runs_out(journal: &mut Journal<MemDisk>, body: &[u8]) -> bool
    requires own { length body.now ≤ journal.old.room }
    requires disk { (told_of journal.old.disk).has_room 2 (length body.now + 6) }
    ensures not { result ≡ false }
    ensures own_kept { journal.old.room ≤ journal.new.room }
    ensures uses { UsesRoom (told_of journal.old.disk) (told_of journal.new.disk) 2 (length body.now + 6) }
{
    matches!(journal.append(body), Err(AppendFault::NoMemory))
}

#[test]
fn each_append_finds_the_room_that_was_made(rt: HostRuntime) -> Result<(), Fail> {
    let mut journal = journal_with_room(&rt, 12)?;
    assert!(rt; !runs_out(&mut journal, &HEAD));
    assert!(rt; !runs_out(&mut journal, &ADMIT));
    let mut body = List::new(rt.alloc());
    assert_eq!(rt; journal.read(13, &mut body)?, Some(30));
    Ok(())
}

/// What an append under an arm answers, and whether its body stands after the revival.
fn answer_of_append(rt: &HostRuntime, stroke: u32, what: Arm) -> Result<(bool, bool), Fail> {
    let mut journal = journal_on(rt, MemDisk::new(rt.alloc()))?;
    journal.arm(stroke, what);
    let failed = journal.append(&HEAD) == Err(AppendFault::DiskFailed);
    let mut disk = journal.close();
    disk.revive();
    disk.disarm();
    let mut again = journal_on(rt, disk)?;
    let mut body = List::new(rt.alloc());
    let next = again.read(0, &mut body)?;
    Ok((failed, next.is_some()))
}

#[test]
fn what_stands_after_an_arm(rt: HostRuntime) -> Result<(), Fail> {
    let keep = Arm::Crash(Outcome::Keep);
    let lose = Arm::Crash(Outcome::Lose);
    let torn = Arm::Crash(Outcome::Torn);
    for (stroke, what, failed, stands) in [
        (1, Arm::Fail, true, false),
        (1, keep, true, false),
        (1, lose, true, false),
        (1, torn, true, false),
        (2, Arm::Fail, true, false),
        (2, keep, true, false),
        (2, lose, true, false),
        (2, torn, true, false),
        (3, Arm::Fail, true, false),
        (3, keep, true, true),
        (3, lose, true, false),
        (3, torn, true, false),
        (4, Arm::Fail, true, true),
        (4, keep, true, true),
        (4, lose, true, false),
        (4, torn, true, false),
        (5, keep, false, true),
    ] {
        assert_eq!(rt;
            answer_of_append(&rt, stroke, what)?,
            (failed, stands),
            "at {stroke}"
        );
    }
    Ok(())
}
