//! A disk in memory, under an arm and after a crash.
use std::test::Fail;
use wf_disk::{Arm, Disk, MemDisk, Outcome, WriteRefused};

/// Writes a few bytes that begin in the disk.
fn write(disk: &mut MemDisk, at: u64, bytes: &[u8]) -> Result<(), WriteRefused> {
    let size = disk.size()?;
    if at > size || at > 9 || bytes.len() > 9 {
        return Err(WriteRefused::NoMemory);
    }
    disk.write_at(at, bytes)
}

/// Three synced bytes, and two written over the last and past the end under an arm.
fn half_synced_disk(rt: &HostRuntime, stroke: u32, what: Arm) -> Result<(MemDisk, bool), Fail> {
    let mut disk = MemDisk::new(rt.alloc());
    disk.reserve(5, 2)?;
    write(&mut disk, 0, b"abc")?;
    disk.sync()?;
    disk.arm(stroke, what);
    let written = write(&mut disk, 2, b"xy");
    Ok((disk, written.is_ok()))
}

/// The bytes of a disk.
fn bytes_of(rt: &HostRuntime, disk: &mut MemDisk) -> Result<Vec<u8>, Fail> {
    let size = disk.size()?;
    let mut bytes = vec![in rt.alloc(); 0; size as usize]?;
    disk.read_at(0, &mut bytes)?;
    Ok(bytes)
}

#[test]
fn what_arms_and_crashes_leave(rt: HostRuntime) -> Result<(), Fail> {
    let keep: &[u8] = b"abxy";
    let lose: &[u8] = b"abc";
    let torn: &[u8] = &[b'a', b'b', 0xFF, 0xFF];
    let rows: [(u32, Arm, Outcome, &[u8]); 8] = [
        // No arm, and then a crash.
        (0, Arm::Fail, Outcome::Keep, keep),
        (0, Arm::Fail, Outcome::Lose, lose),
        (0, Arm::Fail, Outcome::Torn, torn),
        // A write that fails and does nothing.
        (1, Arm::Fail, Outcome::Keep, lose),
        // An arm that stops the disk, which takes its outcome at the revival.
        (1, Arm::Crash(Outcome::Keep), Outcome::Lose, keep),
        (1, Arm::Crash(Outcome::Lose), Outcome::Keep, lose),
        (1, Arm::Crash(Outcome::Torn), Outcome::Keep, torn),
        // An arm that meets no stroke.
        (2, Arm::Crash(Outcome::Torn), Outcome::Keep, keep),
    ];
    for (stroke, what, outcome, wanted) in rows {
        let (mut disk, written) = half_synced_disk(&rt, stroke, what)?;
        assert_eq!(rt; written, stroke != 1);
        if disk.stopped() {
            disk.revive();
        } else {
            disk.disarm();
            disk.crash(outcome);
        }
        assert_eq!(rt; bytes_of(&rt, &mut disk)?.as_slice(), wanted, "{stroke}");
    }
    Ok(())
}
