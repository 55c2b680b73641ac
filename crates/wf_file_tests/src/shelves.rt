//! What is done with the disks of any shelf. Each function answers none if something is refused.
ghost use Rattle.std.specs.Prelude.{◌<◌, ◌^◌, length};

use std::alloc::Global;
use wf_disk::{Disk, DiskShelf, TakeRefused};
use wf_model::Name;

/// All bytes of a disk, at most 100.
pub fn bytes_of<D: Disk>(alloc: Global, disk: &mut D) -> Option<Vec<u8>> {
    let size = disk.size().ok()?;
    if size > 100 {
        return None;
    }
    let mut bytes = vec![in alloc; 0u8; size as usize].ok()?;
    disk.read_at(0, &mut bytes).ok()?;
    Some(bytes)
}

/// Takes a disk, writes over its beginning and gives it back: whether the write was done.
pub fn write<S: DiskShelf>(shelf: &mut S, unit: &Name, bytes: &[u8]) -> Option<bool>
    requires { length bytes.now < 2 ^ 63 }
{
    let mut disk = shelf.take(unit).ok()?;
    let is_written = disk.write_at(0, bytes).is_ok();
    shelf.give(unit, disk).ok()?;
    Some(is_written)
}

/// Takes a disk, reads it and gives it back.
pub fn read<S: DiskShelf>(alloc: Global, shelf: &mut S, unit: &Name) -> Option<Vec<u8>> {
    let mut disk = shelf.take(unit).ok()?;
    let bytes = bytes_of(alloc, &mut disk);
    shelf.give(unit, disk).ok()?;
    bytes
}

/// Whether a shelf says that it failed, and hands out no disk.
pub fn refuses<S: DiskShelf>(shelf: &mut S, unit: &Name) -> bool {
    match shelf.take(unit) {
        Ok(disk) => {
            let _ = shelf.give(unit, disk);
            false
        }
        Err(refused) => refused == TakeRefused::Failed,
    }
}
