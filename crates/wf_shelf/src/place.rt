//! The place of one disk on a shelf.
ghost use Rattle.std.specs.Prelude.{◌≡◌, position};
ghost use Rattle.wf_shelf.specs.Places.{handed, emptied, filled, is_named};

use wf_disk::MemDisk;
use wf_model::Name;

/// A disk by its name, or the place of one that is out.
#[derive(Drop)]
pub struct Place {
    /// The name of the unit.
    pub name: Name,
    /// The disk, unless it is out.
    pub disk: Option<MemDisk>,
    /// The disk's moment as it was taken last.
    pub taken_at: usize,
}

impl Place {
    /// Hands the disk out, with its count of faults begun anew. None if it is out.
    pub fn take(&mut self) -> Option<MemDisk>
        ensures disk { result ≡ handed self.old.disk }
        ensures place { self.new ≡ emptied self.old }
    {
        let mut disk = self.disk.take()?;
        self.taken_at = disk.moment();
        disk.forget_faults();
        Some(disk)
    }

    /// Puts a disk here.
    pub fn put(&mut self, disk: MemDisk)
        ensures { self.new ≡ filled disk self.old }
    {
        self.disk = Some(disk);
    }
}

/// Where the place of this name stands. In linear time.
pub fn find(places: &[Place], name: &[u8]) -> Option<usize>
    ensures { result ≡ position (is_named name.now) places.now }
{
    places
        .iter()
        .position(|place| place.name.as_bytes() == name)
}
