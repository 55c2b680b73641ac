//! What a fleet leaves.
ghost use Rattle.std.specs.Prelude.{IfOk};
ghost use Rattle.wf_world.specs.Fleets.{DoWork, HaveDisks};

use crate::fleet::Fleet;
use wf_disk::MemDisk;
use wf_model::{List, NoMemory};

impl Fleet {
    /// The disks of all units, in order, where each unit works. After `NoMemory` they are dropped.
    pub fn close(self) -> Result<List<MemDisk>, NoMemory>
        requires works { DoWork self.slots }
        ensures { IfOk result (λ disks. HaveDisks self.slots disks) }
    {
        let Fleet { slots, alloc, .. } = self;
        let mut disks = List::new(alloc);
        for slot in slots {
            let (_part, disk) = slot.close();
            disks.push(disk)?;
        }
        Ok(disks)
    }
}
