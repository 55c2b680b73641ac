//! A shelf that holds its disks in memory.
ghost use Rattle.std.specs.Prelude.{◌≡◌, ◌≢◌, ◌<◌, ◌≤◌, option_map, ◌++◌, ◌∷◌, [], List, ℕ, None, Some, is_some, IsTrue, IfOk, IsOk, IsErr, IsErrOf, IfSome};
ghost use Rattle.wf_disk.specs.Shelf.{KeepsDisk, IsTaken, IsGiven, ShelfHasCause, FailsAtReturn};
ghost use Rattle.wf_disk.specs.Memory.{new_disk, IsButForRoom, told_of as told_of_disk};
ghost use Rattle.wf_model.specs.Faults.{one_more};
ghost use Rattle.wf_shelf.specs.Places.{place_of, new_place, emptied, filled, handed_from};
ghost use Rattle.wf_shelf.specs.Shelves.{new_shelf, disk_of, told_of};

use crate::place::{Place, find};
use std::alloc::Global;
use std::marker::Model;
use wf_disk::{DiskShelf, MemDisk, TakeRefused};
use wf_model::{Duplicate, Failed, Name, NoMemory};

/// Disks in memory by the names of their units.
#[derive(Drop)]
pub struct MemShelf {
    /// The disks that were asked for, in the order of their first takes.
    places: Vec<Place>,
    /// How often it has failed, and how often a disk came back that had. At the greatest `u64` it stands.
    faults: u64,
    alloc: Global,
}

impl Model for MemShelf {
    ghost use Rattle.wf_shelf.specs.Shelves.{Shelved};

    ghost Value = { Shelved };

    ghost view = { λ shelf. record { places = shelf.places.items; faults = shelf.faults } };
}

impl MemShelf {
    /// A shelf with no disk yet. Takes no memory.
    pub fn new(alloc: Global) -> MemShelf
        ensures { result ≡ new_shelf }
    {
        MemShelf {
            places: Vec::new(alloc),
            faults: 0,
            alloc,
        }
    }

    /// Counts a fault.
    fn count_fault(&mut self)
        ensures next { self.new ≡ record self.old { faults = one_more self.old.faults } }
        ensures later { self.old.faults ≤ self.new.faults }
    {
        self.faults = self.faults.saturating_add(1);
    }

    /// Counts a fault for a disk that had failed.
    fn count_faults_of(&mut self, disk: &MemDisk)
        ensures failed { 0 < disk.now.faults → self.new ≡ record self.old { faults = one_more self.old.faults } }
        ensures sound { disk.now.faults ≡ 0 → self.new ≡ self.old }
        ensures later { self.old.faults ≤ self.new.faults }
    {
        if disk.faults() > 0 {
            self.count_fault();
        }
    }

    /// Whether there is a place of this name.
    fn has_place(&self, unit: &Name) -> bool
        ensures { result ≡ is_some (place_of unit.now self.now.places) }
    {
        find(&self.places, unit.as_bytes()).is_some()
    }

    /// Makes the place of a new disk, which is out from now on.
    fn add(&mut self, unit: &Name) -> Result<MemDisk, NoMemory>
        ensures ok { IsOk result → self.new ≡ record self.old { places = self.old.places ++ new_place unit.now ∷ [] } }
        ensures disk { IfOk result (λ disk. IsButForRoom new_disk disk) }
        ensures err { IsErr result → self.new ≡ self.old }
    {
        let name = unit.copy(self.alloc)?;
        self.places.push(Place {
            name,
            disk: None,
            taken_at: 0,
        })?;
        Ok(MemDisk::new(self.alloc))
    }

    /// Hands out the disk of this name. None if it is out, or has no place.
    fn hand_out(&mut self, unit: &Name) -> Option<MemDisk>
        ensures disk { result ≡ handed_from (place_of unit.now self.old.places) }
        ensures place { place_of unit.now self.new.places ≡ option_map emptied (place_of unit.now self.old.places) }
        ensures others { (name : List ℕ) → name ≢ unit.now → place_of name self.new.places ≡ place_of name self.old.places }
        ensures faults { self.new.faults ≡ self.old.faults }
    {
        match find(&self.places, unit.as_bytes()) {
            Some(at) => self.places[at].take(),
            None => None,
        }
    }

    /// Puts a disk at the place of this name.
    fn put(&mut self, unit: &Name, disk: MemDisk)
        ensures place { place_of unit.now self.new.places ≡ option_map (filled disk) (place_of unit.now self.old.places) }
        ensures others { (name : List ℕ) → name ≢ unit.now → place_of name self.new.places ≡ place_of name self.old.places }
        ensures faults { self.new.faults ≡ self.old.faults }
    {
        if let Some(at) = find(&self.places, unit.as_bytes()) {
            self.places[at].put(disk);
        }
    }
}

impl DiskShelf for MemShelf {
    type Disk = MemDisk;

    ghost told = { told_of };

    /// Takes memory only for a name that is new. In linear time in the names.
    fn take(&mut self, unit: &Name) -> Result<MemDisk, TakeRefused>
        ensures taken { IfOk result (λ disk. IsTaken unit.now (told_of self.old) (told_of self.new) (told_of_disk disk)) }
        ensures others { (name : List ℕ) → name ≢ unit.now → KeepsDisk name (told_of self.old) (told_of self.new) }
        ensures refused { IsErr result → KeepsDisk unit.now (told_of self.old) (told_of self.new) }
        ensures out { IsTrue (is_some ((told_of self.old).taken_at unit.now)) → IsErrOf result TakeRefused.Failed }
        ensures cause { ShelfHasCause (told_of self.old) (told_of self.new) (IsErrOf result TakeRefused.Failed) }

        ensures disk { IfOk result (λ disk. IfSome (disk_of unit.now self.old) (λ held. IsButForRoom (record held { faults = 0 }) disk)) }
        ensures fails { IsErrOf result TakeRefused.Failed → disk_of unit.now self.old ≡ None }
        ensures no_memory { IsErrOf result TakeRefused.NoMemory → place_of unit.now self.old.places ≡ None }
    {
        if !self.has_place(unit) {
            return match self.add(unit) {
                Ok(disk) => Ok(disk),
                Err(NoMemory) => Err(TakeRefused::NoMemory),
            };
        }
        match self.hand_out(unit) {
            Some(disk) => Ok(disk),
            None => {
                self.count_fault();
                Err(TakeRefused::Failed)
            }
        }
    }

    /// It never fails. In linear time in the names.
    fn give(&mut self, unit: &Name, disk: MemDisk) -> Result<(), Failed>
        requires out { IsTrue (is_some ((told_of self.old).taken_at unit.now)) }
        ensures given { IsGiven unit.now (told_of self.old) (told_of self.new) (told_of_disk disk) }
        ensures others { (name : List ℕ) → name ≢ unit.now → KeepsDisk name (told_of self.old) (told_of self.new) }
        ensures cause { ShelfHasCause (told_of self.old) (told_of self.new) (FailsAtReturn (IsErr result) (told_of_disk disk)) }

        ensures done { IsOk result }
        ensures stands { disk_of unit.now self.new ≡ Some disk }
    {
        self.count_faults_of(&disk);
        self.put(unit, disk);
        Ok(())
    }
}
