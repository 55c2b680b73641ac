//! A shelf of the journals in a folder.
ghost use Rattle.std.specs.Prelude.{◌≡◌, ◌≢◌, ◌≤◌, ◌<◌, ◌++◌, filter, not, ◌∷◌, [], List, ℕ, true, false, None, Some, is_some, IsTrue, IfOk, IsOk, IsErr, IsErrOf};
ghost use Rattle.wf_disk.specs.Shelf.{KeepsDisk, IsTaken, IsGiven, ShelfHasCause, FailsAtReturn};
ghost use Rattle.std.specs.Str.{bytes_eq};
ghost use Rattle.wf_model.specs.Faults.{one_more};
ghost use Rattle.wf_model.specs.Names as names;
ghost use Rattle.wf_files.specs.Files.{told_of as told_of_file};
ghost use Rattle.wf_files.specs.Folders.{new_folder, is_out, told_of};

use crate::FileDisk;
use crate::open::open;
use std::alloc::Global;
use std::fs::{File, Files};
use std::marker::Model;
use wf_disk::{DiskShelf, TakeRefused};
use wf_model::{Duplicate, Failed, Name, NoMemory, is_name};

/// Removes this name.
fn forget(names: &mut Vec<Name>, unit: &[u8])
    ensures { names.new.items ≡ filter (λ name. not (bytes_eq name unit.now)) names.old.items }
{
    names.retain(|name| name.as_bytes() != unit);
}

/// The journals in a folder, each of which is the file `UNIT.journal`. A folder or a file that is missing is made,
/// empty. A file is open from the take of its disk until its return, and no other program that uses such a shelf may
/// take it in between.
#[derive(Drop)]
pub struct DirShelf<R: Files<File = File> + Drop> {
    system: R,
    alloc: Global,
    folder: String,
    /// The folder round it.
    above: String,
    /// The names of the disks that are out.
    out: Vec<Name>,
    /// How often it has failed, and how often a disk came back that had. At the greatest `u64` it stands.
    faults: u64,
}

impl<R: Files<File = File> + Drop> Model for DirShelf<R> {
    ghost use Rattle.wf_files.specs.Folders.{OnFolder};

    ghost Value = { OnFolder };

    ghost view = { λ shelf. record { out = shelf.out.items; faults = shelf.faults } };
}

impl<R: Files<File = File> + Drop> DirShelf<R> {
    /// A shelf of the journals in this folder, which stands in a folder that there is. It asks the system for nothing.
    pub fn new(system: R, alloc: Global, folder: &str) -> Result<DirShelf<R>, NoMemory>
        ensures { IfOk result (λ shelf. shelf ≡ new_folder) }
    {
        Ok(DirShelf {
            system,
            alloc,
            folder: String::from_str(alloc, folder)?,
            above: format!(in alloc; "{folder}/..")?,
            out: Vec::new(alloc),
            faults: 0,
        })
    }

    /// Counts a fault.
    fn count_fault(&mut self)
        ensures next { self.new ≡ record self.old { faults = one_more self.old.faults } }
        ensures later { self.old.faults ≤ self.new.faults }
    {
        self.faults = self.faults.saturating_add(1);
    }

    /// Whether the disk of this name is out. In linear time in the disks that are.
    fn is_out(&self, unit: &Name) -> bool
        ensures { result ≡ is_out unit.now self.now }
    {
        self.out
            .iter()
            .any(|name| name.as_bytes() == unit.as_bytes())
    }

    /// Notes that the disk of this name is out.
    fn note_out(&mut self, unit: &Name) -> Result<(), NoMemory>
        ensures ok { IsOk result → self.new ≡ record self.old { out = self.old.out ++ unit.now ∷ [] } }
        ensures err { IsErr result → self.new ≡ self.old }
    {
        let name = unit.copy(self.alloc)?;
        self.out.push(name)?;
        Ok(())
    }

    /// Notes that the disk of this name is back.
    fn note_back(&mut self, unit: &Name)
        ensures { self.new ≡ record self.old { out = filter (λ name. not (bytes_eq name unit.now)) self.old.out } }
    {
        forget(&mut self.out, unit.as_bytes());
    }

    /// Counts a fault for a disk that had failed.
    fn count_faults_of(&mut self, disk: &FileDisk<File>)
        ensures failed { 0 < disk.now.faults → self.new ≡ record self.old { faults = one_more self.old.faults } }
        ensures sound { disk.now.faults ≡ 0 → self.new ≡ self.old }
        ensures later { self.old.faults ≤ self.new.faults }
        ensures out { self.new.out ≡ self.old.out }
    {
        if disk.faults() > 0 {
            self.count_fault();
        }
    }

    /// Opens the file of this name.
    fn open(&self, unit: &Name) -> Result<File, TakeRefused>
        ensures named { IsOk result → names.is_name unit.now ≡ true }
    {
        let Ok(name) = str::from_utf8(unit.as_bytes()) else {
            return Err(TakeRefused::Failed);
        };
        if !is_name(unit.as_bytes()) {
            return Err(TakeRefused::Failed);
        }
        let folder = self.folder.as_str();
        let path = format!(in self.alloc; "{folder}/{name}.journal")?;
        match open(&self.system, self.above.as_str(), folder, path.as_str()) {
            Ok(file) => Ok(file),
            Err(_) => Err(TakeRefused::Failed),
        }
    }
}

impl<R: Files<File = File> + Drop> DirShelf<R> {
    /// Hands out the disk of this name, and counts no fault.
    fn try_take(&mut self, unit: &Name) -> Result<FileDisk<File>, TakeRefused>
        ensures stood { IsOk result → is_out unit.now self.old ≡ false }
        ensures named { IsOk result → names.is_name unit.now ≡ true }
        ensures taken { IsOk result → self.new ≡ record self.old { out = self.old.out ++ unit.now ∷ [] } }
        ensures sound { IfOk result (λ disk. disk.faults ≡ 0) }
        ensures refused { IsErr result → self.new ≡ self.old }
        ensures out { is_out unit.now self.old ≡ true → IsErrOf result TakeRefused.Failed }
    {
        if self.is_out(unit) {
            return Err(TakeRefused::Failed);
        }
        let file = self.open(unit)?;
        match self.note_out(unit) {
            Ok(()) => Ok(FileDisk::new(file)),
            Err(NoMemory) => Err(TakeRefused::NoMemory),
        }
    }
}

impl<R: Files<File = File> + Drop> DiskShelf for DirShelf<R> {
    type Disk = FileDisk<File>;

    ghost told = { told_of };

    /// It refuses a name that may not stand in a chart with `Failed`. In linear time in the disks that are out.
    fn take(&mut self, unit: &Name) -> Result<FileDisk<File>, TakeRefused>
        ensures taken { IfOk result (λ disk. IsTaken unit.now (told_of self.old) (told_of self.new) (told_of_file disk)) }
        ensures others { (name : List ℕ) → name ≢ unit.now → KeepsDisk name (told_of self.old) (told_of self.new) }
        ensures refused { IsErr result → KeepsDisk unit.now (told_of self.old) (told_of self.new) }
        ensures out { IsTrue (is_some ((told_of self.old).taken_at unit.now)) → IsErrOf result TakeRefused.Failed }
        ensures cause { ShelfHasCause (told_of self.old) (told_of self.new) (IsErrOf result TakeRefused.Failed) }

        ensures named { IsOk result → names.is_name unit.now ≡ true }
    {
        match self.try_take(unit) {
            Ok(disk) => Ok(disk),
            Err(TakeRefused::Failed) => {
                self.count_fault();
                Err(TakeRefused::Failed)
            }
            Err(TakeRefused::NoMemory) => Err(TakeRefused::NoMemory),
        }
    }

    /// Closes the file. It never fails. In linear time in the disks that are out.
    fn give(&mut self, unit: &Name, disk: FileDisk<File>) -> Result<(), Failed>
        requires out { IsTrue (is_some ((told_of self.old).taken_at unit.now)) }
        ensures given { IsGiven unit.now (told_of self.old) (told_of self.new) (told_of_file disk) }
        ensures others { (name : List ℕ) → name ≢ unit.now → KeepsDisk name (told_of self.old) (told_of self.new) }
        ensures cause { ShelfHasCause (told_of self.old) (told_of self.new) (FailsAtReturn (IsErr result) (told_of_file disk)) }

        ensures done { IsOk result }
    {
        self.count_faults_of(&disk);
        self.note_back(unit);
        Ok(())
    }
}
