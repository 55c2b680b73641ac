//! A shelf that can be met, and a caller that knows no more of a shelf than the trait says.
ghost use Rattle.std.specs.Prelude.{◌≡◌, ◌<◌, ◌+◌, ◌-◌, ◌^◌, ◌&&◌, ◌==◌, [], ℕ, List, Some, None, true, if◌then◌else◌, min, length, OnOk, IfOk, IfSome};
ghost use Rattle.wf_model.specs.Faults.{last_count, one_more};
ghost use Rattle.wf_disk.specs.Disk.{Only, put_at};
ghost use Rattle.wf_disk.specs.Shelf.{HasNothingUnsynced};

use std::test::Fail;
use wf_disk::{Disk, DiskShelf, TakeRefused, WriteRefused};
use wf_model::{Failed, Name};

/// Writes over the beginning of a disk, and syncs.
fn write_synced<D: Disk>(disk: &mut D, bytes: &[u8]) -> Result<(), WriteRefused>
    requires { length bytes.now < 2 ^ 63 }
    ensures written { OnOk result (IfSome (D.told disk.old).image (λ file. (D.told disk.new).image ≡ Some (put_at file 0 bytes.now))) }
    ensures synced { OnOk result ((file : List ℕ) → (D.told disk.new).image ≡ Some file → Only file (D.told disk.new).may_leave) }
{
    disk.write_at(0, bytes)?;
    disk.sync()?;
    Ok(())
}

/// Takes a disk from a shelf, writes over its beginning, syncs, and gives it back.
fn write_on<S: DiskShelf>(shelf: &mut S, unit: &Name, bytes: &[u8]) -> Result<bool, TakeRefused>
    requires { length bytes.now < 2 ^ 63 }
    ensures written { IfOk result (λ done. done ≡ true → IfSome ((S.told shelf.old).image unit.now) (λ file. (S.told shelf.new).image unit.now ≡ Some (put_at file 0 bytes.now))) }
    ensures synced { IfOk result (λ done. done ≡ true → HasNothingUnsynced (S.told shelf.new) unit.now) }
{
    let mut disk = shelf.take(unit)?;
    let written = write_synced(&mut disk, bytes);
    let done = written.is_ok();
    shelf.give(unit, disk)?;
    Ok(done)
}

/// A disk that fails at each call, with its clock at its end. It tells nothing of its bytes.
#[derive(Drop)]
struct Dead {
    faults: u64,
}

impl Dead {
    fn fail(&mut self) -> Failed
        ensures next { self.new.faults ≡ one_more self.old.faults }
        ensures range { self.old.faults < 2 ^ 64 }
    {
        self.faults = self.faults.saturating_add(1);
        Failed
    }
}

impl Disk for Dead {
    ghost use Rattle.std.specs.Prelude.{unwrap_or};
    ghost use Rattle.std.proofs.Common.{ap, sym};

    ghost told = { λ disk. record {
      image = None;
      clock = last_count;
      faults = disk.faults;
      moment = 0;
      may_leave = λ c. c ≡ [];
      left_since = λ t c. c ≡ [];
      is_to_fail = λ n. n ≡ n;
      is_to_stop = λ n. n ≡ n;
      has_room = λ writes bytes. ⊥;
    } };

    fn size(&mut self) -> Result<u64, Failed> {
        Err(self.fail())
    }

    fn read_at(&mut self, _: u64, _: &mut [u8]) -> Result<(), Failed> {
        Err(self.fail())
    }

    fn write_at(&mut self, _: u64, _: &[u8]) -> Result<(), WriteRefused> {
        Err(WriteRefused::from(self.fail()))
    }

    fn sync(&mut self) -> Result<(), Failed> {
        Err(self.fail())
    }

    ghost lawful = { λ disk. record {
      stands = λ file is. sym (ap (λ o. unwrap_or o []) is);
      counts_now = λ t within c now. now;
      only_now = λ c left. left;
      stops_fail = λ n stops. stops;
      less = λ writes more bytes many room. room;
    } };
}

/// A shelf of one such disk, that of the empty name. It fails at each other name.
#[derive(Drop)]
struct Drawer {
    is_out: bool,
    faults: u64,
}

impl Drawer {
    fn fail(&mut self) -> Failed
        ensures next { self.new ≡ record self.old { faults = one_more self.old.faults } }
        ensures range { self.old.faults < 2 ^ 64 }
    {
        self.faults = self.faults.saturating_add(1);
        Failed
    }
}

impl DiskShelf for Drawer {
    type Disk = Dead;

    ghost told = { λ shelf. record {
      image = λ name. None;
      may_leave = λ name c. c ≡ [];
      taken_at = λ name. if shelf.is_out && (length name == 0) then Some 0 else None;
      left_between = λ name c. c ≡ [];
      faults = shelf.faults;
    } };

    fn take(&mut self, unit: &Name) -> Result<Dead, TakeRefused> {
        if self.is_out || !unit.as_bytes().is_empty() {
            return Err(TakeRefused::from(self.fail()));
        }
        self.is_out = true;
        Ok(Dead { faults: 0 })
    }

    fn give(&mut self, _: &Name, disk: Dead) -> Result<(), Failed> {
        self.is_out = false;
        if disk.faults > 0 {
            return Err(self.fail());
        }
        Ok(())
    }
}

#[test]
fn a_disk_goes_out_and_comes_back(rt: HostRuntime) -> Result<(), Fail> {
    let mut shelf = Drawer {
        is_out: false,
        faults: 0,
    };
    let unit = Name::new(rt.alloc(), b"")?;
    let disk = shelf.take(&unit)?;
    assert!(rt; shelf.take(&unit).is_err());
    assert_eq!(rt; shelf.give(&unit, disk), Ok(()));
    assert_eq!(rt; write_on(&mut shelf, &unit, b"a"), Err(TakeRefused::Failed));
    assert_eq!(rt; shelf.faults, 2);
    Ok(())
}
