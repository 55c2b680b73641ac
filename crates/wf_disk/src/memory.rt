//! A disk in memory, which fails and crashes where it is told to.
ghost use Rattle.std.specs.Prelude.{◌≡◌, ◌≢◌, ◌↔◌, ◌+◌, ◌-◌, ◌≤◌, ◌^◌, ◌<◌, ℕ, Bool, true, false, Option, Some, None, List, length, take, drop, is_some, unwrap_or, IsTrue, IsOk, IsErr, IsErrOf, OnOk, OnErr, IfOk, IfSome, vec_capacity};
ghost use Rattle.wf_disk.specs.Disk.{Told, put_at, Torn, Follows, Within, Only, Elapses, IsSame, IsDown, Strikes, GoesToPlan, HasCause};
ghost use Rattle.wf_model.specs.Faults.{last_count};
ghost use Rattle.wf_disk.specs.declared.arm.Fate.TheVariants.{Done, Fails};

use crate::arm::{Arm, Armed, Fate, Outcome, fate_at};
use crate::image::put_over;
use crate::leaving::{copy_over, leave};
use crate::record::Record;
use crate::{Disk, WriteRefused};
use std::alloc::{AllocError, Global};
use std::marker::Model;
use wf_model::{Failed, NoMemory};

/// A disk in memory. It keeps a record of the strokes that were done to it, from which it tells what a crash may
/// leave. It fails at the stroke for which it is armed and while it has stopped, and at no other call. A read takes
/// linear time in its bytes, and so does a write for which there is room; another write may copy all that the disk and
/// its record hold.
#[derive(Drop)]
pub struct MemDisk {
    /// Its bytes now.
    image: Vec<u8>,
    /// Its bytes as the record began, with room for as many as it has now.
    first: Vec<u8>,
    /// The record of the strokes that were done since.
    history: Record,
    /// How many strokes were made, failed ones too. At the greatest `u64` it stands.
    clock: u64,
    /// How often it has failed. At the greatest `u64` it stands.
    faults: u64,
    /// Where a counted stroke has stopped it, the outcome that it takes at its revival.
    stop: Option<Outcome>,
    /// The counted stroke, where it is armed.
    arm: Option<Armed>,
}

impl Model for MemDisk {
    ghost use Rattle.std.specs.Prelude.{◌-◌, min, length, vec_capacity};
    ghost use Rattle.wf_disk.specs.Memory.{Held, IsSound};

    ghost Value = { Held };

    ghost view = { λ disk. record {
      first = disk.first.items;
      strokes = disk.history.strokes;
      synced = disk.history.synced;
      clock = disk.clock;
      faults = disk.faults;
      stop = disk.stop;
      arm = disk.arm;
      room = min (min (vec_capacity disk.image - length disk.image.items) (vec_capacity disk.first - length disk.image.items)) disk.history.bytes;
      writes = disk.history.writes;
    } };

    ghost invariant = { λ disk. IsSound disk.image.items disk.first.items disk.history.strokes disk.history.synced (vec_capacity disk.first) };
}

impl MemDisk {
    ghost use Rattle.wf_disk.specs.Memory.{new_disk, armed, disarmed, image_of, left_by, begun_anew, revived, told_of, IsButForRoom, KeepsRoom, has_stopped, fate_of, with_write, with_sync, counted, failed, faulted, stopped_by};

    /// An empty disk that isn't armed. Takes no memory.
    pub fn new(alloc: Global) -> MemDisk
        ensures { IsButForRoom new_disk result }
    {
        MemDisk {
            image: Vec::new(alloc),
            first: Vec::new(alloc),
            history: Record::new(alloc),
            clock: 0,
            faults: 0,
            stop: None,
            arm: None,
        }
    }

    /// Replaces the arm: of the strokes from now on, counted from 1, the one with this number is the counted one. A 0
    /// counts none.
    pub fn arm(&mut self, stroke: u32, what: Arm)
        ensures { self.new ≡ armed self.old stroke what }
    {
        self.arm = Some(Armed {
            after: self.clock,
            stroke,
            what,
        });
    }

    /// Removes the arm.
    pub fn disarm(&mut self)
        ensures { self.new ≡ disarmed self.old }
    {
        self.arm = None;
    }

    /// Whether it has stopped: at a counted stroke, or since its clock stands at the greatest `u64`.
    pub fn stopped(&self) -> bool
        ensures stopped { result ≡ has_stopped self.now }
        ensures early { result ≡ false → self.now.clock < last_count }
        ensures down { self.now.clock + 2 ≤ last_count → ((result ≡ true) ↔ IsDown (told_of self.now)) }
    {
        self.stop.is_some() || self.clock == u64::MAX
    }

    /// How often it has failed.
    pub fn faults(&self) -> u64
        ensures { result ≡ self.now.faults }
    {
        self.faults
    }

    /// The number by which it tells this moment: how many strokes its record has.
    pub fn moment(&self) -> usize
        ensures { result ≡ length self.now.strokes }
    {
        self.history.len()
    }

    /// Begins the count of faults anew. Nothing else changes.
    pub fn forget_faults(&mut self)
        ensures { self.new ≡ record self.old { faults = 0 } }
    {
        self.faults = 0;
    }

    /// Leaves the bytes by an outcome, as a crash does, and begins the record anew. The arm stays, and so do a stop and
    /// the room for writes. It takes no memory. In linear time in the disk's bytes, all of which it copies, in the
    /// strokes since the record began and in what they wrote.
    pub fn crash(&mut self, outcome: Outcome)
        ensures left { IsButForRoom (begun_anew self.old (left_by outcome self.old)) self.new }
        ensures room { KeepsRoom self.old self.new 0 0 }
        ensures may { (told_of self.old).may_leave (image_of self.new) }
    {
        leave(outcome, &self.first, &self.history, &mut self.image);
        copy_over(&self.image, &mut self.first);
        self.history.clear();
    }

    /// Ends a stop. A disk that a counted stroke stopped takes the outcome now, another one keeps its bytes, and the
    /// record begins anew. In linear time, as `crash`.
    pub fn revive(&mut self)
        ensures left { IsButForRoom (revived self.old) self.new }
        ensures room { KeepsRoom self.old self.new 0 0 }
        ensures may { (told_of self.old).may_leave (image_of self.new) }
    {
        let outcome = self.stop.unwrap_or(Outcome::Keep);
        self.crash(outcome);
        self.stop = None;
    }

    /// Makes room: the next `writes` writes want no memory as long as they have at most `bytes` bytes in all. After a
    /// refusal there is at least the room that there was. With room already it takes no memory; else it may copy all that
    /// the disk and its record hold.
    pub fn reserve(&mut self, bytes: u64, writes: u32) -> Result<(), NoMemory>
        ensures same { IsButForRoom self.old self.new }
        ensures room { OnOk result ((told_of self.new).has_room writes bytes) }
        ensures kept { KeepsRoom self.old self.new 0 0 }
        ensures succeeds { (told_of self.old).has_room writes bytes → IsOk result }
    {
        self.make_room(bytes as usize, writes)?;
        Ok(())
    }

    /// Makes room for so many writes, of so many bytes in all. After an `Err` there is at least the room that there was.
    fn make_room(&mut self, bytes: usize, writes: u32) -> Result<(), AllocError>
        ensures same { IsButForRoom self.old self.new }
        ensures room { OnOk result ((bytes ≤ self.new.room) × (writes ≤ self.new.writes)) }
        ensures kept { KeepsRoom self.old self.new 0 0 }
        ensures succeeds { bytes ≤ self.old.room → writes ≤ self.old.writes → IsOk result }
    {
        self.image.reserve(bytes)?;
        let end = self.image.len() + bytes;
        self.first.reserve(end.saturating_sub(self.first.len()))?;
        self.history.reserve(bytes, writes)
    }

    /// Does a write, for which there is room.
    fn write_over(&mut self, at: u64, bytes: &[u8])
        requires begins { at ≤ length (image_of self.old) }
        requires room { length bytes.now ≤ self.old.room }
        requires writes { 1 ≤ self.old.writes }
        ensures wrote { IsButForRoom (with_write self.old at bytes.now) self.new }
        ensures room { KeepsRoom self.old self.new (length bytes.now) 1 }
    {
        let done = put_over(&mut self.image, at as usize, bytes);
        prove!(done.is_ok());
        self.history.add_write(at, bytes);
    }

    /// Does a write.
    fn do_write(&mut self, at: u64, bytes: &[u8]) -> Result<(), AllocError>
        requires begins { at ≤ length (image_of self.old) }
        ensures ok { OnOk result (IsButForRoom (with_write self.old at bytes.now) self.new) }
        ensures err { OnErr result (IsButForRoom self.old self.new × KeepsRoom self.old self.new 0 0) }
        ensures room { KeepsRoom self.old self.new (length bytes.now) 1 }
        ensures succeeds { length bytes.now ≤ self.old.room → 1 ≤ self.old.writes → IsOk result }
    {
        self.make_room(bytes.len(), 1)?;
        self.write_over(at, bytes);
        Ok(())
    }

    /// Does a sync.
    fn do_sync(&mut self)
        ensures synced { IsButForRoom (with_sync self.old) self.new }
        ensures room { KeepsRoom self.old self.new 0 0 }
        ensures only { Only (image_of self.old) (told_of self.new).may_leave }
    {
        if !self.history.is_synced() {
            self.history.add_sync();
        }
    }

    /// Counts a stroke.
    fn count(&mut self)
        ensures next { self.new ≡ counted self.old }
        ensures range { self.old.clock < 2 ^ 64 }
    {
        self.clock = self.clock.saturating_add(1);
    }

    /// Counts a stroke that fails.
    fn count_failed(&mut self)
        ensures next { self.new ≡ failed self.old }
        ensures range { (self.old.clock < 2 ^ 64) × (self.old.faults < 2 ^ 64) }
    {
        self.count();
        self.faults = self.faults.saturating_add(1);
    }

    /// Stops at a counted stroke.
    fn stop_by(&mut self, outcome: Outcome)
        ensures next { self.new ≡ stopped_by self.old outcome }
        ensures range { (self.old.clock < 2 ^ 64) × (self.old.faults < 2 ^ 64) }
    {
        self.count_failed();
        self.stop = Some(outcome);
    }

    /// Counts a call that failed and is no stroke.
    fn count_fault(&mut self)
        ensures { self.new ≡ faulted self.old }
    {
        self.faults = self.faults.saturating_add(1);
    }

    /// What the next stroke does.
    fn fate(&self) -> Fate
        ensures fate { result ≡ fate_of self.now }
        ensures early { result ≢ Fails → self.now.clock < last_count }
    {
        if self.stopped() {
            return Fate::Fails;
        }
        fate_at(self.arm, self.clock + 1)
    }
}

impl Disk for MemDisk {
    ghost use Rattle.wf_disk.specs.MemoryLaws.{lawful_memory};
    ghost use Rattle.wf_disk.specs.Memory.{told_of, image_of, after_read, after_write, after_sync, fate_of, has_stopped, IsButForRoom};

    ghost told = { told_of };

    ghost lawful = { lawful_memory };

    fn size(&mut self) -> Result<u64, Failed>
        ensures value { IfOk result (λ n. IfSome (told_of self.old).image (λ file. n ≡ length file)) }
        ensures same { IsSame (told_of self.old) (told_of self.new) }
        ensures down { IsErr result → IsDown (told_of self.old) }
        ensures cause { HasCause (told_of self.old) (told_of self.new) (IsErr result) }

        ensures fails { IsErr result ↔ IsTrue (has_stopped self.old) }
        ensures next { self.new ≡ after_read self.old }
    {
        if self.stopped() {
            self.count_fault();
            return Err(Failed);
        }
        Ok(self.image.len() as u64)
    }

    fn read_at(&mut self, at: u64, into: &mut [u8]) -> Result<(), Failed>
        requires inside { IfSome (told_of self.old).image (λ file. at + length into.old ≤ length file) }
        ensures bytes { OnOk result (IfSome (told_of self.old).image (λ file. into.new ≡ take (length into.old) (drop at file))) }
        ensures same { IsSame (told_of self.old) (told_of self.new) }
        ensures down { IsErr result → IsDown (told_of self.old) }
        ensures cause { HasCause (told_of self.old) (told_of self.new) (IsErr result) }

        ensures fails { IsErr result ↔ IsTrue (has_stopped self.old) }
        ensures next { self.new ≡ after_read self.old }
    {
        if self.stopped() {
            self.count_fault();
            return Err(Failed);
        }
        let at = at as usize;
        into.copy_from_slice(&self.image[at..at + into.len()]);
        Ok(())
    }

    fn write_at(&mut self, at: u64, bytes: &[u8]) -> Result<(), WriteRefused>
        requires begins { IfSome (told_of self.old).image (λ file. at ≤ length file) }
        requires ends { at + length bytes.now < 2 ^ 63 }
        ensures written { OnOk result (IfSome (told_of self.old).image (λ file. (told_of self.new).image ≡ Some (put_at file at bytes.now))) }
        ensures tells { is_some (told_of self.new).image ≡ is_some (told_of self.old).image }
        ensures no_memory { IsErrOf result WriteRefused.NoMemory → IsSame (told_of self.old) (told_of self.new) }
        ensures crash { Follows (Torn at (length bytes.now)) (told_of self.old).may_leave (told_of self.new).may_leave }
        ensures time { Elapses (told_of self.old) (told_of self.new) }
        ensures stroke { Strikes (told_of self.old) (told_of self.new) (IsOk result) (IsErrOf result WriteRefused.Failed) }
        ensures plan { GoesToPlan (told_of self.old) (told_of self.new) (IsOk result) (IsErrOf result WriteRefused.Failed) }
        ensures room { (writes rest : ℕ) → (told_of self.old).has_room (writes + 1) (rest + length bytes.now) →
            (IsErrOf result WriteRefused.NoMemory → ⊥) × (told_of self.new).has_room writes rest }
        ensures cause { HasCause (told_of self.old) (told_of self.new) (IsErrOf result WriteRefused.Failed) }

        ensures done { OnOk result (fate_of self.old ≡ Done) }
        ensures fails { IsErrOf result WriteRefused.Failed → fate_of self.old ≢ Done }
        ensures fails_at { fate_of self.old ≡ Fails → IsErrOf result WriteRefused.Failed }
        ensures next { (IsErrOf result WriteRefused.NoMemory → ⊥) → IsButForRoom (after_write self.old at bytes.now (fate_of self.old)) self.new }
        ensures unchanged { IsErrOf result WriteRefused.NoMemory → IsButForRoom self.old self.new }
    {
        match self.fate() {
            Fate::Done => {
                self.do_write(at, bytes)?;
                self.count();
                Ok(())
            }
            Fate::Fails => {
                self.count_failed();
                Err(WriteRefused::Failed)
            }
            Fate::Stops(outcome) => {
                self.do_write(at, bytes)?;
                self.stop_by(outcome);
                Err(WriteRefused::Failed)
            }
        }
    }

    fn sync(&mut self) -> Result<(), Failed>
        ensures synced { OnOk result (IfSome (told_of self.old).image (λ file. Only file (told_of self.new).may_leave)) }
        ensures image { (told_of self.new).image ≡ (told_of self.old).image }
        ensures crash { Within (told_of self.new).may_leave (told_of self.old).may_leave }
        ensures time { Elapses (told_of self.old) (told_of self.new) }
        ensures stroke { Strikes (told_of self.old) (told_of self.new) (IsOk result) (IsErr result) }
        ensures plan { GoesToPlan (told_of self.old) (told_of self.new) (IsOk result) (IsErr result) }
        ensures room { (writes bytes : ℕ) → (told_of self.old).has_room writes bytes → (told_of self.new).has_room writes bytes }
        ensures cause { HasCause (told_of self.old) (told_of self.new) (IsErr result) }

        ensures done { IsOk result ↔ (fate_of self.old ≡ Done) }
        ensures next { IsButForRoom (after_sync self.old (fate_of self.old)) self.new }
    {
        match self.fate() {
            Fate::Done => {
                self.do_sync();
                self.count();
                Ok(())
            }
            Fate::Fails => {
                self.count_failed();
                Err(Failed)
            }
            Fate::Stops(outcome) => {
                self.stop_by(outcome);
                Err(Failed)
            }
        }
    }
}
