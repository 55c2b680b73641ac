//! A disk over an open file.
ghost use Rattle.std.specs.Prelude.{◌≡◌, ◌≤◌, ◌<◌, ◌+◌, ◌^◌, length, IsOk, IsErr, OnOk, IfOk, IfSome};
ghost use Rattle.wf_files.specs.Bytes.{IsRead, IsPut};
ghost use Rattle.wf_model.specs.Faults.{last_count};

use crate::ByteFile;
use crate::whole::{read_whole, write_whole};
use std::io;
use std::marker::Model;
use wf_disk::{Disk, WriteRefused};
use wf_model::Failed;

/// A disk that is a file. It tells nothing of what the file holds or of what a crash may leave of it. It takes no
/// memory. A read or a write is made in as many calls of the system as it takes.
#[derive(Drop)]
pub struct FileDisk<F: ByteFile> {
    file: F,
    /// How many strokes were made, failed ones too. At the greatest `u64` it stands.
    clock: u64,
    /// How often it has failed. At the greatest `u64` it stands.
    faults: u64,
}

impl<F: ByteFile> Model for FileDisk<F> {
    ghost use Rattle.wf_files.specs.Files.{OnFile};

    ghost Value = { OnFile };

    ghost view = { λ disk. record { held = F.held disk.file; clock = disk.clock; faults = disk.faults } };
}

impl<F: ByteFile> FileDisk<F> {
    ghost use Rattle.wf_files.specs.Files.{counted, failed, faulted, Counts, Fails};

    /// The disk of a file, which no call has failed yet.
    pub fn new(file: F) -> FileDisk<F>
        ensures { result ≡ record { held = F.held file; clock = 0; faults = 0 } }
    {
        FileDisk {
            file,
            clock: 0,
            faults: 0,
        }
    }

    /// How often it has failed.
    pub fn faults(&self) -> u64
        ensures { result ≡ self.now.faults }
    {
        self.faults
    }

    /// Counts a failure that is no stroke.
    fn count_fault(&mut self)
        ensures next { self.new ≡ faulted self.old }
        ensures later { self.old.faults ≤ self.new.faults }
    {
        self.faults = self.faults.saturating_add(1);
    }

    /// Counts a stroke. It fails if it wasn't done, or can't be counted any more.
    fn stroke(&mut self, done: io::Result<()>) -> Result<(), Failed>
        ensures done { OnOk result (IsOk done × (self.new ≡ counted self.old) × (self.old.clock < last_count)) }
        ensures failed { IsErr result → self.new ≡ failed self.old }
        ensures range { (self.old.clock ≤ last_count) × (self.old.faults ≤ last_count) }
    {
        if done.is_ok() && self.clock < u64::MAX {
            self.clock += 1;
            return Ok(());
        }
        self.clock = self.clock.saturating_add(1);
        self.faults = self.faults.saturating_add(1);
        Err(Failed)
    }

    /// How many bytes the file has. A failure is counted, and is no stroke.
    pub fn bytes_count(&mut self) -> Result<u64, Failed>
        ensures count { IfOk result (λ n. IfSome self.old.held (λ held. n ≡ length held)) }
        ensures held { self.new.held ≡ self.old.held }
        ensures same { IsOk result → self.new ≡ self.old }
        ensures fault { IsErr result → self.new ≡ faulted self.old }
        ensures later { self.old.faults ≤ self.new.faults }
    {
        match self.file.size() {
            Ok(size) => Ok(size),
            Err(_) => {
                self.count_fault();
                Err(Failed)
            }
        }
    }

    /// Reads as many bytes as are wanted, from this place on. A failure is counted, and is no stroke.
    pub fn read_bytes(&mut self, at: u64, into: &mut [u8]) -> Result<(), Failed>
        ensures given { OnOk result (IsRead self.old.held at (length into.old) into.new) }
        ensures held { self.new.held ≡ self.old.held }
        ensures same { IsOk result → self.new ≡ self.old }
        ensures fault { IsErr result → self.new ≡ faulted self.old }
        ensures later { self.old.faults ≤ self.new.faults }
    {
        match read_whole(&mut self.file, at, into) {
            Ok(()) => Ok(()),
            Err(_) => {
                self.count_fault();
                Err(Failed)
            }
        }
    }

    /// Writes all bytes from this place on, as one stroke.
    pub fn put_bytes(&mut self, at: u64, bytes: &[u8]) -> Result<(), Failed>
        requires ends { at + length bytes.now < 2 ^ 63 }
        ensures put { OnOk result (IsPut self.old.held self.new.held at bytes.now) }
        ensures done { OnOk result (Counts self.old self.new × (self.old.clock < last_count)) }
        ensures failed { IsErr result → Fails self.old self.new }
        ensures range { (self.old.clock ≤ last_count) × (self.old.faults ≤ last_count) }
    {
        let done = write_whole(&mut self.file, at, bytes);
        self.stroke(done)
    }

    /// Makes what was written stay, as one stroke.
    pub fn sync_bytes(&mut self) -> Result<(), Failed>
        ensures held { self.new.held ≡ self.old.held }
        ensures done { OnOk result (Counts self.old self.new × (self.old.clock < last_count)) }
        ensures failed { IsErr result → Fails self.old self.new }
        ensures range { (self.old.clock ≤ last_count) × (self.old.faults ≤ last_count) }
    {
        let done = self.file.sync();
        self.stroke(done)
    }
}

impl<F: ByteFile> Disk for FileDisk<F> {
    ghost use Rattle.wf_files.specs.Files.{told_of, lawful_file};

    ghost told = { told_of };

    ghost lawful = { lawful_file };

    fn size(&mut self) -> Result<u64, Failed> {
        self.bytes_count()
    }

    fn read_at(&mut self, at: u64, into: &mut [u8]) -> Result<(), Failed> {
        self.read_bytes(at, into)
    }

    #[tactic(auto, using(crate::proofs::Plans::goes))]
    fn write_at(&mut self, at: u64, bytes: &[u8]) -> Result<(), WriteRefused> {
        self.put_bytes(at, bytes)?;
        Ok(())
    }

    #[tactic(auto, using(crate::proofs::Plans::goes))]
    fn sync(&mut self) -> Result<(), Failed> {
        self.sync_bytes()
    }
}
