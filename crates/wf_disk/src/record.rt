//! The record of a disk's strokes.
ghost use Rattle.std.specs.Prelude.{◌≡◌, ◌+◌, ◌<◌, ◌≤◌, ◌++◌, ◌∷◌, [], true, length, take, drop, IsTrue, ◌↔◌, IsOk, OnOk, vec_len, vec_capacity};
ghost use Rattle.wf_disk.specs.Strokes.{Stroke, image_after, torn_after, are_fit};

use crate::entry::{Entry, redo, tear};
use std::alloc::{AllocError, Global};
use std::marker::Model;

/// Adds an entry, for which there is room.
fn push_in_room(entries: &mut Vec<Entry>, entry: Entry)
    requires { vec_len entries.old < vec_capacity entries.old }
    ensures items { entries.new.items ≡ entries.old.items ++ entry ∷ [] }
    ensures len { vec_len entries.new ≡ vec_len entries.old + 1 }
    ensures capacity { vec_capacity entries.old ≤ vec_capacity entries.new }
{
    let pushed = entries.push(entry);
    prove!(pushed.is_ok());
}

/// Adds bytes, for which there is room.
fn extend_in_room(written: &mut Vec<u8>, bytes: &[u8])
    requires { vec_len written.old + length bytes.now ≤ vec_capacity written.old }
    ensures items { written.new.items ≡ written.old.items ++ bytes.now }
    ensures len { vec_len written.new ≡ vec_len written.old + length bytes.now }
    ensures capacity { vec_capacity written.old ≤ vec_capacity written.new }
{
    let extended = written.extend_from_slice(bytes);
    prove!(extended.is_ok());
}

/// The strokes that were done to a disk since some moment.
#[derive(Drop)]
pub struct Record {
    /// The strokes, in order.
    entries: Vec<Entry>,
    /// The bytes of all writes, in order.
    written: Vec<u8>,
    /// How many of the entries stand up to the last sync.
    synced: usize,
}

impl Model for Record {
    ghost use Rattle.std.specs.Prelude.{◌-◌, ◌/◌, min, vec_len, vec_capacity};
    ghost use Rattle.wf_disk.specs.Entries.{Recorded, IsKept, strokes_of};

    ghost Value = { Recorded };

    ghost view = { λ r. record {
      strokes = strokes_of r.entries.items r.written.items;
      synced = r.synced;
      bytes = vec_capacity r.written - vec_len r.written;
      writes = (vec_capacity r.entries - vec_len r.entries - min 1 (vec_len r.entries - r.synced)) / 2;
    } };

    ghost invariant = { λ r. IsKept r.entries.items r.written.items r.synced (vec_len r.entries) (vec_capacity r.entries) };
}

impl Record {
    /// No stroke. Takes no memory.
    pub fn new(alloc: Global) -> Record
        ensures strokes { result.strokes ≡ [] }
        ensures synced { result.synced ≡ 0 }
    {
        Record {
            entries: Vec::new(alloc),
            written: Vec::new(alloc),
            synced: 0,
        }
    }

    /// How many strokes it has.
    pub fn len(&self) -> usize
        ensures { result ≡ length self.now.strokes }
    {
        self.entries.len()
    }

    /// Whether each write is followed by a sync.
    pub fn is_synced(&self) -> bool
        ensures { IsTrue result ↔ (self.now.synced ≡ length self.now.strokes) }
    {
        self.synced == self.entries.len()
    }

    /// Makes room for writes of so many bytes in all, and for the syncs after them. It may copy the record. After an
    /// `Err` there is at least the room that there was.
    pub fn reserve(&mut self, bytes: usize, writes: u32) -> Result<(), AllocError>
        ensures strokes { self.new.strokes ≡ self.old.strokes }
        ensures synced { self.new.synced ≡ self.old.synced }
        ensures bytes { (self.old.bytes ≤ self.new.bytes) × OnOk result (bytes ≤ self.new.bytes) }
        ensures writes { (self.old.writes ≤ self.new.writes) × OnOk result (writes ≤ self.new.writes) }
        ensures succeeds { bytes ≤ self.old.bytes → writes ≤ self.old.writes → IsOk result }
    {
        self.written.reserve(bytes)?;
        let unsynced = usize::from(self.synced < self.entries.len());
        self.entries.reserve(2 * writes as usize + unsynced)?;
        Ok(())
    }

    /// Keeps a write, for which there is room.
    pub fn add_write(&mut self, at: u64, bytes: &[u8])
        requires bytes { length bytes.now ≤ self.old.bytes }
        requires writes { 1 ≤ self.old.writes }
        ensures strokes { self.new.strokes ≡ self.old.strokes ++ Stroke.Wrote at bytes.now ∷ [] }
        ensures synced { self.new.synced ≡ self.old.synced }
        ensures bytes { self.old.bytes ≤ self.new.bytes + length bytes.now }
        ensures writes { self.old.writes ≤ self.new.writes + 1 }
    {
        extend_in_room(&mut self.written, bytes);
        push_in_room(
            &mut self.entries,
            Entry::Wrote {
                at,
                len: bytes.len(),
            },
        );
    }

    /// Keeps a sync after a write.
    pub fn add_sync(&mut self)
        requires { self.old.synced < length self.old.strokes }
        ensures strokes { self.new.strokes ≡ self.old.strokes ++ Stroke.Synced ∷ [] }
        ensures synced { self.new.synced ≡ length self.old.strokes + 1 }
        ensures bytes { self.new.bytes ≡ self.old.bytes }
        ensures writes { self.old.writes ≤ self.new.writes }
    {
        push_in_room(&mut self.entries, Entry::Synced);
        self.synced = self.entries.len();
    }

    /// Forgets all strokes. Takes no memory.
    pub fn clear(&mut self)
        ensures strokes { self.new.strokes ≡ [] }
        ensures synced { self.new.synced ≡ 0 }
        ensures bytes { self.old.bytes ≤ self.new.bytes }
        ensures writes { self.old.writes ≤ self.new.writes }
    {
        self.entries.clear();
        self.written.clear();
        self.synced = 0;
    }

    /// Does the strokes up to the last sync again, over an image that has room for all that they write.
    pub fn redo_synced(&self, image: &mut Vec<u8>)
        requires { are_fit (length image.old.items) (vec_capacity image.old) (take self.now.synced self.now.strokes) ≡ true }
        ensures image { image.new.items ≡ image_after image.old.items (take self.now.synced self.now.strokes) }
        ensures capacity { vec_capacity image.old ≤ vec_capacity image.new }
    {
        redo(&self.entries[..self.synced], &self.written, image);
    }

    /// Fills what was written since the last sync with 0xFF. The image has room for it.
    pub fn tear_unsynced(&self, image: &mut Vec<u8>)
        requires { are_fit (length image.old.items) (vec_capacity image.old) (drop self.now.synced self.now.strokes) ≡ true }
        ensures image { image.new.items ≡ torn_after image.old.items (drop self.now.synced self.now.strokes) }
        ensures capacity { vec_capacity image.old ≤ vec_capacity image.new }
    {
        tear(&self.entries[self.synced..], image);
    }
}
