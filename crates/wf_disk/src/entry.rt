//! The entries of a record of strokes, and what they do again to an image.
ghost use Rattle.std.specs.Prelude.{◌≡◌, ◌≤◌, true, length, vec_capacity};
ghost use Rattle.wf_disk.specs.Strokes.{image_after, torn_over, do_fit};
ghost use Rattle.wf_disk.specs.Entries.{total, strokes_of, ranges_in};

use crate::image::{fill_over, put_over};

/// A stroke that was done. The bytes of all writes stand in one buffer, in order.
#[derive(Clone, Copy)]
pub enum Entry {
    /// A write of so many bytes at this place.
    Wrote { at: u64, len: usize },
    /// A sync.
    Synced,
}

/// Does strokes again, over an image that has room for all that they write. In linear time in the entries and in what
/// they write.
pub fn redo(entries: &[Entry], written: &[u8], image: &mut Vec<u8>)
    requires filled { total entries.now ≤ length written.now }
    requires fit { do_fit (length image.old.items) (vec_capacity image.old) (ranges_in entries.now) ≡ true }
    ensures image { image.new.items ≡ image_after image.old.items (strokes_of entries.now written.now) }
    ensures capacity { vec_capacity image.old ≤ vec_capacity image.new }
{
    let mut left = written;
    for entry in entries {
        if let Entry::Wrote { at, len } = *entry {
            let (bytes, rest) = left.split_at(len);
            let done = put_over(image, at as usize, bytes);
            prove!(done.is_ok());
            left = rest;
        }
    }
}

/// Fills each range that strokes wrote with 0xFF, over an image that has room for them. In linear time in the entries
/// and in what they wrote.
pub fn tear(entries: &[Entry], image: &mut Vec<u8>)
    requires fit { do_fit (length image.old.items) (vec_capacity image.old) (ranges_in entries.now) ≡ true }
    ensures image { image.new.items ≡ torn_over image.old.items (ranges_in entries.now) }
    ensures capacity { vec_capacity image.old ≤ vec_capacity image.new }
{
    for entry in entries {
        if let Entry::Wrote { at, len } = *entry {
            fill_over(image, at as usize, len);
        }
    }
}
