//! Writes in place, over the bytes of a disk.
ghost use Rattle.std.specs.Prelude.{◌≡◌, ◌+◌, ◌≤◌, max, length, replicate, IsOk, OnOk, OnErr, vec_capacity};
ghost use Rattle.wf_disk.specs.Disk.{put_at};

use std::alloc::AllocError;

/// Writes over what is there, and past the end. In linear time in the bytes, and where there is no room for them in the
/// image too. After an `Err` the image is as it was.
pub fn put_over(image: &mut Vec<u8>, at: usize, bytes: &[u8]) -> Result<(), AllocError>
    requires { at ≤ length image.old.items }
    ensures ok { OnOk result (image.new.items ≡ put_at image.old.items at bytes.now) }
    ensures err { OnErr result (image.new.items ≡ image.old.items) }
    ensures capacity { vec_capacity image.old ≤ vec_capacity image.new }
    ensures succeeds { max (length image.old.items) (at + length bytes.now) ≤ vec_capacity image.old → IsOk result }
{
    let room = image.len() - at;
    if bytes.len() <= room {
        image[at..at + bytes.len()].copy_from_slice(bytes);
        return Ok(());
    }
    image.extend_from_slice(&bytes[room..])?;
    image[at..at + room].copy_from_slice(&bytes[..room]);
    Ok(())
}

/// Fills a range with 0xFF, over what is there and past the end. There is room for it. In linear time in `len`.
pub fn fill_over(image: &mut Vec<u8>, at: usize, len: usize)
    requires begins { at ≤ length image.old.items }
    requires room { at + len ≤ vec_capacity image.old }
    ensures filled { image.new.items ≡ put_at image.old.items at (replicate len 255) }
    ensures capacity { vec_capacity image.old ≤ vec_capacity image.new }
{
    if image.len() < at + len {
        let resized = image.resize(at + len, 255);
        prove!(resized.is_ok());
    }
    image[at..at + len].fill(255);
}
