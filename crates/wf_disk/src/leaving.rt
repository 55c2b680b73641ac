//! What a crash leaves of an image, made in place from the record.
ghost use Rattle.std.specs.Prelude.{◌≡◌, ◌≤◌, true, length, take, vec_capacity};
ghost use Rattle.wf_disk.specs.Strokes.{image_after, left_after, are_fit};

use crate::arm::Outcome;
use crate::record::Record;

/// Makes of `into`, which has room for them, these bytes. In linear time in them.
pub fn copy_over(bytes: &[u8], into: &mut Vec<u8>)
    requires { length bytes.now ≤ vec_capacity into.old }
    ensures items { into.new.items ≡ bytes.now }
    ensures capacity { vec_capacity into.old ≤ vec_capacity into.new }
{
    into.clear();
    let copied = into.extend_from_slice(bytes);
    prove!(copied.is_ok());
}

/// Makes the image what was synced last.
fn lose(first: &[u8], history: &Record, image: &mut Vec<u8>)
    requires room { length first.now ≤ vec_capacity image.old }
    requires fit { are_fit (length first.now) (vec_capacity image.old) (take history.now.synced history.now.strokes) ≡ true }
    ensures image { image.new.items ≡ image_after first.now (take history.now.synced history.now.strokes) }
    ensures capacity { vec_capacity image.old ≤ vec_capacity image.new }
{
    copy_over(first, image);
    history.redo_synced(image);
}

/// Makes of the image, which these strokes made of the first bytes, what a crash leaves by its outcome. In linear time
/// in the first bytes, in the strokes and in what they wrote, and in constant time by `Keep`.
pub fn leave(outcome: Outcome, first: &[u8], history: &Record, image: &mut Vec<u8>)
    requires replayed { image.old.items ≡ image_after first.now history.now.strokes }
    requires fit { are_fit (length first.now) (length image.old.items) history.now.strokes ≡ true }
    ensures image { image.new.items ≡ left_after outcome first.now history.now.strokes history.now.synced }
    ensures size { length image.new.items ≤ length image.old.items }
    ensures capacity { vec_capacity image.old ≤ vec_capacity image.new }
{
    match outcome {
        Outcome::Keep => {}
        Outcome::Lose => lose(first, history, image),
        Outcome::Torn => {
            lose(first, history, image);
            history.tear_unsynced(image);
        }
    }
}
