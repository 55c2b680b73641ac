//! Numbers in decimal.
ghost use Rattle.std.specs.Prelude.{◌≡◌, ◌++◌, OnOk, OnErr};
ghost use Rattle.std.specs.Fmt.{decimal};

use itoa::Buffer;
use wf_model::{Bytes, NoMemory};

/// Appends a number in decimal. After `NoMemory` the text is as before.
pub fn append_number(text: &mut Bytes, number: u64) -> Result<(), NoMemory>
    ensures text { OnOk result (text.new ≡ text.old ++ decimal number) }
    ensures err { OnErr result (text.new ≡ text.old) }
{
    let mut digits = Buffer::new();
    text.append(digits.format(number).as_bytes())
}
