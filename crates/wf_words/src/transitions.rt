//! Transitions by their numbers.
ghost use Rattle.std.specs.Prelude.{◌≡◌, ◌++◌, OnOk};
ghost use Rattle.wf_words.specs.Transitions.{trans_list};

use crate::append_number;
use wf_model::{Bytes, NoMemory, TransId};

/// Adds transitions to a text: each as a blank, `t` and its number. After `NoMemory` some of them may have been added. Grows
/// with them.
pub fn add_transitions(text: &mut Bytes, transitions: &[TransId]) -> Result<(), NoMemory>
    ensures { OnOk result (text.new ≡ text.old ++ trans_list transitions.now) }
{
    for t in transitions {
        text.append(b" t")?;
        append_number(text, t.0.into())?;
    }
    Ok(())
}
