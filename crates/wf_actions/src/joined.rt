//! Lists, one after another.
ghost use Rattle.std.specs.Prelude.{◌≡◌, flat_map, IfOk};

use std::alloc::Global;
use wf_model::{List, NoMemory};

// The entries of all the lists. In linear time.
pub(crate) fn concatenation<T: Copy>(alloc: Global, lists: &[List<T>]) -> Result<List<T>, NoMemory>
    ensures { IfOk result (λ all. all ≡ flat_map (λ list. list) lists.now) }
{
    let mut all = List::new(alloc);
    for list in lists {
        all.append(list.as_slice())?;
    }
    Ok(all)
}
