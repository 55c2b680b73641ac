//! Names that stand twice.
ghost use Rattle.std.specs.Prelude.{◌≡◌, IfOk};
ghost use Rattle.wf_check.specs.Naming.{texts};
ghost use Rattle.wf_check.specs.Naming as naming;

use std::alloc::Global;
use std::collections::HashSet;
use wf_model::{NoMemory, is_name};

/// The first name that isn't one, or stands among those before it. Linear in the
/// names' bytes on average, by a set of the names so far.
pub fn bad_name(alloc: Global, names: &[&[u8]]) -> Result<Option<usize>, NoMemory>
    ensures { IfOk result (λ bad. bad ≡ naming.bad_name (texts names.now)) }
{
    let mut seen = HashSet::new(alloc);
    for (n, name) in names.iter().enumerate() {
        if !is_name(name) || !seen.insert(*name)? {
            return Ok(Some(n));
        }
    }
    Ok(None)
}
