//! Why a script isn't run.
ghost use Rattle.std.specs.Prelude.{◌≡◌, IfOk};
ghost use Rattle.wf_refusals.specs.Scripts as spec;

use std::alloc::Global;
use wf_model::{Bytes, List, NoMemory};
use wf_words::append_number;

/// The line of a script whose first line outside the grammar has this number.
#[tactic(auto, unfolding(crate::specs::Scripts::script_line))]
pub fn script_line(alloc: Global, line: u32) -> Result<Bytes, NoMemory>
    ensures { IfOk result (λ text. text ≡ spec.script_line line) }
{
    let mut text = List::new(alloc);
    text.append(b"refused script line ")?;
    append_number(&mut text, line.into())?;
    text.append(b"\n")?;
    Ok(text)
}

/// The line of a script that has too many lines.
#[tactic(auto, unfolding(crate::specs::Scripts::too_many_lines))]
pub fn too_many_lines(alloc: Global) -> Result<Bytes, NoMemory>
    ensures { IfOk result (λ text. text ≡ spec.too_many_lines) }
{
    List::from_slice(alloc, b"refused limit lines\n")
}

/// The line of a script whose text would be too long.
#[tactic(auto, unfolding(crate::specs::Scripts::too_long_report))]
pub fn too_long_report(alloc: Global) -> Result<Bytes, NoMemory>
    ensures { IfOk result (λ text. text ≡ spec.too_long_report) }
{
    List::from_slice(alloc, b"refused limit report\n")
}
