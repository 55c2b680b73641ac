//! The generated text.
ghost use Rattle.std.specs.Prelude.{◌≡◌, IfOk};
ghost use Rattle.wf_gen.specs.GenText as spec;

use crate::chart::sealed_chart;
use crate::draws::Draws;
use crate::script::append_script;
use std::alloc::Global;
use wf_model::{Bytes, NoMemory};
use wf_print::print_chart;

/// The input that is generated from a number: the canonical text of its chart, the line `---`, and its script of 2,004
/// lines. The same number gives the same text. Linear in what is written.
#[tactic(auto, unfolding(crate::specs::GenText::gen_text))]
pub fn gen_text(alloc: Global, n: u32) -> Result<Bytes, NoMemory>
    ensures { IfOk result (λ text. text ≡ spec.gen_text n) }
{
    let mut draws = Draws::new(n);
    let chart = sealed_chart(alloc, &mut draws)?;
    let mut text = print_chart(alloc, &chart)?;
    text.append(b"---\n")?;
    append_script(&mut text, &mut draws)?;
    Ok(text)
}
