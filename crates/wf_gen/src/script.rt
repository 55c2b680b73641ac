//! The generated script.
ghost use Rattle.std.specs.Prelude.{◌≡◌, ◌<◌, ◌++◌, OnOk};
ghost use Rattle.wf_gen.specs.Draws.{after};
ghost use Rattle.wf_gen.specs.GenScript as spec;

use crate::draws::Draws;
use wf_model::{Bytes, NoMemory};
use wf_words::append_number;

// How many admissions there are.
const ADMISSIONS: u64 = 1000;

fn append_admit(text: &mut Bytes, d: u64, q: u64) -> Result<(), NoMemory>
    ensures { OnOk result (text.new ≡ text.old ++ spec.admit_line d q) }
{
    text.append(b"admit u")?;
    append_number(text, d)?;
    text.append(b" ")?;
    append_number(text, q)?;
    text.append(b" event e")?;
    append_number(text, d)?;
    text.append(b"\n")
}

// The first so many admissions, each with a round behind it.
fn append_admissions(text: &mut Bytes, draws: &mut Draws, count: u64) -> Result<(), NoMemory>
    ensures { OnOk result (text.new ≡ text.old ++ spec.admissions draws.old count) }
{
    for q in 0..count {
        let d = draws.draw(3);
        append_admit(text, d, q + 1)?;
        text.append(b"round\n")?;
    }
    Ok(())
}

/// Appends the script, whose admissions are drawn. Linear in what is appended.
#[tactic(auto, unfolding(crate::specs::GenScript::gen_script))]
pub fn append_script(text: &mut Bytes, draws: &mut Draws) -> Result<(), NoMemory>
    ensures { OnOk result (text.new ≡ text.old ++ spec.gen_script draws.old) }
{
    append_admissions(text, draws, ADMISSIONS)?;
    text.append(b"round\nround\nround\nround\n")
}
