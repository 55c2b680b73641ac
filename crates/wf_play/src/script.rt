//! Scripts of a play.
ghost use Rattle.std.specs.Prelude.{◌≤◌, length};
ghost use Rattle.wf_play.specs.Script as spec;
ghost use Rattle.wf_model.specs.Steps.{Gives};
ghost use Rattle.wf_model.specs.Limits.{max_input};

use crate::lines::PlayLines;
use std::alloc::Global;
use wf_machine::Line;
use wf_model::{Checked, List};
use wf_scripts::{ScriptFault, read_script};

/// The lines of a play's script that say something of this chart, each with its number, counted from 1 over all lines.
/// Refuses the first line that is outside the grammar. Linear in the script on average.
#[tactic(auto, unfolding(crate::specs::Script::play_of))]
pub fn read_play(
    alloc: Global,
    checked: &Checked,
    script: &[u8],
) -> Result<List<(u32, Line)>, ScriptFault>
    requires { length script.now ≤ max_input }
    ensures { Gives ScriptFault.NoMemory result (spec.play_of checked.now script.now) }
{
    read_script::<PlayLines>(alloc, checked, script)
}
