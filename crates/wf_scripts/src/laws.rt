//! Laws of scripts, for every chart and every grammar of lines.
ghost use Rattle.wf_scripts.specs.Laws.{HaveMemory};

use crate::script::Grammar;

/// The definition of a script answers its lines or the first that is refused, and never that memory ran out.
pub fn scripts_have_memory<G: Grammar>()
    ensures { HaveMemory G.says }
{}
