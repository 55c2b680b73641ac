//! Scripts of a host.
ghost use Rattle.std.specs.Prelude.{◌≤◌, length};
ghost use Rattle.wf_model.specs.Limits.{max_input};
ghost use Rattle.wf_model.specs.Steps.{Gives};
ghost use Rattle.wf_scripts.specs.Finders.{finder_of};
ghost use Rattle.wf_job.specs.Script as spec;

use crate::draft::Draft;
use crate::job::HostJob;
use crate::lines::{HostLine, HostLines};
use std::alloc::Global;
use wf_model::{Chart, Checked};
use wf_scripts::{Names, ScriptFault, line_at, split_line};

// The draft with the line of this number.
fn with_line(
    alloc: Global,
    chart: &Chart,
    names: &Names,
    number: u32,
    line: &[u8],
    draft: Draft,
) -> Result<Draft, ScriptFault>
    requires { length line.now ≤ max_input }
    ensures { Gives ScriptFault.NoMemory result (spec.with_line chart.now (finder_of names.now) number line.now draft) }
{
    let said = line_at::<HostLines>(alloc, names, number, line)?;
    let next = draft.with_said(chart, said)?;
    next.ok_or(ScriptFault::Refused { line: number })
}

/// The job that a script says, for this chart. Refuses the first line that is outside the grammar, by itself or by the
/// lines before it; a goal that is missing is refused behind the last line. Linear in the script on average, and each line
/// grows with the clients' lines and the workers before it.
#[tactic(auto, unfolding(crate::specs::Script::job_of))]
pub fn read_host(alloc: Global, checked: &Checked, script: &[u8]) -> Result<HostJob, ScriptFault>
    requires { length script.now ≤ max_input }
    ensures { Gives ScriptFault.NoMemory result (spec.job_of checked.now script.now) }
{
    let names = Names::of(alloc, checked.chart())?;
    let mut draft = Draft::blank(alloc);
    let mut number = 0;
    let mut rest = script;
    while !rest.is_empty() {
        let (line, more) = split_line(rest);
        number += 1;
        draft = with_line(alloc, checked.chart(), &names, number, line, draft)?;
        rest = more;
    }
    draft.whole(number + 1)
}
