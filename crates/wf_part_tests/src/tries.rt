//! A run of a chart by the units' parts, and what is to be seen in it.
ghost use Rattle.std.specs.Prelude.{◌≡◌, length, map};
ghost use Rattle.std.specs.List.{range_with_len};
ghost use Rattle.wf_parts.specs.Parts.{part_of};

use crate::beside::check_central;
use crate::calls::check_view;
use crate::made::{checked_of, outer_of};
use crate::runs::{parts_in, shares_of};
use crate::told::check_told;
use std::alloc::Global;
use std::process::Abort;
use std::test::Fail;
use wf_model::{Checked, Entry, List, Update};
use wf_parts::Part;

/// What is to be seen in a run.
#[derive(Clone, Copy)]
pub enum Wanted {
    /// The lines of the central run, beside that of the parts.
    Central(&'static str),
    /// The lines of what each unit tells, and of what each peer is sent of it.
    Told(&'static str),
    /// The reads of the first unit's view after one step.
    View,
}

// Checks what is to be seen in the steps of a run.
fn check_steps(
    rt: &impl Abort,
    alloc: Global,
    checked: &Checked,
    parts: &[Part],
    outer: &[List<Entry>],
    steps: &List<List<Update>>,
    wanted: Wanted,
) -> Result<(), Fail> {
    match wanted {
        Wanted::Central(lines) => check_central(rt, alloc, checked, parts, outer, steps, lines),
        Wanted::Told(lines) => check_told(
            rt,
            alloc,
            checked.chart(),
            parts,
            steps.as_slice(),
            lines,
        ),
        Wanted::View => check_view(rt, alloc, parts, steps),
    }
}

// Checks a run of these parts.
fn check_parts(
    rt: &impl Abort,
    alloc: Global,
    checked: &Checked,
    parts: &[Part],
    outer: &[List<Entry>],
    wanted: Wanted,
) -> Result<(), Fail>
    requires { parts.now ≡ map (part_of checked.now) (range_with_len 0 (length checked.now.units)) }
{
    let steps = shares_of(alloc, checked, parts, outer)?;
    check_steps(rt, alloc, checked, parts, outer, &steps, wanted)
}

// Checks the run of a script.
fn check_script(
    rt: &impl Abort,
    alloc: Global,
    checked: &Checked,
    parts: &[Part],
    script: &str,
    wanted: Wanted,
) -> Result<(), Fail>
    requires { parts.now ≡ map (part_of checked.now) (range_with_len 0 (length checked.now.units)) }
{
    let outer = outer_of(alloc, checked, script)?;
    check_parts(rt, alloc, checked, parts, outer.as_slice(), wanted)
}

// Checks the run of a script over an accepted chart.
fn check_checked(
    rt: &impl Abort,
    alloc: Global,
    checked: &Checked,
    script: &str,
    wanted: Wanted,
) -> Result<(), Fail> {
    let parts = parts_in(alloc, checked)?;
    check_script(rt, alloc, checked, &parts, script, wanted)
}

/// Checks what is to be seen in the run of a script over a chart.
pub fn check_run(
    rt: &impl Abort,
    alloc: Global,
    chart: &str,
    script: &str,
    wanted: Wanted,
) -> Result<(), Fail> {
    let checked = checked_of(alloc, chart)?;
    check_checked(rt, alloc, &checked, script, wanted)
}
