//! Charts, their parts and lists of entries, from texts.
ghost use Rattle.std.specs.Prelude.{◌≡◌, length, map, IfOk};
ghost use Rattle.std.specs.List.{range_with_len};
ghost use Rattle.wf_parts.specs.Components.{flat_of};
ghost use Rattle.wf_parts.specs.Parts.{part_of};

use std::alloc::Global;
use std::test::Fail;
use wf_audit::{CentralLine, read_central};
use wf_check::check;
use wf_model::limits::MAX_INPUT;
use wf_model::{Checked, Duplicate, Entry, List, NoMemory, UnitId};
use wf_partition::part_of;
use wf_parts::{Flat, Part};
use wf_text::read_chart;

/// The accepted chart that the text means.
pub fn checked_of(alloc: Global, text: &str) -> Result<Checked, Fail> {
    let text = text.as_bytes();
    if text.len() > MAX_INPUT {
        Err("the text is too long")?;
    }
    let chart = read_chart(alloc, text).ok().ok_or("no chart")?;
    Ok(check(alloc, chart).ok().ok_or("not accepted")?)
}

/// The parts of all units, in unit order.
pub fn parts_of(alloc: Global, checked: &Checked, flat: &Flat) -> Result<Vec<Part>, NoMemory>
    requires { flat.now ≡ flat_of checked.now }
    ensures { IfOk result (λ parts. parts.items ≡ map (part_of checked.now) (range_with_len 0 (length checked.now.units))) }
{
    let mut parts = Vec::new(alloc);
    for unit in 0..checked.chart().units.len() {
        let part = part_of(alloc, checked, flat, UnitId(unit as u32))?;
        parts.push(part)?;
    }
    Ok(parts)
}

// Takes a line in: what comes from outside joins the entries, and a step makes a list of them.
fn take_line(
    alloc: Global,
    lists: &mut List<List<Entry>>,
    entries: &mut List<Entry>,
    line: &CentralLine,
) -> Result<(), NoMemory> {
    match line {
        CentralLine::Outer { unit, outer } => entries.push(Entry {
            unit: *unit,
            outer: outer.copy(alloc)?,
        }),
        CentralLine::Step => lists.push(std::mem::replace(entries, List::new(alloc))),
        CentralLine::Show => Ok(()),
    }
}

fn take_lines(
    alloc: Global,
    lists: &mut List<List<Entry>>,
    entries: &mut List<Entry>,
    lines: &[(u32, CentralLine)],
) -> Result<(), NoMemory> {
    for (_, line) in lines {
        take_line(alloc, lists, entries, line)?;
    }
    Ok(())
}

// The entries of each step.
fn lists_of(alloc: Global, lines: &[(u32, CentralLine)]) -> Result<List<List<Entry>>, Fail> {
    let mut lists = List::new(alloc);
    let mut entries = List::new(alloc);
    take_lines(alloc, &mut lists, &mut entries, lines)?;
    Ok(lists)
}

/// The entries of each step of a script of the central run.
pub fn outer_of(alloc: Global, checked: &Checked, script: &str) -> Result<List<List<Entry>>, Fail> {
    let script = script.as_bytes();
    if script.len() > MAX_INPUT {
        Err("the script is too long")?;
    }
    let lines = read_central(alloc, checked, script)
        .ok()
        .ok_or("no script")?;
    lists_of(alloc, lines.as_slice())
}
