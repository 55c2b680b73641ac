//! The nested text of states.
ghost use Rattle.std.specs.Prelude.{◌≡◌, ◌≤◌, ◌-◌, ◌++◌, ◌∷◌, [], map, slice_set, slice_index_or, IfOk, OnOk};
ghost use Rattle.wf_model.specs.Tree.{parent, all_states};
ghost use Rattle.wf_model.specs.Limits.{max_depth};
ghost use Rattle.wf_print.specs.States as spec;

use crate::declarations::append_place;
use crate::words::kind_word;
use std::alloc::Global;
use wf_model::limits::MAX_DEPTH;
use wf_model::{Bytes, Chart, List, NoMemory, State};

// As many empty lists as the chart has states.
fn no_children(alloc: Global, chart: &Chart) -> Result<Vec<List<usize>>, NoMemory>
    ensures { IfOk result (λ table. table.items ≡ map (λ _. []) (all_states chart.now)) }
{
    let mut table = Vec::new(alloc);
    for _state in 0..chart.states.len() {
        table.push(List::new(alloc))?;
    }
    Ok(table)
}

// The parent of a state, where it has one.
fn parent_of(chart: &Chart, s: usize) -> Option<usize>
    ensures { result ≡ parent chart.now s }
{
    match chart.states.get(s) {
        Some(state) => match state.parent {
            Some(parent) => Some(parent.0 as usize),
            None => None,
        },
        None => None,
    }
}

// One more child of a state; nothing where the table hasn't the state.
fn add_child(table: &mut Vec<List<usize>>, parent: usize, s: usize) -> Result<(), NoMemory>
    ensures { OnOk result (table.new.items ≡ slice_set table.old.items parent (slice_index_or table.old.items parent [] ++ s ∷ [])) }
{
    if parent < table.len() {
        table[parent].push(s)?;
    }
    Ok(())
}

/// The children of each state. Linear in the states.
pub fn children(alloc: Global, chart: &Chart) -> Result<List<List<usize>>, NoMemory>
    ensures { IfOk result (λ table. table ≡ spec.children_of chart.now) }
{
    let mut table = no_children(alloc, chart)?;
    for s in 0..chart.states.len() {
        if let Some(parent) = parent_of(chart, s) {
            add_child(&mut table, parent, s)?;
        }
    }
    Ok(List::from_vec(table))
}

// The children that the table has for a state.
fn row_of(children: &[List<usize>], s: usize) -> &[usize]
    ensures { result.now ≡ slice_index_or children.now s [] }
{
    match children.get(s) {
        Some(inside) => inside.as_slice(),
        None => &[],
    }
}

fn append_indent(text: &mut Bytes, depth: usize) -> Result<(), NoMemory>
    ensures { OnOk result (text.new ≡ text.old ++ spec.indent depth) }
{
    for _level in 0..depth {
        text.append(b"  ")?;
    }
    Ok(())
}

fn append_head(text: &mut Bytes, chart: &Chart, state: &State) -> Result<(), NoMemory>
    ensures { OnOk result (text.new ≡ text.old ++ spec.state_head chart.now state.now) }
{
    text.append(kind_word(state.kind))?;
    text.append(state.name.as_bytes())?;
    append_place(text, chart, state.unit)
}

fn append_opening(
    text: &mut Bytes,
    chart: &Chart,
    depth: usize,
    state: &State,
) -> Result<(), NoMemory>
    ensures { OnOk result (text.new ≡ text.old ++ spec.opening chart.now depth state.now) }
{
    append_indent(text, depth)?;
    append_head(text, chart, state)
}

fn append_closing(text: &mut Bytes, depth: usize) -> Result<(), NoMemory>
    ensures { OnOk result (text.new ≡ text.old ++ spec.closing depth) }
{
    append_indent(text, depth)?;
    text.append(b"}\n")
}

/// Appends a state and all below it, indented for its depth. Linear in what is appended.
pub fn append_state(
    text: &mut Bytes,
    chart: &Chart,
    children: &[List<usize>],
    depth: usize,
    s: usize,
) -> Result<(), NoMemory>
    requires table { children.now ≡ spec.children_of chart.now }
    requires within { depth ≤ max_depth }
    ensures { OnOk result (text.new ≡ text.old ++ spec.state_text chart.now (max_depth - depth) depth s) }
{
    if depth == MAX_DEPTH {
        return Ok(());
    }
    let Some(state) = chart.states.get(s) else {
        return Ok(());
    };
    let inside = row_of(children, s);
    append_opening(text, chart, depth, state)?;
    if inside.is_empty() {
        return text.append(b";\n");
    }
    text.append(b" {\n")?;
    for child in inside {
        append_state(text, chart, children, depth + 1, *child)?;
    }
    append_closing(text, depth)
}
