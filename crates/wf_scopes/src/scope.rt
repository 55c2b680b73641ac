//! The scopes of transitions.
ghost use Rattle.std.specs.Prelude.{◌≡◌, ◌<◌, ◌&&◌, ◌==◌, [], length, find, IfOk, slice_index_or, slice_get};
ghost use Rattle.wf_model.specs.Accepted.{IsAccepted};
ghost use Rattle.wf_model.specs.Tree.{kind, is_or, is_above, scope_between};
ghost use Rattle.wf_scopes.specs.Tables.{lineages_of, scopes_of};

use crate::lineages::is_above;
use std::alloc::Global;
use wf_model::{Chart, Kind, List, NoMemory, StateId, Transition};

fn is_or(chart: &Chart, s: StateId) -> bool
    ensures { result ≡ is_or (kind chart.now s.0) }
{
    match chart.kind(s) {
        Kind::Or => true,
        Kind::Basic | Kind::And => false,
    }
}

// Whether state `a` is an Or state above the target.
fn spans(lineages: &[List<StateId>], chart: &Chart, target: StateId, a: StateId) -> bool
    requires of { lineages.now ≡ lineages_of chart.now }
    requires in_range { target.0 < length chart.now.states }
    ensures { result ≡ (is_or (kind chart.now a.0) && is_above chart.now a.0 target.0) }
{
    is_or(chart, a) && is_above(lineages, chart, a, target)
}

// The first of these states that is an Or state above the target.
fn first_spanning(
    lineages: &[List<StateId>],
    chart: &Chart,
    target: StateId,
    ids: &[StateId],
) -> Option<StateId>
    requires of { lineages.now ≡ lineages_of chart.now }
    requires in_range { target.0 < length chart.now.states }
    ensures { result ≡ find (λ a. is_or (kind chart.now a.0) && is_above chart.now a.0 target.0) ids.now }
{
    for a in ids {
        if spans(lineages, chart, target, *a) {
            return Some(*a);
        }
    }
    None
}

// The lowest Or state above source and target.
fn scope_of(lineages: &[List<StateId>], chart: &Chart, transition: &Transition) -> StateId
    requires of { lineages.now ≡ lineages_of chart.now }
    requires source { transition.now.source.0 < length chart.now.states }
    requires target { transition.now.target.0 < length chart.now.states }
    ensures { result.0 ≡ scope_between chart.now transition.now.source.0 transition.now.target.0 }
{
    let ids = lineages[transition.source.0 as usize].as_slice();
    match first_spanning(lineages, chart, transition.target, ids) {
        Some(a) => a,
        None => StateId(0),
    }
}

/// The scope of each transition. Grows with the transitions times the square of the depth.
pub fn scopes(
    alloc: Global,
    lineages: &[List<StateId>],
    chart: &Chart,
) -> Result<List<StateId>, NoMemory>
    requires of { lineages.now ≡ lineages_of chart.now }
    requires accepted { IsAccepted chart.now }
    ensures { IfOk result (λ table. table ≡ scopes_of chart.now) }
{
    let mut table = List::new(alloc);
    for transition in chart.transitions.as_slice() {
        table.push(scope_of(lineages, chart, transition))?;
    }
    Ok(table)
}
