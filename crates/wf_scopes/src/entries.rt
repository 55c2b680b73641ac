//! What transitions enter.
ghost use Rattle.std.specs.Prelude.{◌≡◌, ◌<◌, ◌==◌, ◌||◌, length, map, Some, IfOk, slice_index_or, false};
ghost use Rattle.std.specs.List.{range_with_len};
ghost use Rattle.wf_model.specs.Accepted.{IsAccepted};
ghost use Rattle.wf_model.specs.Tree.{kind, parent, is_above, scope, target};
ghost use Rattle.wf_semantics.specs.Configuration.{is_in};
ghost use Rattle.wf_semantics.specs.Entry.{child_towards, entry_tree};
ghost use Rattle.wf_semantics.specs.Picks.{picked_by};
ghost use Rattle.wf_scopes.specs.Tables.{lineages_of, scopes_of, entries_of, entry_row};

use crate::lineages::is_above;
use std::alloc::Global;
use wf_model::{Chart, Kind, List, NoMemory, StateId, TransId};

// Where a transition leads: the state whose child it replaces, and its target.
#[derive(Clone, Copy)]
struct Way {
    scope: StateId,
    target: StateId,
}

// Whether state `z` is the target or above it.
fn leads_to(lineages: &[List<StateId>], chart: &Chart, z: StateId, target: StateId) -> bool
    requires of { lineages.now ≡ lineages_of chart.now }
    requires in_range { target.0 < length chart.now.states }
    ensures { result ≡ ((z.0 == target.0) || is_above chart.now z.0 target.0) }
{
    z.0 == target.0 || is_above(lineages, chart, z, target)
}

// Whether child `z` of the Or state `p` is the one towards the target, or the first where the target lies elsewhere.
#[tactic(auto, using(crate::proofs::Enters::towards_read))]
fn is_towards(
    lineages: &[List<StateId>],
    chart: &Chart,
    target: StateId,
    p: StateId,
    z: StateId,
) -> bool
    requires of { lineages.now ≡ lineages_of chart.now }
    requires accepted { IsAccepted chart.now }
    requires child { parent chart.now z.0 ≡ Some p.0 }
    requires later { p.0 < z.0 }
    requires in_range { target.0 < length chart.now.states }
    ensures { result ≡ (child_towards chart.now target.0 p.0 == z.0) }
{
    if is_above(lineages, chart, p, target) {
        leads_to(lineages, chart, z, target)
    } else {
        z.0 == p.0 + 1
    }
}

// Whether child `z` of state `p` is in where `p` is, on the way to the target.
fn is_picked(
    lineages: &[List<StateId>],
    chart: &Chart,
    target: StateId,
    p: StateId,
    z: StateId,
) -> bool
    requires of { lineages.now ≡ lineages_of chart.now }
    requires accepted { IsAccepted chart.now }
    requires child { parent chart.now z.0 ≡ Some p.0 }
    requires later { p.0 < z.0 }
    requires in_range { target.0 < length chart.now.states }
    ensures { result ≡ picked_by (kind chart.now p.0) (child_towards chart.now target.0 p.0) z.0 }
{
    match chart.kind(p) {
        Kind::Basic => false,
        Kind::And => true,
        Kind::Or => is_towards(lineages, chart, target, p, z),
    }
}

// Whether state `p` is the scope, or entered by the row.
fn is_from(scope: StateId, row: &[bool], p: StateId) -> bool
    requires { p.0 < length row.now }
    ensures { result ≡ ((p.0 == scope.0) || slice_index_or row.now p.0 false) }
{
    p.0 == scope.0 || row[p.0 as usize]
}

// Whether the transition enters state `z`, where the row says what of the states before it.
fn is_entered(
    lineages: &[List<StateId>],
    chart: &Chart,
    t: TransId,
    way: Way,
    row: &[bool],
    z: StateId,
) -> bool
    requires of { lineages.now ≡ lineages_of chart.now }
    requires accepted { IsAccepted chart.now }
    requires in_range { t.0 < length chart.now.transitions }
    requires scope { way.scope.0 ≡ scope chart.now t.0 }
    requires target { way.target.0 ≡ target chart.now t.0 }
    requires within { z.0 < length chart.now.states }
    requires before { row.now ≡ map (λ s. is_in s (entry_tree chart.now t.0)) (range_with_len 0 z.0) }
    ensures { result ≡ is_in z.0 (entry_tree chart.now t.0) }
{
    match chart.parent(z) {
        Some(p) => { is_from(way.scope, row, p) && is_picked(lineages, chart, way.target, p, z) }
        None => false,
    }
}

// For each state, whether the transition enters it.
fn row_of(
    alloc: Global,
    lineages: &[List<StateId>],
    chart: &Chart,
    t: TransId,
    way: Way,
) -> Result<List<bool>, NoMemory>
    requires of { lineages.now ≡ lineages_of chart.now }
    requires accepted { IsAccepted chart.now }
    requires in_range { t.0 < length chart.now.transitions }
    requires scope { way.scope.0 ≡ scope chart.now t.0 }
    requires target { way.target.0 ≡ target chart.now t.0 }
    ensures { IfOk result (λ row. row ≡ entry_row chart.now t.0) }
{
    let mut row: List<bool> = List::new(alloc);
    for z in 0..chart.states.len() {
        let enters = is_entered(lineages, chart, t, way, row.as_slice(), StateId(z as u32));
        row.push(enters)?;
    }
    Ok(row)
}

/// What each transition enters. Grows with the transitions times the states times their depth.
pub fn entries(
    alloc: Global,
    lineages: &[List<StateId>],
    scopes: &[StateId],
    chart: &Chart,
) -> Result<List<List<bool>>, NoMemory>
    requires of { lineages.now ≡ lineages_of chart.now }
    requires scoped { scopes.now ≡ scopes_of chart.now }
    requires accepted { IsAccepted chart.now }
    ensures { IfOk result (λ table. table ≡ entries_of chart.now) }
{
    let mut table: List<List<bool>> = List::new(alloc);
    for (t, transition) in chart.transitions.as_slice().iter().enumerate() {
        let way = Way {
            scope: scopes[t],
            target: transition.target,
        };
        let row = row_of(alloc, lineages, chart, TransId(t as u32), way)?;
        table.push(row)?;
    }
    Ok(table)
}
