//! Who is above whom.
ghost use Rattle.std.specs.Prelude.{◌≡◌, ◌<◌, ◌≤◌, ◌∷◌, ◌==◌, [], length, IfOk, IfSome, slice_index_or};
ghost use Rattle.std.specs.List.{list_any};
ghost use Rattle.wf_model.specs.Accepted.{IsAccepted};
ghost use Rattle.wf_model.specs.Tree.{list_from, is_above};
ghost use Rattle.wf_scopes.specs.Tables.{lineages_of};

use std::alloc::Global;
use wf_model::{Chart, List, NoMemory, StateId};

// The ancestors of a state with this parent, whose own ancestors are known.
fn lineage(
    alloc: Global,
    known: &[List<StateId>],
    parent: Option<StateId>,
) -> Result<List<StateId>, NoMemory>
    requires { IfSome parent (λ p. p.0 < length known.now) }
    ensures { IfOk result (λ ids. ids ≡ list_from (λ p. p ∷ slice_index_or known.now p.0 []) parent) }
{
    let mut ids = List::new(alloc);
    if let Some(p) = parent {
        ids.push(p)?;
        ids.append(known[p.0 as usize].as_slice())?;
    }
    Ok(ids)
}

/// The proper ancestors of each state, the lowest first. Grows with the states times their depth.
#[tactic(auto, using(crate::proofs::Lines::line_read, crate::proofs::Lines::parent_low, wf_model::proofs::Rows::row_more, wf_model::proofs::Rows::row_len), unfolding(crate::specs::Tables::lineages_of))]
pub fn lineages(alloc: Global, chart: &Chart) -> Result<List<List<StateId>>, NoMemory>
    requires { IsAccepted chart.now }
    ensures { IfOk result (λ table. table ≡ lineages_of chart.now) }
{
    let mut table: List<List<StateId>> = List::new(alloc);
    for state in chart.states.as_slice() {
        let ids = lineage(alloc, table.as_slice(), state.parent)?;
        table.push(ids)?;
    }
    Ok(table)
}

/// Whether a state is among these.
pub fn has_id(ids: &[StateId], a: StateId) -> bool
    ensures { result ≡ list_any (λ x. x.0 == a.0) ids.now }
{
    ids.iter().any(|x| x.0 == a.0)
}

/// Whether state `a` is a proper ancestor of state `b`. Grows with the depth.
#[tactic(auto, using(crate::proofs::Lines::above_read))]
pub fn is_above(lineages: &[List<StateId>], chart: &Chart, a: StateId, b: StateId) -> bool
    requires of { lineages.now ≡ lineages_of chart.now }
    requires in_range { b.0 < length chart.now.states }
    ensures { result ≡ is_above chart.now a.0 b.0 }
{
    has_id(lineages[b.0 as usize].as_slice(), a)
}
