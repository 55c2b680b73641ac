//! Whether the states of a chart have the shape of a tree of kinds.
ghost use Rattle.std.specs.Prelude.{◌≡◌, ◌+◌, ◌<◌, ◌^◌, None};
ghost use Rattle.wf_check.specs.Limited.{AreFew};
ghost use Rattle.wf_check.specs.Numbered.{bad_state};
ghost use Rattle.wf_check.specs.Rooted as rooted;
ghost use Rattle.wf_model.specs.Ids as ids;
ghost use Rattle.wf_model.specs.Tree as tree;
ghost use Rattle.wf_model.specs.Accepted as spec;

use crate::CheckFault;
use crate::tree::{count_ancestors, parent};
use wf_model::limits::MAX_DEPTH;
use wf_model::{Chart, Kind, StateId};

/// The first fault of the states' shape: the root is an Or state, no state is too deep, Or and And states have
/// children, and basic states have none. Linear in the states times their depth.
#[tactic(auto, using(crate::proofs::Found::deep_fits, crate::proofs::Found::unfit_fits), unfolding(crate::specs::Rooted::shape_fault))]
pub fn shape_fault(chart: &Chart) -> Option<CheckFault>
    requires few { AreFew chart.now }
    requires placed { bad_state chart.now ≡ None }
    ensures { result ≡ rooted.shape_fault chart.now }
{
    if chart.states.is_empty() {
        return Some(CheckFault::NoRoot);
    }
    if !chart.kind(StateId(0)).is_or() {
        return Some(CheckFault::RootNotOr);
    }
    if let Some(s) = deep_state(chart) {
        return Some(CheckFault::TooDeep { state: state_id(s) });
    }
    let state = state_id(unfit_state(chart)?);
    Some(kind_fault(chart.kind(state), state))
}

fn state_id(s: usize) -> StateId
    requires { s < 2 ^ 32 }
    ensures { result ≡ ids.state_id s }
{
    StateId(s as u32)
}

fn kind_fault(kind: Kind, state: StateId) -> CheckFault
    ensures { result ≡ rooted.kind_fault kind state }
{
    match kind {
        Kind::Basic => CheckFault::BasicWithChildren { state },
        Kind::Or => CheckFault::EmptyOr { state },
        Kind::And => CheckFault::EmptyAnd { state },
    }
}

fn suits(kind: Kind, has: bool) -> bool
    ensures { result ≡ spec.suits kind has }
{
    match kind {
        Kind::Basic => !has,
        Kind::Or | Kind::And => has,
    }
}

fn deep_state(chart: &Chart) -> Option<usize>
    ensures { result ≡ rooted.deep_state chart.now }
{
    chart
        .states
        .iter()
        .enumerate()
        .position(|(s, _)| count_ancestors(chart, s) >= MAX_DEPTH)
}

/// Whether the state after `s` is a child of `s`. States stand directly before their first child, so this is whether
/// `s` has a child.
#[tactic(auto, using(crate::proofs::Preorder::no_child_past))]
fn leads_to_child(chart: &Chart, s: usize) -> bool
    requires { AreFew chart.now }
    ensures { result ≡ tree.is_child_of s (tree.parent chart.now (s + 1)) }
{
    match chart.states.get(s) {
        Some(_) => parent(chart, s + 1) == Some(s),
        None => false,
    }
}

#[tactic(auto, using(crate::proofs::Preorder::has_child_next))]
fn is_fit(chart: &Chart, s: usize, kind: Kind) -> bool
    requires few { AreFew chart.now }
    requires placed { bad_state chart.now ≡ None }
    ensures { result ≡ spec.suits kind (spec.has_child chart.now s) }
{
    suits(kind, leads_to_child(chart, s))
}

fn unfit_state(chart: &Chart) -> Option<usize>
    requires few { AreFew chart.now }
    requires placed { bad_state chart.now ≡ None }
    ensures { result ≡ rooted.unfit_state chart.now }
{
    chart
        .states
        .iter()
        .enumerate()
        .position(|(s, state)| !is_fit(chart, s, state.kind))
}
