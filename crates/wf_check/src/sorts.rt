//! Whether values have their sorts, outputs differ, and transitions spare the root.
ghost use Rattle.std.specs.Prelude.{◌≡◌, ◌<◌, ◌≤◌, ◌^◌, ◌==◌, length};
ghost use Rattle.std.specs.List.{list_any};
ghost use Rattle.wf_check.specs.Limited.{AreFew};
ghost use Rattle.wf_check.specs.Sorted as sorted;
ghost use Rattle.wf_model.specs.Ids as ids;
ghost use Rattle.wf_model.specs.Seen.{val_sort};
ghost use Rattle.wf_model.specs.Sorts as sorts;
ghost use Rattle.wf_model.specs.Accepted as spec;

use crate::moves::first_transition_fault;
use crate::{CheckFault, TypePlace};
use wf_model::{ActId, Activity, Chart, Sort, Val, VarId, Variable};

/// The first fault of values, outputs and transitions. Linear in the chart.
#[tactic(auto, using(crate::proofs::Found::var_fits, crate::proofs::Found::output_fits), unfolding(crate::specs::Sorted::sort_fault))]
pub fn sort_fault(chart: &Chart) -> Option<CheckFault>
    requires { AreFew chart.now }
    ensures { result ≡ sorted.sort_fault chart.now }
{
    if let Some(x) = unlike_var(chart) {
        return Some(CheckFault::BadType {
            place: TypePlace::Var(var_id(x)),
        });
    }
    if let Some(a) = double_output(chart) {
        return Some(CheckFault::BadOutput { act: act_id(a) });
    }
    first_transition_fault(chart)
}

fn var_id(x: usize) -> VarId
    requires { x < 2 ^ 32 }
    ensures { result ≡ ids.var_id x }
{
    VarId(x as u32)
}

fn act_id(a: usize) -> ActId
    requires { a < 2 ^ 32 }
    ensures { result ≡ ids.act_id a }
{
    ActId(a as u32)
}

fn sort_of(val: &Val) -> Sort
    ensures { result ≡ val_sort val.now }
{
    match val {
        Val::Bool(_) => Sort::Bool,
        Val::Int(_) => Sort::Int,
        Val::Text(_) => Sort::Text,
    }
}

/// Whether the two sorts are one.
pub fn are_alike(left: Sort, right: Sort) -> bool
    ensures { result ≡ sorts.alike left right }
{
    left == right
}

fn is_like(var: &Variable) -> bool
    ensures { result ≡ sorts.alike (val_sort var.now.first) var.now.sort }
{
    are_alike(sort_of(&var.first), var.sort)
}

fn unlike_var(chart: &Chart) -> Option<usize>
    ensures { result ≡ sorted.unlike_var chart.now }
{
    chart.vars.iter().position(|var| !is_like(var))
}

fn is_among(outputs: &[VarId], x: VarId) -> bool
    ensures { result ≡ list_any (λ y. y.0 == x.0) outputs.now }
{
    outputs.iter().any(|y| y.0 == x.0)
}

fn is_new_output(outputs: &[VarId], n: usize, x: VarId) -> bool
    requires { n ≤ length outputs.now }
    ensures { result ≡ spec.is_new_output outputs.now n x }
{
    !is_among(&outputs[..n], x)
}

fn are_outputs(act: &Activity) -> bool
    ensures { result ≡ spec.are_outputs act.now }
{
    are_new_outputs(act.outputs.as_slice())
}

fn are_new_outputs(outputs: &[VarId]) -> bool
    ensures { result ≡ spec.all_numbered (spec.is_new_output outputs.now) outputs.now }
{
    for (n, x) in outputs.iter().enumerate() {
        if !is_new_output(outputs, n, *x) {
            return false;
        }
    }
    true
}

fn double_output(chart: &Chart) -> Option<usize>
    ensures { result ≡ sorted.double_output chart.now }
{
    chart.acts.iter().position(|act| !are_outputs(act))
}
