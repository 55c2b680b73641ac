//! Whether the values of a completion are those that its activity gives.
ghost use Rattle.std.specs.Prelude.{◌≡◌};
ghost use Rattle.wf_model.specs.Seen.{val_sort};
ghost use Rattle.wf_model.specs.Sorts.{alike};
ghost use Rattle.wf_activities.specs.Completing.{is_wanted, are_wanted};

use wf_model::{Output, Sort, Val, VarId};

/// Whether a value has this sort.
pub fn has_sort(val: &Val, sort: Sort) -> bool
    ensures { result ≡ alike sort (val_sort val.now) }
{
    match val {
        Val::Bool(_) => matches!(sort, Sort::Bool),
        Val::Int(_) => matches!(sort, Sort::Int),
        Val::Text(_) => matches!(sort, Sort::Text),
    }
}

fn is_wanted(wanted: &(VarId, Sort), output: &Output) -> bool
    ensures { result ≡ is_wanted wanted.now output.now }
{
    output.var.0 == wanted.0.0 && has_sort(&output.val, wanted.1)
}

/// Whether there is one value of the right sort for each wanted variable, in order. Grows with these.
pub fn are_wanted(wanted: &[(VarId, Sort)], outputs: &[Output]) -> bool
    ensures { result ≡ are_wanted wanted.now outputs.now }
{
    if wanted.len() != outputs.len() {
        return false;
    }
    for i in 0..wanted.len() {
        if !is_wanted(&wanted[i], &outputs[i]) {
            return false;
        }
    }
    true
}
