//! The checker: the first rule that a chart breaks, and seals for charts that break none.
ghost use Rattle.std.specs.Prelude.{◌≡◌, IfOk};
ghost use Rattle.wf_check.specs.FirstFault as spec;
ghost use Rattle.wf_check.specs.Judged.{checked_of, judged_of};
ghost use Rattle.wf_model.specs.Steps.{Gives};

use crate::CheckFault;
use crate::names::name_fault;
use crate::numbers::number_fault;
use crate::shape::shape_fault;
use crate::sizes::size_fault;
use crate::sorts::sort_fault;
use std::alloc::Global;
use wf_model::{Chart, Checked, NoMemory};

/// The chart, sealed, exactly where it is accepted, and else the chart as it was, with the first rule that it breaks: so a
/// caller can name the parts that the fault is about. `NoMemory` where memory runs out. It grows as `first_fault` does.
#[tactic(auto, using(crate::proofs::Faultless::faultless), unfolding(crate::specs::Judged::judged_of))]
pub fn judge(alloc: Global, chart: Chart) -> Result<Result<Checked, (Chart, CheckFault)>, NoMemory>
    ensures { IfOk result (λ judged. judged ≡ judged_of chart) }
{
    match first_fault(alloc, &chart)? {
        Some(fault) => Ok(Err((chart, fault))),
        None => Ok(Ok(Checked::seal(chart))),
    }
}

/// The chart, sealed, exactly where it is accepted, and else the first rule that it breaks; the chart is dropped then.
/// `NoMemory` where memory runs out. It grows as `first_fault` does.
#[tactic(auto, unfolding(crate::specs::Judged::checked_of, crate::specs::Judged::judged_of))]
pub fn check(alloc: Global, chart: Chart) -> Result<Checked, CheckFault>
    ensures { Gives CheckFault.NoMemory result (checked_of chart) }
{
    match judge(alloc, chart)? {
        Ok(checked) => Ok(checked),
        Err((_chart, fault)) => Err(fault),
    }
}

/// The first rule that the chart breaks, if it breaks one: limits, then numbers, names, the shape of the states, first
/// values, outputs, and transition by transition. `NoMemory` where memory runs out. Linear in the chart on average, but
/// for the states, which count by their depth.
#[tactic(auto, using(crate::proofs::Faultless::few, crate::proofs::Faultless::placed), unfolding(crate::specs::FirstFault::first_fault))]
pub fn first_fault(alloc: Global, chart: &Chart) -> Result<Option<CheckFault>, NoMemory>
    ensures { IfOk result (λ fault. fault ≡ spec.first_fault chart.now) }
{
    if let Some(fault) = size_fault(chart) {
        return Ok(Some(fault));
    }
    if let Some(fault) = number_fault(chart) {
        return Ok(Some(fault));
    }
    if let Some(fault) = name_fault(alloc, chart)? {
        return Ok(Some(fault));
    }
    if let Some(fault) = shape_fault(chart) {
        return Ok(Some(fault));
    }
    Ok(sort_fault(chart))
}
