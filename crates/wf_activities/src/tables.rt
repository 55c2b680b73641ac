//! What is worked out once for a chart: what a completion of each activity gives.
ghost use Rattle.std.specs.Prelude.{◌≡◌, [], length, map, replicate, IfOk};
ghost use Rattle.wf_model.specs.Accepted.{IsAccepted};
ghost use Rattle.wf_activities.specs.Stock.{with_sorts, wanted_of};

use crate::Items;
use std::alloc::Global;
use wf_model::{Chart, List, NoMemory, Sort, UnitId, VarId};

// These variables, each with its sort.
fn with_sorts(
    alloc: Global,
    chart: &Chart,
    outputs: &[VarId],
) -> Result<List<(VarId, Sort)>, NoMemory>
    ensures { IfOk result (λ pairs. pairs ≡ with_sorts chart.now outputs.now) }
{
    let mut pairs = List::new(alloc);
    for x in outputs {
        if let Some(var) = chart.vars.get(x.0 as usize) {
            pairs.push((*x, var.sort))?;
        }
    }
    Ok(pairs)
}

/// By activity: the variables that a completion gives, each with its sort. Grows with the activities and their outputs.
pub fn wanted_outputs(alloc: Global, chart: &Chart) -> Result<List<List<(VarId, Sort)>>, NoMemory>
    ensures { IfOk result (λ table. table ≡ wanted_of chart.now) }
{
    let mut table = List::new(alloc);
    for act in chart.acts.as_slice() {
        let pairs = with_sorts(alloc, chart, act.outputs.as_slice())?;
        table.push(pairs)?;
    }
    Ok(table)
}

/// No item yet, for each unit. Grows with the units.
pub fn no_items(alloc: Global, chart: &Chart) -> Result<Vec<Items>, NoMemory>
    requires { IsAccepted chart.now }
    ensures items { IfOk result (λ units. map (λ i. i.items) units.items ≡ replicate (length chart.now.units) []) }
    ensures steps { IfOk result (λ units. map (λ i. i.steps) units.items ≡ replicate (length chart.now.units) []) }
{
    let mut units = Vec::new(alloc);
    for u in 0..chart.units.len() {
        units.push(Items::new(alloc, UnitId(u as u32)))?;
    }
    Ok(units)
}
