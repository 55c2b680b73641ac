//! Which lines of a host's script may stand behind others.
ghost use Rattle.std.specs.Prelude.{◌≡◌, ◌==◌, ◌&&◌};
ghost use Rattle.std.specs.List.{list_any};
ghost use Rattle.wf_semantics.specs.Admission.{is_act_at, are_values, are_outputs_of};
ghost use Rattle.wf_job.specs.Drafts as spec;
ghost use Rattle.wf_job.specs.Values.{is_value_of};

use crate::job::{ClientLine, WorkerLine};
use wf_activities::{has_sort, is_event_at};
use wf_model::limits::MAX_CLIENT_LINES;
use wf_model::{ActId, Chart, EventId, Output, UnitId, VarId};

fn is_with(clients: &[ClientLine], line: ClientLine) -> bool
    ensures { result ≡ spec.is_with clients.now line }
{
    clients.iter().all(|before| before.client != line.client || before.unit.0 == line.unit.0)
}

/// Whether a client's line may stand behind these. Linear in these; takes no memory.
pub fn may_follow(chart: &Chart, clients: &[ClientLine], line: ClientLine) -> bool
    ensures { result ≡ spec.may_follow chart.now clients.now line }
{
    clients.len() < MAX_CLIENT_LINES
        && is_event_at(chart, line.unit, line.event)
        && is_with(clients, line)
}

fn has_worker(workers: &[WorkerLine], number: u32) -> bool
    ensures { result ≡ list_any (λ w. w.worker == number) workers.now }
{
    workers.iter().any(|before| before.worker == number)
}

fn is_value(chart: &Chart, var: VarId, output: &Output) -> bool
    ensures { result ≡ is_value_of chart.now var output.now }
{
    match chart.vars.get(var.0 as usize) {
        Some(variable) => output.var.0 == var.0 && has_sort(&output.val, variable.sort),
        None => false,
    }
}

// Whether these are values of the variables, in order.
fn are_values(chart: &Chart, vars: &[VarId], outputs: &[Output]) -> bool
    ensures { result ≡ are_values chart.now vars.now outputs.now }
{
    let mut rest = outputs;
    for var in vars {
        let [output, others @ ..] = rest else {
            return false;
        };
        if !is_value(chart, *var, output) {
            return false;
        }
        rest = others;
    }
    rest.is_empty()
}

// Whether an activity is at this unit and has these outputs.
fn is_done_so(chart: &Chart, unit: UnitId, act: ActId, outputs: &[Output]) -> bool
    ensures { result ≡ (is_act_at chart.now unit.0 act.0 && are_outputs_of chart.now act.0 outputs.now) }
{
    match chart.acts.get(act.0 as usize) {
        Some(activity) => {
            activity.unit.0 == unit.0 && are_values(chart, activity.outputs.as_slice(), outputs)
        }
        None => false,
    }
}

/// Whether a worker may stand behind these. Linear in these and its outputs; takes no memory.
pub fn may_join(chart: &Chart, workers: &[WorkerLine], line: &WorkerLine) -> bool
    ensures { result ≡ spec.may_join chart.now workers.now line.now }
{
    !has_worker(workers, line.worker)
        && is_done_so(chart, line.unit, line.act, line.outputs.as_slice())
}
