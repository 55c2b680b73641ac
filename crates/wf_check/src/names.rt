//! Whether the names in a chart are names, and none but the chart's stands twice.
ghost use Rattle.std.specs.Prelude.{◌≡◌, ◌<◌, ◌^◌, ◌++◌, IfOk, OnOk, length, map};
ghost use Rattle.wf_check.specs.Limited.{AreFew};
ghost use Rattle.wf_check.specs.Naming as naming;
ghost use Rattle.wf_check.specs.Naming.{texts};
ghost use Rattle.wf_model.specs.Accepted as spec;

use crate::distinct::bad_name;
use crate::{CheckFault, What};
use std::alloc::Global;
use wf_model::{Activity, Chart, Event, Name, NoMemory, State, Variable, is_name};

/// The first name that isn't one, or was used before. The chart's name is looked at first, and doesn't count as used.
/// Linear in the names' bytes on average.
#[tactic(auto, using(crate::proofs::Found::name_fits), unfolding(crate::specs::Naming::name_fault))]
pub fn name_fault(alloc: Global, chart: &Chart) -> Result<Option<CheckFault>, NoMemory>
    requires { AreFew chart.now }
    ensures { IfOk result (λ fault. fault ≡ naming.name_fault chart.now) }
{
    if !is_name(chart.name.as_bytes()) {
        return Ok(Some(name_fault_at(What::Chart, 0)));
    }
    match bad_name_of(alloc, chart)? {
        Some(n) => Ok(Some(name_fault_of(chart, n))),
        None => Ok(None),
    }
}

/// The number of the first name that isn't good, among all but the chart's.
fn bad_name_of(alloc: Global, chart: &Chart) -> Result<Option<usize>, NoMemory>
    ensures { IfOk result (λ bad. bad ≡ naming.bad_name (spec.names_of chart.now)) }
{
    let names = names_of(alloc, chart)?;
    bad_name(alloc, names.as_slice())
}

fn name_fault_at(what: What, at: usize) -> CheckFault
    requires { at < 2 ^ 32 }
    ensures { result ≡ CheckFault.BadName what at }
{
    CheckFault::BadName {
        what,
        at: at as u32,
    }
}

/// The fault of the n-th of all names but the chart's.
fn name_fault_of(chart: &Chart, n: usize) -> CheckFault
    requires { n < 2 ^ 32 }
    ensures { result ≡ naming.name_fault_of chart.now n }
{
    let units = chart.units.len();
    if n < units {
        return name_fault_at(What::Units, n);
    }
    let n = n - units;
    let events = chart.events.len();
    if n < events {
        return name_fault_at(What::Events, n);
    }
    let n = n - events;
    let vars = chart.vars.len();
    if n < vars {
        return name_fault_at(What::Vars, n);
    }
    let n = n - vars;
    let acts = chart.acts.len();
    if n < acts {
        return name_fault_at(What::Activities, n);
    }
    name_fault_at(What::States, n - acts)
}

/// A part of a chart that has a name.
trait Named {
    ghost use Rattle.std.specs.Prelude.{ℕ, List};

    ghost name: { Self → List ℕ };

    /// The bytes of its name, lent.
    fn name(&self) -> &[u8]
        ensures { result.now ≡ name self.now };
}

impl Named for Name {
    ghost name = { λ name. name };

    fn name(&self) -> &[u8] {
        self.as_bytes()
    }
}

impl Named for Event {
    ghost name = { λ event. event.name };

    fn name(&self) -> &[u8] {
        self.name.as_bytes()
    }
}

impl Named for Variable {
    ghost name = { λ var. var.name };

    fn name(&self) -> &[u8] {
        self.name.as_bytes()
    }
}

impl Named for Activity {
    ghost name = { λ act. act.name };

    fn name(&self) -> &[u8] {
        self.name.as_bytes()
    }
}

impl Named for State {
    ghost name = { λ state. state.name };

    fn name(&self) -> &[u8] {
        self.name.as_bytes()
    }
}

/// All names but the chart's, in order.
fn names_of<'a>(alloc: Global, chart: &'a Chart) -> Result<Vec<&'a [u8]>, NoMemory>
    ensures { IfOk result (λ names. texts names.items ≡ spec.names_of chart.now) }
{
    let mut names = Vec::new(alloc);
    push_names(&mut names, chart.units.as_slice())?;
    push_names(&mut names, chart.events.as_slice())?;
    push_names(&mut names, chart.vars.as_slice())?;
    push_names(&mut names, chart.acts.as_slice())?;
    push_names(&mut names, chart.states.as_slice())?;
    Ok(names)
}

#[tactic(auto, using(crate::proofs::Novel::texts_more))]
fn push_names<'a, T: Named>(names: &mut Vec<&'a [u8]>, parts: &'a [T]) -> Result<(), NoMemory>
    ensures { OnOk result (texts names.new.items ≡ texts names.old.items ++ map T.name parts.now) }
{
    for part in parts {
        names.push(part.name())?;
    }
    Ok(())
}
