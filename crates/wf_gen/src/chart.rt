//! The generated chart.
ghost use Rattle.std.specs.Prelude.{◌≡◌, IfOk, OnOk};
ghost use Rattle.wf_gen.specs.Draws.{after};
ghost use Rattle.wf_gen.specs.GenChart as spec;

use crate::draws::Draws;
use crate::states::states;
use crate::transitions::transitions;
use std::alloc::Global;
use wf_model::{Chart, Checked, Event, List, Name, NoMemory, Sort, UnitId, Val, Variable};

// How many transitions there are.
const TRANSITIONS: u32 = 30;

fn units(alloc: Global) -> Result<List<Name>, NoMemory>
    ensures { IfOk result (λ units. units ≡ spec.units) }
{
    let mut units = List::new(alloc);
    units.push(Name::new(alloc, b"u0")?)?;
    units.push(Name::new(alloc, b"u1")?)?;
    units.push(Name::new(alloc, b"u2")?)?;
    Ok(units)
}

fn event(alloc: Global, name: &[u8], unit: Option<UnitId>) -> Result<Event, NoMemory>
    ensures { IfOk result (λ event. event ≡ spec.event name.now unit) }
{
    let name = Name::new(alloc, name)?;
    Ok(Event { name, unit })
}

fn events(alloc: Global) -> Result<List<Event>, NoMemory>
    ensures { IfOk result (λ events. events ≡ spec.events) }
{
    let mut events = List::new(alloc);
    events.push(event(alloc, b"fault", None)?)?;
    events.push(event(alloc, b"e0", Some(UnitId(0)))?)?;
    events.push(event(alloc, b"e1", Some(UnitId(1)))?)?;
    events.push(event(alloc, b"e2", Some(UnitId(2)))?)?;
    events.push(event(alloc, b"i", None)?)?;
    Ok(events)
}

fn int_var(alloc: Global, name: &[u8], first: u32) -> Result<Variable, NoMemory>
    ensures { IfOk result (λ var. var ≡ spec.int_var name.now first) }
{
    Ok(Variable {
        name: Name::new(alloc, name)?,
        sort: Sort::Int,
        first: Val::Int(first as i64),
    })
}

fn vars(alloc: Global) -> Result<List<Variable>, NoMemory>
    ensures { IfOk result (λ vars. vars ≡ spec.vars) }
{
    let mut vars = List::new(alloc);
    vars.push(int_var(alloc, b"x", 0)?)?;
    vars.push(int_var(alloc, b"y", 1)?)?;
    Ok(vars)
}

#[tactic(auto, unfolding(crate::specs::GenChart::gen_chart, crate::specs::GenChart::chart_with))]
fn chart(alloc: Global, draws: &mut Draws) -> Result<Chart, NoMemory>
    ensures chart { IfOk result (λ chart. chart ≡ spec.gen_chart draws.old) }
    ensures drawn { OnOk result (draws.new ≡ after 120 draws.old) }
{
    Ok(Chart {
        name: Name::new(alloc, b"bulk")?,
        units: units(alloc)?,
        events: events(alloc)?,
        vars: vars(alloc)?,
        acts: List::new(alloc),
        states: states(alloc)?,
        transitions: transitions(alloc, draws, TRANSITIONS)?,
    })
}

/// The chart, sealed. Its transitions are drawn.
#[tactic(auto, using(crate::proofs::Sealed::generated))]
pub fn sealed_chart(alloc: Global, draws: &mut Draws) -> Result<Checked, NoMemory>
    ensures chart { IfOk result (λ checked. checked ≡ spec.gen_chart draws.old) }
    ensures drawn { OnOk result (draws.new ≡ after 120 draws.old) }
{
    Ok(Checked::seal(chart(alloc, draws)?))
}
