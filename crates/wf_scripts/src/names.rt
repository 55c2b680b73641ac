//! How the names of a script are found in a chart.
ghost use Rattle.std.specs.Prelude.{◌≡◌, ℕ, ◌≤◌, List, Some, None, length, IfOk, OnOk, if◌then◌else◌};
ghost use Rattle.std.specs.List.{position_from};
ghost use Rattle.std.specs.Option.{option_or};
ghost use Rattle.std.specs.Str.{bytes_eq};
ghost use Rattle.wf_model.specs.Accepted.{IsAccepted};
ghost use Rattle.wf_scripts.specs.Names as spec;
ghost use Rattle.wf_scripts.specs.Finders.{finder_of};
ghost use Rattle.wf_model.specs.Limits.{max_acts, max_events, max_units, max_vars};

use std::alloc::Global;
use std::collections::HashMap;
use wf_model::{Activity, Chart, Event, Name, NoMemory, Variable};

/// The numbers of a chart's units, events, activities and variables, by their names.
#[derive(Drop)]
pub struct Names<'a> {
    pub units: HashMap<&'a [u8], u32>,
    pub events: HashMap<&'a [u8], u32>,
    pub acts: HashMap<&'a [u8], u32>,
    pub vars: HashMap<&'a [u8], u32>,
}

impl<'a> Names<'a> {
    /// The names of this chart. Linear in their bytes on average.
    #[tactic(auto, using(wf_model::proofs::Few::few_units, wf_model::proofs::Few::few_events, wf_model::proofs::Few::few_acts, wf_model::proofs::Few::few_vars))]
    pub fn of(alloc: Global, chart: &'a Chart) -> Result<Names<'a>, NoMemory>
        requires { IsAccepted chart.now }
        ensures { IfOk result (λ names. finder_of names ≡ spec.names_of chart.now) }
    {
        let units = unit_numbers(alloc, chart.units.as_slice())?;
        let events = event_numbers(alloc, chart.events.as_slice())?;
        let acts = act_numbers(alloc, chart.acts.as_slice())?;
        let vars = var_numbers(alloc, chart.vars.as_slice())?;
        Ok(Names {
            units,
            events,
            acts,
            vars,
        })
    }

    /// The number of the unit of this name.
    pub fn unit(&self, name: &[u8]) -> Option<u32>
        ensures { result ≡ spec.found_in self.now.units name.now }
    {
        self.units.get(name).copied()
    }

    /// The number of the event of this name.
    pub fn event(&self, name: &[u8]) -> Option<u32>
        ensures { result ≡ spec.found_in self.now.events name.now }
    {
        self.events.get(name).copied()
    }

    /// The number of the activity of this name.
    pub fn act(&self, name: &[u8]) -> Option<u32>
        ensures { result ≡ spec.found_in self.now.acts name.now }
    {
        self.acts.get(name).copied()
    }

    /// The number of the variable of this name.
    pub fn var(&self, name: &[u8]) -> Option<u32>
        ensures { result ≡ spec.found_in self.now.vars name.now }
    {
        self.vars.get(name).copied()
    }
}

// Notes a name's number, if the name is new.
fn note<'a>(
    numbers: &mut HashMap<&'a [u8], u32>,
    name: &'a [u8],
    number: u32,
) -> Result<(), NoMemory>
    ensures { OnOk result ((word : List ℕ) → spec.found_in numbers.new word ≡ option_or (spec.found_in numbers.old word) (if bytes_eq word name.now then Some number else None)) }
{
    if !numbers.contains_key(name) {
        numbers.insert(name, number)?;
    }
    Ok(())
}

fn unit_numbers<'a>(alloc: Global, units: &'a [Name]) -> Result<HashMap<&'a [u8], u32>, NoMemory>
    requires { length units.now ≤ max_units }
    ensures { IfOk result (λ numbers. spec.found_in numbers ≡ (λ name. position_from (λ unit. bytes_eq name unit) 0 units.now)) }
{
    let mut numbers = HashMap::new(alloc);
    for (at, unit) in units.iter().enumerate() {
        note(&mut numbers, unit.as_bytes(), at as u32)?;
    }
    Ok(numbers)
}

fn event_numbers<'a>(alloc: Global, events: &'a [Event]) -> Result<HashMap<&'a [u8], u32>, NoMemory>
    requires { length events.now ≤ max_events }
    ensures { IfOk result (λ numbers. spec.found_in numbers ≡ (λ name. position_from (λ event. bytes_eq name event.name) 0 events.now)) }
{
    let mut numbers = HashMap::new(alloc);
    for (at, event) in events.iter().enumerate() {
        note(&mut numbers, event.name.as_bytes(), at as u32)?;
    }
    Ok(numbers)
}

fn act_numbers<'a>(alloc: Global, acts: &'a [Activity]) -> Result<HashMap<&'a [u8], u32>, NoMemory>
    requires { length acts.now ≤ max_acts }
    ensures { IfOk result (λ numbers. spec.found_in numbers ≡ (λ name. position_from (λ act. bytes_eq name act.name) 0 acts.now)) }
{
    let mut numbers = HashMap::new(alloc);
    for (at, act) in acts.iter().enumerate() {
        note(&mut numbers, act.name.as_bytes(), at as u32)?;
    }
    Ok(numbers)
}

fn var_numbers<'a>(alloc: Global, vars: &'a [Variable]) -> Result<HashMap<&'a [u8], u32>, NoMemory>
    requires { length vars.now ≤ max_vars }
    ensures { IfOk result (λ numbers. spec.found_in numbers ≡ (λ name. position_from (λ variable. bytes_eq name variable.name) 0 vars.now)) }
{
    let mut numbers = HashMap::new(alloc);
    for (at, variable) in vars.iter().enumerate() {
        note(&mut numbers, variable.name.as_bytes(), at as u32)?;
    }
    Ok(numbers)
}
