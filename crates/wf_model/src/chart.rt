//! A chart, as its text means it.
ghost use Rattle.std.specs.Prelude.{◌≡◌, option_map};
ghost use Rattle.wf_model.specs.Sorts as sorts;
ghost use Rattle.wf_model.specs.Tree as tree;

use crate::{
    ActId, Duplicate, EventId, Expr, List, Name, NoMemory, Same, Sort, StateId, UnitId, Val, VarId,
};
use std::alloc::Global;

/// A kind of state.
#[derive(Clone, Copy, Debug, PartialEq, Eq)]
pub enum Kind {
    /// It has no children.
    Basic,
    /// Exactly one child is in while the state is.
    Or,
    /// All children are in while the state is.
    And,
}

/// What a transition does as it fires.
#[derive(Debug, Drop)]
pub enum Action {
    Assign(VarId, Expr),
    Raise(EventId),
    Start(ActId),
}

/// A state, at its unit.
#[derive(Debug, Drop)]
pub struct State {
    pub name: Name,
    pub kind: Kind,
    pub parent: Option<StateId>,
    pub unit: UnitId,
}

/// A transition between two states.
#[derive(Debug, Drop)]
pub struct Transition {
    pub source: StateId,
    pub target: StateId,
    pub event: Option<EventId>,
    pub guard: Option<Expr>,
    pub actions: List<Action>,
}

/// A variable, with its value before the first step.
#[derive(Debug, Drop)]
pub struct Variable {
    pub name: Name,
    pub sort: Sort,
    pub first: Val,
}

/// An event. One with a unit may be admitted there.
#[derive(Debug, Drop)]
pub struct Event {
    pub name: Name,
    pub unit: Option<UnitId>,
}

/// An activity, at its unit, with the variables that a completion gives values.
#[derive(Debug, Drop)]
pub struct Activity {
    pub name: Name,
    pub unit: UnitId,
    pub outputs: List<VarId>,
}

/// A chart: its parts in the order of the text.
#[derive(Debug, Drop)]
pub struct Chart {
    pub name: Name,
    pub units: List<Name>,
    pub events: List<Event>,
    pub vars: List<Variable>,
    pub acts: List<Activity>,
    pub states: List<State>,
    pub transitions: List<Transition>,
}

impl Kind {
    /// Whether it is that of an Or state.
    pub fn is_or(self) -> bool
        ensures { result ≡ tree.is_or self }
    {
        match self {
            Kind::Or => true,
            Kind::Basic | Kind::And => false,
        }
    }
}

impl Chart {
    /// The kind of a state. A number that no state has counts as basic. In constant time.
    pub fn kind(&self, s: StateId) -> Kind
        ensures { result ≡ tree.kind self.now s.0 }
    {
        match self.states.get(s.0 as usize) {
            Some(state) => state.kind,
            None => Kind::Basic,
        }
    }

    /// The parent of a state, if it has one. In constant time.
    pub fn parent(&self, s: StateId) -> Option<StateId>
        ensures { option_map (λ p. p.0) result ≡ tree.parent self.now s.0 }
    {
        match self.states.get(s.0 as usize) {
            Some(state) => state.parent,
            None => None,
        }
    }

    /// The sort of a variable, if there is one of this number. In constant time.
    pub fn var_sort(&self, x: VarId) -> Option<Sort>
        ensures { result ≡ sorts.var_sort self.now x.0 }
    {
        match self.vars.get(x.0 as usize) {
            Some(var) => Some(var.sort),
            None => None,
        }
    }
}

impl Duplicate for Action {
    fn copy(&self, alloc: Global) -> Result<Action, NoMemory> {
        match self {
            Action::Assign(x, value) => {
                let value = value.copy(alloc)?;
                Ok(Action::Assign(*x, value))
            }
            Action::Raise(event) => Ok(Action::Raise(*event)),
            Action::Start(act) => Ok(Action::Start(*act)),
        }
    }
}

impl Duplicate for State {
    fn copy(&self, alloc: Global) -> Result<State, NoMemory> {
        Ok(State {
            name: self.name.copy(alloc)?,
            kind: self.kind,
            parent: self.parent,
            unit: self.unit,
        })
    }
}

impl Duplicate for Transition {
    fn copy(&self, alloc: Global) -> Result<Transition, NoMemory> {
        let guard = self.guard.copy(alloc)?;
        let actions = self.actions.copy(alloc)?;
        Ok(Transition {
            source: self.source,
            target: self.target,
            event: self.event,
            guard,
            actions,
        })
    }
}

impl Duplicate for Variable {
    fn copy(&self, alloc: Global) -> Result<Variable, NoMemory> {
        Ok(Variable {
            name: self.name.copy(alloc)?,
            sort: self.sort,
            first: self.first,
        })
    }
}

impl Duplicate for Event {
    fn copy(&self, alloc: Global) -> Result<Event, NoMemory> {
        Ok(Event {
            name: self.name.copy(alloc)?,
            unit: self.unit,
        })
    }
}

impl Duplicate for Activity {
    fn copy(&self, alloc: Global) -> Result<Activity, NoMemory> {
        let name = self.name.copy(alloc)?;
        let outputs = self.outputs.copy(alloc)?;
        Ok(Activity {
            name,
            unit: self.unit,
            outputs,
        })
    }
}

impl Duplicate for Chart {
    fn copy(&self, alloc: Global) -> Result<Chart, NoMemory> {
        Ok(Chart {
            name: self.name.copy(alloc)?,
            units: self.units.copy(alloc)?,
            events: self.events.copy(alloc)?,
            vars: self.vars.copy(alloc)?,
            acts: self.acts.copy(alloc)?,
            states: self.states.copy(alloc)?,
            transitions: self.transitions.copy(alloc)?,
        })
    }
}

impl Same for Action {
    fn is_same(&self, other: &Action) -> bool {
        match (self, other) {
            (Action::Assign(x, value), Action::Assign(y, other)) => *x == *y
                && value.is_same(other),
            (Action::Raise(a), Action::Raise(b)) => *a == *b,
            (Action::Start(a), Action::Start(b)) => *a == *b,
            _ => false,
        }
    }
}

impl Same for State {
    fn is_same(&self, other: &State) -> bool {
        self.name.is_same(&other.name)
            && self.kind == other.kind
            && self.parent.is_same(&other.parent)
            && self.unit == other.unit
    }
}

impl Same for Transition {
    fn is_same(&self, other: &Transition) -> bool {
        self.source == other.source
            && self.target == other.target
            && self.event.is_same(&other.event)
            && self.guard.is_same(&other.guard)
            && self.actions.is_same(&other.actions)
    }
}

impl Same for Variable {
    fn is_same(&self, other: &Variable) -> bool {
        self.name.is_same(&other.name)
            && self.sort == other.sort
            && self.first.is_same(&other.first)
    }
}

impl Same for Event {
    fn is_same(&self, other: &Event) -> bool {
        self.name.is_same(&other.name) && self.unit.is_same(&other.unit)
    }
}

impl Same for Activity {
    fn is_same(&self, other: &Activity) -> bool {
        self.name.is_same(&other.name)
            && self.unit == other.unit
            && self.outputs.is_same(&other.outputs)
    }
}

impl Same for Chart {
    fn is_same(&self, other: &Chart) -> bool {
        self.name.is_same(&other.name)
            && self.units.is_same(&other.units)
            && self.events.is_same(&other.events)
            && self.vars.is_same(&other.vars)
            && self.acts.is_same(&other.acts)
            && self.states.is_same(&other.states)
            && self.transitions.is_same(&other.transitions)
    }
}
