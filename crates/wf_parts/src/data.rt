//! A chart cut into components, and what one unit is given of it.
use std::alloc::Global;
use wf_model::{
    ActId, Action, Duplicate, EventId, Expr, List, Name, NoMemory, Sort, StateId, TransId, UnitId,
    Val, VarId,
};

/// A state by itself: whether it is in at first, and the transitions that let it in and out.
#[derive(Drop)]
pub struct Component {
    pub state: StateId,
    pub first: bool,
    pub enter: List<TransId>,
    pub leave: List<TransId>,
}

/// A chart as components, one for each state, and for each transition those that block it.
#[derive(Drop)]
pub struct Flat {
    pub components: List<Component>,
    pub blockers: List<List<TransId>>,
}

/// A transition whose scope is above a state of the unit. Only the unit's own ones have their actions.
#[derive(Drop)]
pub struct PartTransition {
    pub id: TransId,
    pub source: StateId,
    pub event: Option<EventId>,
    pub guard: Option<Expr>,
    pub blockers: List<TransId>,
    pub own: bool,
    pub actions: List<Action>,
}

/// A state that the unit knows.
#[derive(Clone, Copy)]
pub struct KnownState {
    pub id: StateId,
    pub unit: UnitId,
    /// Whether it is in at first.
    pub first: bool,
}

/// A variable that the unit knows.
#[derive(Clone, Copy)]
pub struct KnownVariable {
    pub id: VarId,
    pub sort: Sort,
    pub first: Val,
}

/// An event that the unit knows.
#[derive(Clone, Copy)]
pub struct KnownEvent {
    pub id: EventId,
    pub unit: Option<UnitId>,
}

/// An activity that the unit knows. Only the unit's own ones have their outputs, each with its sort.
#[derive(Drop)]
pub struct KnownActivity {
    pub id: ActId,
    pub unit: UnitId,
    pub outputs: List<(VarId, Sort)>,
}

/// What a peer knows of what may stand in the unit's updates, each list ascending.
#[derive(Drop)]
pub struct Known {
    /// The peer.
    pub unit: UnitId,
    /// Of the unit's states.
    pub states: List<StateId>,
    /// Of the variables that the unit's transitions may assign, and of the outputs of its activities.
    pub vars: List<VarId>,
    /// Of the events at the unit, and of those that its transitions may raise.
    pub events: List<EventId>,
    /// Of the activities at the unit, and of those that its transitions may start.
    pub acts: List<ActId>,
}

/// All that a unit is given of a chart, as plain data.
#[derive(Drop)]
pub struct PartData {
    pub chart: Name,
    pub name: Name,
    pub unit: UnitId,
    /// How many units the chart has.
    pub units: u32,
    pub components: List<Component>,
    pub transitions: List<PartTransition>,
    pub states: List<KnownState>,
    pub vars: List<KnownVariable>,
    pub events: List<KnownEvent>,
    pub acts: List<KnownActivity>,
    /// One for each other unit of the chart, in their order.
    pub peers: List<Known>,
}

impl Duplicate for Component {
    fn copy(&self, alloc: Global) -> Result<Component, NoMemory> {
        let enter = self.enter.copy(alloc)?;
        let leave = self.leave.copy(alloc)?;
        Ok(Component {
            state: self.state,
            first: self.first,
            enter,
            leave,
        })
    }
}
