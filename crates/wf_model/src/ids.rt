//! Numbers of the parts of a chart. Each kind counts from 0 in the order of the chart's text.

/// A state's number. A parent's is smaller than its children's.
#[derive(Clone, Copy, Debug, PartialEq, Eq)]
pub struct StateId(pub u32);

/// A transition's number.
#[derive(Clone, Copy, Debug, PartialEq, Eq)]
pub struct TransId(pub u32);

/// A variable's number.
#[derive(Clone, Copy, Debug, PartialEq, Eq)]
pub struct VarId(pub u32);

/// An event's number. Number 0 is `fault`, which every chart has.
#[derive(Clone, Copy, Debug, PartialEq, Eq)]
pub struct EventId(pub u32);

/// An activity's number.
#[derive(Clone, Copy, Debug, PartialEq, Eq)]
pub struct ActId(pub u32);

/// A unit's number.
#[derive(Clone, Copy, Debug, PartialEq, Eq)]
pub struct UnitId(pub u32);
