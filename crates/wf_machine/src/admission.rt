//! What a unit let in.
use wf_model::{Outer, UnitId};

/// An outer that a unit admitted, with the number of the request for it.
#[derive(Drop)]
pub struct Admission {
    pub request: u64,
    pub outer: Outer,
}

/// Where an admission stands in the merged list: its unit, and its number there, counted from 1.
#[derive(Clone, Copy)]
pub struct Place {
    pub unit: UnitId,
    pub number: u64,
}
