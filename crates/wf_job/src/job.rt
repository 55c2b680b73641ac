//! What a host is to do.
use wf_model::{ActId, EventId, List, Output, UnitId};

/// An event that a client brings to its unit.
#[derive(Clone, Copy)]
pub struct ClientLine {
    pub client: u32,
    pub unit: UnitId,
    pub event: EventId,
}

/// A worker, which does items of one activity at a unit, always with the same outputs.
#[derive(Drop)]
pub struct WorkerLine {
    pub worker: u32,
    pub unit: UnitId,
    pub act: ActId,
    pub outputs: List<Output>,
}

/// What a host is to do.
#[derive(Drop)]
pub struct HostJob {
    /// The lines of all clients, as they stand in the script.
    pub clients: List<ClientLine>,
    /// The workers, as they stand in the script.
    pub workers: List<WorkerLine>,
    /// How many steps are to follow once all lines of clients came.
    pub goal: u32,
}
