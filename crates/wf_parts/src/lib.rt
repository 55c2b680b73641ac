//! A chart cut into components, and what each unit is given of it: definitions, the types that hold
//! it, and laws. A `Part` is sealed: it is the part of a unit of an accepted chart, and keeps what
//! blocks its transitions as sets too, which are made once.
//!
//! - Promises: from a configuration the step on components fires the same transitions as the step,
//!   and leaves the same states in. A unit's own transitions concern it, and so does what blocks
//!   one that concerns it. The laws have nothing to do.
//! - Doesn't say: that a part is the least with which a unit can take its steps.
//! - A caller: `wf_partition::part_of` seals what it made as a `Part`.
//! - A change of what a unit is given begins in `specs/Known.antt`, `specs/Peers.antt` and
//!   `specs/Parts.antt`.
#![tactic(auto)]

mod data;
mod laws;
mod part;
mod rows;

pub use data::{
    Component, Flat, Known, KnownActivity, KnownEvent, KnownState, KnownVariable, PartData,
    PartTransition,
};
pub use laws::{blockers_concern, flat_step, own_concerns};
pub use part::Part;
pub use rows::Rows;
