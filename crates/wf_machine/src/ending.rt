//! How a play ends.
use crate::{Place, Sight};
use wf_model::{List, UnitId};

/// What servers tell after the last line of a play, each list in order of units or of steps.
#[derive(Drop)]
pub struct Ending {
    /// The units that were down or had to be reopened, each with how many steps it has taken and how many admissions
    /// it has.
    pub recovered: List<(UnitId, u32, u64)>,
    /// What each unit shows.
    pub sights: List<Sight>,
    /// The places of the admissions of each step, from step 1 to the least taken count and two.
    pub merged: List<List<Place>>,
}
