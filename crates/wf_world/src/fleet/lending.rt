//! What a fleet lends.
ghost use Rattle.std.specs.Prelude.{◌≡◌, ◌↔◌, slice_get, None, IfSome};
ghost use Rattle.wf_world.specs.Sounds.{hist_of};
ghost use Rattle.wf_world.specs.Fleets.{units_of};

use crate::fleet::Fleet;
use crate::mail::Sent;
use wf_model::{List, UnitId};
use wf_steps::History;

impl Fleet {
    /// Every message that was ever sent, in the order of their numbers. Takes no memory.
    pub fn messages(&self) -> &List<Sent>
        ensures { result.now ≡ self.now.messages }
    {
        self.mail.messages()
    }

    /// The history of a unit that stands for sure; none exactly if there is no such unit. Takes no memory.
    pub fn history(&self, unit: UnitId) -> Option<&History>
        ensures past { IfSome result (λ history. history.now.past ≡ hist_of (units_of self.now.slots) unit.0) }
        ensures none { (result ≡ None) ↔ (slice_get self.now.slots unit.0 ≡ None) }
    {
        match self.slots.get(unit.0 as usize) {
            Some(slot) => Some(slot.history()),
            None => None,
        }
    }
}
