//! The raised events, from a bit for each event.
ghost use Rattle.std.specs.Prelude.{◌≡◌, ◌≤◌, ◌^◌, length, IfOk};
ghost use Rattle.wf_effects.specs.Performing.{events_of};

use std::alloc::Global;
use wf_model::{EventId, List, NoMemory};

/// The events at whose numbers `bits` has `true`, ascending.
pub fn events(alloc: Global, bits: &[bool]) -> Result<List<EventId>, NoMemory>
    requires { length bits.now ≤ 2 ^ 32 }
    ensures { IfOk result (λ events. events ≡ events_of bits.now) }
{
    let mut events = List::new(alloc);
    for (e, is_raised) in bits.iter().enumerate() {
        if *is_raised {
            events.push(EventId(e as u32))?;
        }
    }
    Ok(events)
}
