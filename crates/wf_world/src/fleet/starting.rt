//! How a fleet starts.
ghost use Rattle.std.specs.Prelude.{◌≡◌, length, IfOk};
ghost use Rattle.wf_machine.specs.Machine.{first_machine};
ghost use Rattle.wf_world.specs.Fleets.{IsFleet, machine_at, AreWorn, AreNew};

use crate::Mail;
use crate::fleet::Fleet;
use std::alloc::Global;
use wf_model::{Checked, NoMemory, UnitId};
use wf_ortho::orthogonalise;
use wf_partition::part_of;
use wf_slot::Slot;

// A new slot for each unit.
fn new_slots(alloc: Global, checked: &Checked) -> Result<Vec<Slot>, NoMemory>
    ensures count { IfOk result (λ slots. length slots.items ≡ length checked.now.units) }
    ensures new { IfOk result (λ slots. AreNew checked.now slots.items) }
{
    let flat = orthogonalise(alloc, checked)?;
    let mut slots = Vec::new(alloc);
    for unit in 0..checked.chart().units.len() {
        let part = part_of(alloc, checked, &flat, UnitId(unit as u32))?;
        slots.push(Slot::start(alloc, part)?)?;
    }
    Ok(slots)
}

impl Fleet {
    /// All units of a chart, up, each on an empty disk, with no message.
    pub fn start(alloc: Global, checked: Checked) -> Result<Fleet, NoMemory>
        ensures chart { IfOk result (λ fleet. fleet.chart ≡ checked) }
        ensures machine { IfOk result (λ fleet. machine_at fleet ≡ first_machine checked) }
        ensures fleet { IfOk result IsFleet }
        ensures wear { IfOk result (λ fleet. AreWorn (λ u. 0) fleet.slots) }
    {
        let _accepted = checked.chart();
        let slots = new_slots(alloc, &checked)?;
        Ok(Fleet {
            checked,
            slots,
            mail: Mail::new(alloc),
            alloc,
        })
    }

    /// The chart, lent. Takes no memory.
    pub fn checked(&self) -> &Checked
        ensures { result.now ≡ self.now.chart }
    {
        &self.checked
    }
}
