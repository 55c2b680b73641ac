//! How a fleet ends.
ghost use Rattle.std.specs.Prelude.{◌≡◌, ◌++◌, ◌<◌, ◌≤◌, ◌+◌, ℕ, length, map, IfOk, OnOk};
ghost use Rattle.wf_model.specs.Limits.{max_lines};
ghost use Rattle.wf_model.specs.Faults.{last_count};
ghost use Rattle.wf_machine.specs.Machine.{all_units, merged_places};
ghost use Rattle.wf_machine.specs.Sights.{sight_of};
ghost use Rattle.wf_machine.specs.Runs.{is_lost, recovery_of, MayEnd};
ghost use Rattle.wf_slot.specs.Slots.{server};
ghost use Rattle.wf_world.specs.Fleets.{IsFleet, machine_at, slot_at, AreWorn, WearsNone, DoWork, EndsOne, counted_by, IsEnding};

use crate::fleet::Fleet;
use wf_machine::{Ending, Place, Sight};
use wf_model::{List, NoMemory, UnitId};
use wf_projection::{places_by_turn, places_in_order};

// Adds the counts of a unit, if there are any.
fn add_counts(
    recovered: &mut List<(UnitId, u32, u64)>,
    unit: UnitId,
    counts: Option<(u32, u64)>,
) -> Result<(), NoMemory>
    ensures { OnOk result (recovered.new ≡ recovered.old ++ counted_by unit counts) }
{
    match counts {
        Some((taken, admitted)) => recovered.push((unit, taken, admitted)),
        None => Ok(()),
    }
}

impl Fleet {
    // The end of one unit. Its counts are added if it was lost.
    fn finish_unit(
        &mut self,
        unit: UnitId,
        recovered: &mut List<(UnitId, u32, u64)>,
    ) -> Result<(), NoMemory>
        requires fleet { IsFleet self.old }
        requires unit { unit.0 < length self.old.chart.units }
        requires early { (slot_at self.old unit.0).clock + 2000 ≤ last_count }
        ensures ended { OnOk result (EndsOne self.old unit.0 self.new) }
        ensures counts { OnOk result (recovered.new ≡ recovered.old ++ recovery_of (is_lost (slot_at self.old unit.0).health) unit.0 (server (slot_at self.new unit.0))) }
    {
        let counts = self.slots[unit.0 as usize].finish()?;
        add_counts(recovered, unit, counts)
    }

    // The ends of all units, with the counts of those that were lost.
    fn finish_all(&mut self) -> Result<List<(UnitId, u32, u64)>, NoMemory>
        requires fleet { IsFleet self.old }
        requires worn { (n : ℕ) × (n ≤ max_lines) × AreWorn (λ u. n) self.old.slots }
        ensures { IfOk result (λ recovered. IsEnding self.old self.new (length self.old.slots) recovered) }
    {
        let mut recovered = List::new(self.alloc);
        for unit in 0..self.slots.len() {
            self.finish_unit(UnitId(unit as u32), &mut recovered)?;
        }
        Ok(recovered)
    }

    // What a unit that works shows.
    fn sight(&self, unit: UnitId) -> Result<Sight, NoMemory>
        requires fleet { IsFleet self.now }
        requires unit { unit.0 < length self.now.chart.units }
        requires works { DoWork self.now.slots }
        ensures { IfOk result (λ sight. sight ≡ sight_of self.now.chart (machine_at self.now) unit.0) }
    {
        match self.slots[unit.0 as usize].show()? {
            Some(sight) => Ok(sight),
            // Only a unit that is down shows nothing, and all work.
            None => unreachable!(),
        }
    }

    // What each unit shows.
    fn sights(&self) -> Result<List<Sight>, NoMemory>
        requires fleet { IsFleet self.now }
        requires works { DoWork self.now.slots }
        ensures { IfOk result (λ sights. sights ≡ map (sight_of self.now.chart (machine_at self.now)) (all_units (machine_at self.now))) }
    {
        let mut sights = List::new(self.alloc);
        for unit in 0..self.slots.len() {
            sights.push(self.sight(UnitId(unit as u32))?)?;
        }
        Ok(sights)
    }

    // The merged list of all units.
    fn merged_list(&self) -> Result<List<List<Place>>, NoMemory>
        requires fleet { IsFleet self.now }
        ensures { IfOk result (λ merged. merged ≡ merged_places (machine_at self.now)) }
    {
        let mut units = List::new(self.alloc);
        for unit in 0..self.slots.len() {
            let history = self.slots[unit].history();
            units.push(places_by_turn(self.alloc, UnitId(unit as u32), history)?)?;
        }
        places_in_order(self.alloc, units.as_slice())
    }

    /// Removes all arms, recovers each unit that was lost, and tells the ending.
    pub fn finish(&mut self) -> Result<Ending, NoMemory>
        requires fleet { IsFleet self.old }
        requires worn { (n : ℕ) × (n ≤ max_lines) × AreWorn (λ u. n) self.old.slots }
        ensures ended { IfOk result (λ ending. MayEnd self.old.chart (machine_at self.old) ending (machine_at self.new)) }
        ensures chart { IfOk result (λ _. self.new.chart ≡ self.old.chart) }
        ensures fleet { IfOk result (λ _. IsFleet self.new) }
        ensures wear { IfOk result (λ _. WearsNone self.old self.new) }
    {
        let recovered = self.finish_all()?;
        let sights = self.sights()?;
        let merged = self.merged_list()?;
        Ok(Ending {
            recovered,
            sights,
            merged,
        })
    }
}
