//! What a unit's transitions do beside moving as they fire.
ghost use Rattle.std.specs.Prelude.{◌≡◌, ◌++◌, ◌∷◌, List as Listed, ◌<◌, ◌^◌, ◌&&◌, [], All, Bool, IfOk, OnOk, filter, length, map};
ghost use Rattle.wf_model.specs.Bits.{bit};
ghost use Rattle.wf_parts.specs.declared.data.PartTransition.{PartTransition as AnyTransition};
ghost use Rattle.wf_flat.specs.Firing.{CanPerform, CanFire};
ghost use Rattle.wf_flat.specs.Gathering.{performed, gathered_of, ascending};
ghost use Rattle.wf_flat.specs.Sighted.{shown_by};

use crate::firing::flag_at;
use crate::sighting::Sighting;
use std::alloc::Global;
use wf_expr::outcome;
use wf_model::limits::MAX_EVENTS;
use wf_model::{Action, EventId, List, NoMemory, StartAt, TransId, Write};
use wf_parts::PartTransition;
use wf_updates::event_set;

/// What the transitions so far did, in order: their writes, the events that they raised, their starts, and their numbers.
#[derive(Drop)]
pub struct Gathered {
    pub writes: List<Write>,
    pub raised: List<EventId>,
    pub starts: List<StartAt>,
    pub fired: List<TransId>,
}

// Whether a transition is the unit's own and fires.
fn acts(trans: &PartTransition, fires: bool) -> bool
    ensures { result ≡ (trans.now.own && fires) }
{
    trans.own && fires
}

impl Gathered {
    // Nothing was done.
    fn none(alloc: Global) -> Gathered
        ensures { result ≡ record { writes = []; raised = []; starts = []; fired = [] } }
    {
        Gathered {
            writes: List::new(alloc),
            raised: List::new(alloc),
            starts: List::new(alloc),
            fired: List::new(alloc),
        }
    }

    // Performs an action of a transition. An assigned value that is a fault writes nothing and raises event 0.
    fn perform(
        &mut self,
        sight: &Sighting,
        trans: TransId,
        place: u8,
        action: &Action,
    ) -> Result<(), NoMemory>
        requires { CanPerform (shown_by sight.now).seen action.now }
        ensures { OnOk result (self.new ≡ performed (shown_by sight.now).seen trans.0 place (action.now ∷ []) self.old) }
    {
        match action {
            Action::Assign(var, value) => match outcome(value, sight) {
                Ok(val) => self.writes.push(Write {
                    var: *var,
                    trans,
                    val,
                })?,
                Err(_) => self.raised.push(EventId(0))?,
            },
            Action::Raise(event) => self.raised.push(*event)?,
            Action::Start(act) => self.starts.push(StartAt {
                act: *act,
                trans,
                place,
            })?,
        }
        Ok(())
    }

    // Performs the actions of a transition in order.
    fn perform_all(
        &mut self,
        sight: &Sighting,
        trans: TransId,
        actions: &[Action],
    ) -> Result<(), NoMemory>
        requires few { length actions.now < 2 ^ 8 }
        requires can { All (CanPerform (shown_by sight.now).seen) actions.now }
        ensures { OnOk result (self.new ≡ performed (shown_by sight.now).seen trans.0 0 actions.now self.old) }
    {
        for (place, action) in actions.iter().enumerate() {
            self.perform(sight, trans, place as u8, action)?;
        }
        Ok(())
    }

    // Lets a transition fire.
    fn fire(&mut self, sight: &Sighting, trans: &PartTransition) -> Result<(), NoMemory>
        requires { CanFire (shown_by sight.now).seen trans.now }
        ensures { OnOk result ((before : Listed AnyTransition) → self.old ≡ gathered_of (shown_by sight.now).seen before → self.new ≡ gathered_of (shown_by sight.now).seen (before ++ trans.now ∷ [])) }
    {
        self.fired.push(trans.id)?;
        self.perform_all(sight, trans.id, trans.actions.as_slice())
    }

    /// What the own ones among these transitions do that fire, by their places. In linear time in the transitions, and in the actions and
    /// the nodes of the values of those that fire.
    pub fn of(
        alloc: Global,
        sight: &Sighting,
        transitions: &[PartTransition],
        fires: &[bool],
    ) -> Result<Gathered, NoMemory>
        requires { All (CanFire (shown_by sight.now).seen) transitions.now }
        ensures { (test : AnyTransition → Bool) → fires.now ≡ map test transitions.now → IfOk result (λ it. it ≡ gathered_of (shown_by sight.now).seen (filter (λ trans. trans.own && test trans) transitions.now)) }
    {
        let mut gathered = Gathered::none(alloc);
        for (at, trans) in transitions.iter().enumerate() {
            if acts(trans, flag_at(fires, at)) {
                gathered.fire(sight, trans)?;
            }
        }
        Ok(gathered)
    }
}

/// These events, each once, ascending. In linear time in them and in how many events a chart may have, if there are any.
pub fn ascending_events(alloc: Global, raised: &[EventId]) -> Result<List<EventId>, NoMemory>
    ensures { IfOk result (λ events. events ≡ ascending raised.now) }
{
    if raised.is_empty() {
        return Ok(List::new(alloc));
    }
    let set = event_set(alloc, raised)?;
    let mut events = List::new(alloc);
    for e in 0..MAX_EVENTS {
        if set.has(e) {
            events.push(EventId(e as u32))?;
        }
    }
    Ok(events)
}
