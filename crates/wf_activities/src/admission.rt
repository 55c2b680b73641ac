//! The admission rule, part by part.
ghost use Rattle.std.specs.Prelude.{◌≡◌, Ok, Err, if◌then◌else◌};
ghost use Rattle.wf_semantics.specs.Admission.{is_event_at, is_act_at};
ghost use Rattle.wf_activities.specs.Completing.{unless_pending};
ghost use Rattle.wf_model.specs.declared.outer.OuterFault.TheVariants.{WrongUnit};

use wf_model::{ActId, Chart, EventId, OuterFault, UnitId};

/// Whether an event is at a unit.
pub fn is_event_at(chart: &Chart, unit: UnitId, event: EventId) -> bool
    ensures { result ≡ is_event_at chart.now unit.0 event.0 }
{
    match chart.events.get(event.0 as usize) {
        Some(event) => match event.unit {
            Some(at) => at.0 == unit.0,
            None => false,
        },
        None => false,
    }
}

/// Whether a unit may admit an event, or why not.
pub fn admits_event(chart: &Chart, unit: UnitId, event: EventId) -> Result<(), OuterFault>
    ensures { result ≡ (if is_event_at chart.now unit.0 event.0 then Ok tt else Err WrongUnit) }
{
    if is_event_at(chart, unit, event) {
        Ok(())
    } else {
        Err(OuterFault::WrongUnit)
    }
}

/// Whether an activity is at a unit.
pub fn is_act_at(chart: &Chart, unit: UnitId, act: ActId) -> bool
    ensures { result ≡ is_act_at chart.now unit.0 act.0 }
{
    match chart.acts.get(act.0 as usize) {
        Some(activity) => activity.unit.0 == unit.0,
        None => false,
    }
}

/// The answer to a completion, from the answer of its item and from whether that is pending: a pending item counts as closed.
pub fn answer_unless_pending(
    answer: Result<(), OuterFault>,
    pending: bool,
) -> Result<(), OuterFault>
    ensures { result ≡ unless_pending answer pending }
{
    match answer {
        Err(OuterFault::NoItem) => Err(OuterFault::NoItem),
        _ => if pending {
            Err(OuterFault::AlreadyDone)
        } else {
            answer
        },
    }
}
