//! The actions of the fired transitions.
ghost use Rattle.std.specs.Prelude.{◌≡◌, ◌<◌, length, All, IfOk};
ghost use Rattle.wf_model.specs.Accepted.{IsAccepted};
ghost use Rattle.wf_semantics.specs.Effects.{after_fired, raised_by, starts_of};
ghost use Rattle.wf_semantics.specs.Shown.{Shows, HasSorts};
ghost use Rattle.wf_effects.specs.Numbers.{numbers};

use crate::Effects;
use crate::gathered::Gathered;
use crate::raised::events;
use std::alloc::Global;
use wf_expr::Snapshot;
use wf_model::{Chart, NoMemory, TransId, Val};

/// The effects of these transitions, in this order. `snap` shows the values as the step begins, and each assigned value is
/// one over `snap`. `store` is what the outputs of completions left; the assignments are written into a copy of it, in
/// order, so that a later one stays. An assignment whose value is a fault writes nothing and raises event 0.
///
/// `NoMemory` is the only refusal.
///
/// In linear time in the actions of the transitions and the nodes of their expressions, in the variables and in the events.
pub fn effects<S: Snapshot>(
    alloc: Global,
    chart: &Chart,
    snap: &S,
    store: &[Val],
    fired: &[TransId],
) -> Result<Effects, NoMemory>
    requires accepted { IsAccepted chart.now }
    requires shows { Shows chart.now (S.seen snap.now) }
    requires sorts { HasSorts chart.now store.now }
    requires known { All (λ t. t.0 < length chart.now.transitions) fired.now }
    ensures store { IfOk result (λ e. e.store ≡ after_fired chart.now (S.seen snap.now) (numbers fired.now) store.now) }
    ensures raised { IfOk result (λ e. e.raised ≡ raised_by chart.now (S.seen snap.now) (numbers fired.now)) }
    ensures starts { IfOk result (λ e. e.starts ≡ starts_of chart.now (numbers fired.now)) }
    ensures sorts { IfOk result (λ e. HasSorts chart.now e.store) }
{
    let mut gathered = Gathered::new(alloc, store, chart.events.len())?;
    gathered.fire_all(chart, snap, fired)?;
    let Gathered {
        store,
        raised,
        starts,
    } = gathered;
    let raised = events(alloc, raised.as_slice())?;
    Ok(Effects {
        store,
        raised,
        starts,
    })
}
