//! What is gathered from the actions of the fired transitions, one after another.
ghost use Rattle.std.specs.Prelude.{◌≡◌, ◌<◌, ◌≤◌, ◌+◌, ◌^◌, ℕ, length, All, IfOk, OnOk, OnErr};
ghost use Rattle.wf_model.specs.Accepted.{IsAccepted};
ghost use Rattle.wf_semantics.specs.Effects.{actions_of};
ghost use Rattle.wf_semantics.specs.Shown.{Shows};
ghost use Rattle.wf_effects.specs.Performing.{nothing_yet, performed, performed_all, fired_all, CanPerform};
ghost use Rattle.wf_effects.specs.Numbers.{numbers};

use std::alloc::Global;
use wf_expr::{Snapshot, value};
use wf_model::{Action, Chart, List, NoMemory, StartAt, TransId, Val};

/// What the actions so far have done.
#[derive(Drop)]
pub struct Gathered {
    pub store: List<Val>,
    /// For each event, whether it is raised.
    pub raised: List<bool>,
    pub starts: List<StartAt>,
}

impl Gathered {
    /// This store, of so many events none raised, and nothing started.
    pub fn new(alloc: Global, store: &[Val], events: usize) -> Result<Gathered, NoMemory>
        ensures { IfOk result (λ g. g ≡ nothing_yet store.now events) }
    {
        let store = List::from_slice(alloc, store)?;
        let raised = List::from_vec(vec![in alloc; false; events]?);
        Ok(Gathered {
            store,
            raised,
            starts: List::new(alloc),
        })
    }

    /// Performs one action of a transition. After `NoMemory` it is as before.
    pub fn perform<S: Snapshot>(
        &mut self,
        snap: &S,
        trans: TransId,
        place: u8,
        action: &Action,
    ) -> Result<(), NoMemory>
        requires { CanPerform (S.seen snap.now) (length self.old.store) (length self.old.raised) action.now }
        ensures ok { OnOk result (self.new ≡ performed (S.seen snap.now) trans.0 place action.now self.old) }
        ensures err { OnErr result (self.new ≡ self.old) }
    {
        match action {
            Action::Assign(x, expr) => match value(expr, snap) {
                Ok(val) => self.store.set(x.0 as usize, val),
                Err(_) => self.raised.set(0, true),
            },
            Action::Raise(event) => self.raised.set(event.0 as usize, true),
            Action::Start(act) => {
                self.starts.push(StartAt {
                    act: *act,
                    trans,
                    place,
                })?;
            }
        }
        Ok(())
    }

    /// Performs the actions of a transition in order. After `NoMemory` some of them may have been performed.
    pub fn perform_all<S: Snapshot>(
        &mut self,
        snap: &S,
        trans: TransId,
        actions: &[Action],
    ) -> Result<(), NoMemory>
        requires few { length actions.now < 2 ^ 8 }
        requires can { All (CanPerform (S.seen snap.now) (length self.old.store) (length self.old.raised)) actions.now }
        ensures { OnOk result (self.new ≡ performed_all (S.seen snap.now) trans.0 0 actions.now self.old) }
    {
        for (place, action) in actions.iter().enumerate() {
            self.perform(snap, trans, place as u8, action)?;
        }
        Ok(())
    }

    /// Performs the actions of a transition of the chart. After `NoMemory` some of them may have been performed.
    pub fn fire<S: Snapshot>(
        &mut self,
        chart: &Chart,
        snap: &S,
        trans: TransId,
    ) -> Result<(), NoMemory>
        requires accepted { IsAccepted chart.now }
        requires shows { Shows chart.now (S.seen snap.now) }
        requires in_range { trans.0 < length chart.now.transitions }
        requires vars { length self.old.store ≡ length chart.now.vars }
        requires events { length self.old.raised ≡ length chart.now.events }
        ensures { OnOk result (self.new ≡ performed_all (S.seen snap.now) trans.0 0 (actions_of chart.now trans.0) self.old) }
    {
        let transition = &chart.transitions.as_slice()[trans.0 as usize];
        self.perform_all(snap, trans, transition.actions.as_slice())
    }

    /// Performs the actions of these transitions in order. After `NoMemory` some of them may have been performed.
    pub fn fire_all<S: Snapshot>(
        &mut self,
        chart: &Chart,
        snap: &S,
        fired: &[TransId],
    ) -> Result<(), NoMemory>
        requires accepted { IsAccepted chart.now }
        requires shows { Shows chart.now (S.seen snap.now) }
        requires known { All (λ t. t.0 < length chart.now.transitions) fired.now }
        requires vars { length self.old.store ≡ length chart.now.vars }
        requires events { length self.old.raised ≡ length chart.now.events }
        ensures { OnOk result (self.new ≡ fired_all chart.now (S.seen snap.now) (numbers fired.now) self.old) }
    {
        for trans in fired {
            self.fire(chart, snap, *trans)?;
        }
        Ok(())
    }
}
