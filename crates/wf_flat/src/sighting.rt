//! What a unit's step sees of its view.
ghost use Rattle.std.specs.Prelude.{◌≡◌, IfOk};
ghost use Rattle.wf_semantics.specs.Snapshot.{is_active};
ghost use Rattle.wf_views.specs.Views.{sees};
ghost use Rattle.wf_flat.specs.Sighted.{shown_by};

use std::alloc::Global;
use wf_expr::Snapshot;
use wf_model::{ActId, Bits, List, NoMemory, StateId, Val, VarId};
use wf_parts::PartData;
use wf_updates::{View, entry_at, known_state_set};

/// What a step of a unit sees, as tables by number: the states that the part knows and those that are in, and, once the entries of
/// the step came, the values of the variables, the counts of open items, the activities with an item completed, and the events that
/// are there.
#[derive(Drop)]
pub struct Sighting {
    pub known: Bits,
    pub inside: Bits,
    pub vars: List<Option<Val>>,
    pub unclosed: List<Option<u32>>,
    pub done: Bits,
    pub there: Bits,
}

impl Sighting {
    /// What the next step sees of this view by this part. In linear time in the part's states and in the view, and in the greatest of
    /// their numbers.
    pub fn of(alloc: Global, part: &PartData, view: &View) -> Result<Sighting, NoMemory>
        ensures { IfOk result (λ it. shown_by it ≡ sees part.now view.now) }
    {
        let known = known_state_set(alloc, part.states.as_slice())?;
        let inside = view.states_inside(alloc)?;
        let vars = view.vars_now(alloc)?;
        let unclosed = view.open_counts_now(alloc)?;
        let done = view.done_acts_now(alloc)?;
        let there = view.events_there_now(alloc)?;
        Ok(Sighting {
            known,
            inside,
            vars,
            unclosed,
            done,
            there,
        })
    }

    /// Whether the state is known and in.
    pub fn is_active(&self, s: StateId) -> bool
        ensures { result ≡ is_active (shown_by self.now).seen s.0 }
    {
        let at = s.0 as usize;
        self.known.has(at) && self.inside.has(at)
    }
}

impl Snapshot for Sighting {
    ghost use Rattle.wf_flat.specs.Sights.{seen_by};

    ghost seen = { λ it. seen_by it.known it.inside it.vars it.unclosed it.done };

    fn is_in(&self, s: StateId) -> bool {
        self.inside.has(s.0 as usize)
    }

    fn var(&self, v: VarId) -> Val {
        match entry_at(&self.vars, v.0) {
            Some(val) => val,
            None => Val::Bool(false),
        }
    }

    fn count(&self, a: ActId) -> u32 {
        match entry_at(&self.unclosed, a.0) {
            Some(count) => count,
            None => 0,
        }
    }

    fn done(&self, a: ActId) -> bool {
        self.done.has(a.0 as usize)
    }
}
