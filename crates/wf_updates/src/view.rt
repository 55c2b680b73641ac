//! What a unit knows between its steps.
ghost use Rattle.std.specs.Prelude.{◌≡◌, ◌+◌, ◌<◌, ◌^◌, All, IfOk, OnOk, OnErr};
ghost use Rattle.wf_model.specs.Bits.{bit};
ghost use Rattle.wf_views.specs.Views.{first_view, count_now, var_now, open_now, is_inside, is_done_now, is_there_now};
ghost use Rattle.wf_updates.specs.Tables.{entry};
ghost use Rattle.wf_views.specs.Absorbing.{absorbed, start_count, starts_in};

use crate::after::{
    next_after, open_counts_after, raised_after, state_set, states_after, vars_after,
};
use crate::first::{first_states, first_values, none_open};
use crate::now::{counts_now, done_set, there_set, values_now};
use std::alloc::Global;
use std::marker::Model;
use wf_model::{
    ActId, Bits, Duplicate, Entry, EventId, List, NoMemory, Output, StateId, Update, Val,
};
use wf_parts::Part;

/// What a unit knows after its steps so far. Contracts see it as the lists of the definition.
#[derive(Drop)]
pub struct View {
    states: List<StateId>,
    vars: List<Output>,
    raised: List<EventId>,
    unclosed: List<(ActId, u32)>,
    next: List<Entry>,
}

impl Model for View {
    ghost use Rattle.wf_views.specs.Views.{View as Viewed};

    ghost Value = { Viewed };

    ghost view = { λ it. record { states = it.states; vars = it.vars; raised = it.raised; unclosed = it.unclosed; next = it.next } };
}

impl View {
    /// What the unit of this part knows before step 1. In linear time in the part. It refuses only if memory runs out.
    pub fn first(alloc: Global, part: &Part) -> Result<View, NoMemory>
        ensures { IfOk result (λ view. view ≡ first_view part.now) }
    {
        let data = part.data();
        let states = first_states(alloc, data.states.as_slice())?;
        let vars = first_values(alloc, data.vars.as_slice())?;
        let unclosed = none_open(alloc, data.acts.as_slice())?;
        Ok(View {
            states,
            vars,
            raised: List::new(alloc),
            unclosed,
            next: List::new(alloc),
        })
    }

    /// Takes in a step, by one update of each unit in unit order: the states that flipped, the values of the outputs of this step and
    /// of the writes that stay, the events that the step raised, the items done and started, and the entries of the next step.
    /// What the part doesn't know is passed over. No count may pass 32 bits. It refuses only if memory runs out, and then the
    /// view is as before.
    ///
    /// In linear time in the part, the view and what the updates hold, and in the greatest number of a state and of an event that the
    /// part knows, and of a variable and of an activity that the view has.
    pub fn absorb(&mut self, alloc: Global, part: &Part, all: &[Update]) -> Result<(), NoMemory>
        requires { All (λ a. count_now self.old a + start_count a.0.0 (starts_in all.now) < 2 ^ 32) self.old.unclosed }
        ensures ok { OnOk result (self.new ≡ absorbed part.now self.old all.now) }
        ensures err { OnErr result (self.new ≡ self.old) }
    {
        *self = self.after(alloc, part, all)?;
        Ok(())
    }

    /// The view after a step, as `absorb` takes it in. No count may pass 32 bits. It refuses only if memory runs out. It takes as long as
    /// `absorb`.
    pub fn after(&self, alloc: Global, part: &Part, all: &[Update]) -> Result<View, NoMemory>
        requires { All (λ a. count_now self.now a + start_count a.0.0 (starts_in all.now) < 2 ^ 32) self.now.unclosed }
        ensures { IfOk result (λ view. view ≡ absorbed part.now self.now all.now) }
    {
        let data = part.data();
        let before = self.next.as_slice();
        let states = states_after(alloc, data.states.as_slice(), self.states.as_slice(), all)?;
        let vars = vars_after(alloc, self.vars.as_slice(), before, all)?;
        let raised = raised_after(alloc, data.events.as_slice(), all)?;
        let unclosed = open_counts_after(alloc, self.unclosed.as_slice(), before, all)?;
        let next = next_after(alloc, all, data)?;
        Ok(View {
            states,
            vars,
            raised,
            unclosed,
            next,
        })
    }

    /// An equal view. In linear time. It refuses only if memory runs out.
    pub fn copy(&self, alloc: Global) -> Result<View, NoMemory>
        ensures { IfOk result (λ copy. copy ≡ self.now) }
    {
        let states = List::from_slice(alloc, self.states.as_slice())?;
        let vars = List::from_slice(alloc, self.vars.as_slice())?;
        let raised = List::from_slice(alloc, self.raised.as_slice())?;
        let unclosed = List::from_slice(alloc, self.unclosed.as_slice())?;
        let next = self.next.copy(alloc)?;
        Ok(View {
            states,
            vars,
            raised,
            unclosed,
            next,
        })
    }

    /// The states that are in.
    pub fn states(&self) -> &[StateId]
        ensures { result.now ≡ self.now.states }
    {
        self.states.as_slice()
    }

    /// The variables with their values, before the outputs of the next step.
    pub fn vars(&self) -> &[Output]
        ensures { result.now ≡ self.now.vars }
    {
        self.vars.as_slice()
    }

    /// The events that were raised in the last step.
    pub fn raised(&self) -> &[EventId]
        ensures { result.now ≡ self.now.raised }
    {
        self.raised.as_slice()
    }

    /// The activities, each with how many of its items are open, before the completions of the next step.
    pub fn open_counts(&self) -> &[(ActId, u32)]
        ensures { result.now ≡ self.now.unclosed }
    {
        self.unclosed.as_slice()
    }

    /// The entries of the next step, as far as they are known.
    pub fn next_entries(&self) -> &[Entry]
        ensures { result.now ≡ self.now.next }
    {
        self.next.as_slice()
    }

    /// A table of the states that are in. In linear time in them and in the greatest of their numbers, and then each is read in constant time.
    pub fn states_inside(&self, alloc: Global) -> Result<Bits, NoMemory>
        ensures { IfOk result (λ bits. bit bits ≡ is_inside self.now) }
    {
        state_set(alloc, self.states.as_slice())
    }

    /// A table of the values of the variables, as the next step sees them: once its outputs came. In linear time in the view and in the
    /// greatest number of its variables, and then each is read in constant time.
    pub fn vars_now(&self, alloc: Global) -> Result<List<Option<Val>>, NoMemory>
        ensures { IfOk result (λ table. entry table ≡ var_now self.now) }
    {
        values_now(alloc, self.vars.as_slice(), self.next.as_slice())
    }

    /// A table of the counts of open items, as the next step sees them: once its completions came. In linear time in the view and
    /// in the greatest number of its activities, and then each is read in constant time.
    pub fn open_counts_now(&self, alloc: Global) -> Result<List<Option<u32>>, NoMemory>
        ensures { IfOk result (λ table. entry table ≡ open_now self.now) }
    {
        counts_now(alloc, self.unclosed.as_slice(), self.next.as_slice())
    }

    /// A table of the activities of which the next step completes an item. In linear time in its entries and in the greatest number of
    /// these activities, and then each is read in constant time.
    pub fn done_acts_now(&self, alloc: Global) -> Result<Bits, NoMemory>
        ensures { IfOk result (λ bits. bit bits ≡ is_done_now self.now) }
    {
        done_set(alloc, self.next.as_slice())
    }

    /// A table of the events that are there in the next step: raised in the last one, or happening. In linear time in these and in the
    /// greatest of their numbers, and then each is read in constant time.
    pub fn events_there_now(&self, alloc: Global) -> Result<Bits, NoMemory>
        ensures { IfOk result (λ bits. bit bits ≡ is_there_now self.now) }
    {
        there_set(alloc, self.raised.as_slice(), self.next.as_slice())
    }
}
