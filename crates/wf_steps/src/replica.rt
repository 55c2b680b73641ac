//! A unit without its disk.
ghost use Rattle.std.specs.Prelude.{◌≡◌, ◌≤◌, ◌<◌, ◌+◌, ◌^◌, [], suc, length, drop, sum, IfOk, IfErr, OnOk};
ghost use Rattle.wf_model.specs.Limits.{max_steps};
ghost use Rattle.wf_model.specs.declared.outer.Outer.TheVariants.{Complete};
ghost use Rattle.wf_codec.specs.Bodies.{IsBodyOf};
ghost use Rattle.wf_codec.specs.declared.record.JournalRecord.TheVariants.{Admit, Turn};
ghost use Rattle.wf_views.specs.Views.{first_view};
ghost use Rattle.wf_views.specs.OwnSteps.{own_update};
ghost use Rattle.wf_histories.specs.Histories.{no_update, seals, taken, local, local_update};
ghost use Rattle.wf_worlds.specs.Admitting.{lets_in};
ghost use Rattle.wf_worlds.specs.Growing.{admitted, turned};
ghost use Rattle.wf_worlds.specs.Worlds.{first_history};
ghost use Rattle.wf_steps.specs.Items.{own_acts, items_of, item_steps};
ghost use Rattle.wf_worlds.specs.Ends.{IsShort, longest_turn};
ghost use Rattle.wf_steps.specs.Growing.{place_of, sealing, MayAdmit, MayTurn, IsMade};
ghost use Rattle.wf_steps.specs.Replicas.{prepared_of, closed_by, MayClose};

use crate::bodies::{outer_is_short, turn_is_short};
use crate::preparing::{first_outers, listed_starts, with_own};
use crate::rule::{is_own_act, lets_event, own_acts, wanted_by};
use crate::{Admission, History, Prepared, TurnDone};
use std::alloc::Global;
use std::collections::HashMap;
use std::marker::Model;
use std::mem::replace;
use wf_activities::Items;
use wf_codec::{encode_admit, encode_turn};
use wf_flat::own_step;
use wf_model::limits::MAX_SEALED;
use wf_model::{ActId, Bytes, List, NoMemory, Outer, OuterFault, Output, UnitId, Update};
use wf_parts::Part;
use wf_updates::View;

/// No memory for a unit; its part is given back.
#[derive(Drop)]
pub struct ReplicaRefused {
    pub part: Part,
}

/// A unit without its disk: its part, its history, and what it makes of them. Contracts see part and history, with the room that there
/// is, since all else follows.
#[derive(Drop)]
pub struct Replica {
    part: Part,
    /// The unit's activities.
    acts: List<ActId>,
    history: History,
    view: View,
    items: Items,
    /// The own update of the last step taken.
    last: Update,
    /// The own update of the next step.
    next: Update,
    /// How many admissions are sealed.
    sealed: usize,
    /// The place of each request's admission.
    index: HashMap<u64, usize>,
}

impl Model for Replica {
    ghost use Rattle.std.specs.Prelude.{min, nat_eq};
    ghost use Rattle.std.specs.HashMap.{get, spare};
    ghost use Rattle.wf_steps.specs.Room.{Replicated};
    ghost use Rattle.wf_model.specs.contracts.expr.Expr as e;
    ghost use Rattle.std.specs.Coded.{codes};

    ghost Value = { Replicated };

    ghost coded = { Prim.hlevel (codes, e.the_row.coded) };

    ghost use Rattle.wf_steps.specs.Replicas.{IsReplica};

    ghost view = { λ r. record { part = r.part; past = r.history.past; admit_room = min r.history.admit_room (spare r.index); turn_room = r.history.turn_room; item_room = r.items.room } };

    ghost invariant = { λ r. IsReplica r.part r.acts r.history.past r.view r.items r.last r.next r.sealed (get nat_eq r.index) };
}

/// The empty update of step 0. Takes no memory.
pub fn no_update(alloc: Global, unit: UnitId) -> Update
    ensures { result ≡ no_update unit }
{
    Update {
        from: unit,
        step: 0,
        flips: List::new(alloc),
        writes: List::new(alloc),
        raised: List::new(alloc),
        starts: List::new(alloc),
        fired: List::new(alloc),
        outer: List::new(alloc),
    }
}

// What a unit keeps before its first record.
#[derive(Drop)]
struct First {
    acts: List<ActId>,
    view: View,
    next: Update,
}

fn first_of(alloc: Global, part: &Part) -> Result<First, NoMemory>
    ensures acts { IfOk result (λ first. first.acts ≡ own_acts part.now) }
    ensures view { IfOk result (λ first. first.view ≡ first_view part.now) }
    ensures next { IfOk result (λ first. first.next ≡ own_update part.now 1 (first_view part.now) []) }
{
    let acts = own_acts(alloc, part.data())?;
    let view = View::first(alloc, part)?;
    let next = own_step(alloc, part, &view, 1, List::new(alloc))?;
    Ok(First { acts, view, next })
}

impl Replica {
    /// A unit before its first record. It refuses only if memory runs out.
    pub fn new(alloc: Global, part: Part) -> Result<Replica, ReplicaRefused>
        ensures part { IfOk result (λ r. r.part ≡ part) }
        ensures past { IfOk result (λ r. r.past ≡ first_history part.unit.0) }
        ensures refused { IfErr result (λ refused. refused.part ≡ part) }
    {
        match first_of(alloc, &part) {
            Ok(First { acts, view, next }) => {
                let unit = part.data().unit;
                Ok(Replica {
                    part,
                    acts,
                    history: History::new(alloc, unit),
                    view,
                    items: Items::new(alloc, unit),
                    last: no_update(alloc, unit),
                    next,
                    sealed: 0,
                    index: HashMap::new(alloc),
                })
            }
            Err(NoMemory) => Err(ReplicaRefused { part }),
        }
    }

    /// The part, lent.
    pub fn part(&self) -> &Part
        ensures { result.now ≡ self.now.part }
    {
        &self.part
    }

    /// The history, lent: some records make it, each of which may follow those before it.
    pub fn history(&self) -> &History
        ensures past { result.now.past ≡ self.now.past }
        ensures made { IsMade self.now.part self.now.past }
    {
        &self.history
    }

    /// The view after all Turns.
    pub fn view(&self) -> &View
        ensures { result.now ≡ local self.now.part self.now.past (taken self.now.past) }
    {
        &self.view
    }

    /// The unit's items, of which those are closed that an admission completes. There are fewer than 2^32.
    pub fn items(&self) -> &Items
        ensures items { result.now.items ≡ items_of self.now.part self.now.past }
        ensures steps { result.now.steps ≡ item_steps self.now.part self.now.past (taken self.now.past) }
        ensures few { length result.now.items < 2 ^ 32 }
    {
        let _part = self.part.data();
        &self.items
    }

    /// The own update of the step taken last; that of step 0 is empty.
    pub fn last_update(&self) -> &Update
        ensures { result.now ≡ local_update self.now.part self.now.past (taken self.now.past) }
    {
        &self.last
    }

    /// The own update of the next step.
    pub fn next_update(&self) -> &Update
        ensures { result.now ≡ local_update self.now.part self.now.past (suc (taken self.now.past)) }
    {
        &self.next
    }

    /// How many steps were taken, at most 20,000.
    pub fn taken(&self) -> u32
        ensures taken { result ≡ taken self.now.past }
        ensures few { result ≤ max_steps }
    {
        self.history.turns().len() as u32
    }

    // The admissions that no Turn sealed.
    fn pending_admissions(&self) -> &[Admission]
        ensures { result.now ≡ drop (sum (seals self.now.past)) self.now.past.admissions }
    {
        &self.history.admissions()[self.sealed..]
    }

    /// How many admissions the next Turn seals: all that no Turn sealed, at most 64.
    pub fn next_sealed(&self) -> u32
        ensures { result ≡ sealing self.now.past }
    {
        self.pending_admissions().len().min(MAX_SEALED) as u32
    }

    /// The place of the admission of this request, counted from 0. In constant time on average.
    pub fn find(&self, request: u64) -> Option<usize>
        ensures { result ≡ place_of self.now.past request }
    {
        self.index.get(&request).copied()
    }

    /// Whether the part lets this in: the first refusal that applies. In linear time in the part and the outputs. Takes no memory.
    pub fn lets_in(&self, outer: &Outer) -> Result<(), OuterFault>
        ensures { result ≡ lets_in self.now.part self.now.past outer.now }
    {
        match outer {
            Outer::Happen(event) => lets_event(self.part.data(), *event),
            Outer::Complete { item, act, outputs } => {
                self.lets_completion(*item, *act, outputs.as_slice())
            }
        }
    }

    // Whether the part lets a completion in.
    fn lets_completion(&self, item: u32, act: ActId, outputs: &[Output]) -> Result<(), OuterFault>
        ensures { result ≡ lets_in self.now.part self.now.past (Complete item act outputs.now) }
    {
        let data = self.part.data();
        if !is_own_act(data, act) {
            return Err(OuterFault::WrongUnit);
        }
        self.items
            .may_complete(item, act, outputs, wanted_by(data, act))
    }

    /// Room for one admission more. After `NoMemory` all is as before, with its room.
    pub fn reserve_admit(&mut self) -> Result<(), NoMemory>
        ensures part { self.new.part ≡ self.old.part }
        ensures past { self.new.past ≡ self.old.past }
        ensures room { OnOk result (1 ≤ self.new.admit_room) }
        ensures more { self.old.admit_room ≤ self.new.admit_room }
        ensures turn_room { self.old.turn_room ≤ self.new.turn_room }
        ensures item_room { self.old.item_room ≤ self.new.item_room }
    {
        self.history.reserve(1, 0)?;
        self.index.reserve(1)?;
        Ok(())
    }

    /// The record's body of an admission that may follow; the outer has at most 552 bytes in it. It refuses only if memory runs out.
    pub fn admit_body(&self, alloc: Global, request: u64, outer: &Outer) -> Result<Bytes, NoMemory>
        requires { MayAdmit self.now.part self.now.past (record { request = request; outer = outer.now }) }
        ensures body { IfOk result (IsBodyOf (Admit request outer.now)) }
        ensures short { IfOk result (λ _. IsShort outer.now) }
    {
        let _part = self.part.data();
        let body = encode_admit(alloc, request, outer)?;
        outer_is_short(body.as_slice(), request, outer);
        Ok(body)
    }

    /// Admits what may follow. Of the room for admissions no more is gone than for one. Takes no memory.
    pub fn admit(&mut self, request: u64, outer: Outer)
        requires room { 1 ≤ self.old.admit_room }
        requires may { MayAdmit self.old.part self.old.past (record { request = request; outer = outer }) }
        ensures part { self.new.part ≡ self.old.part }
        ensures past { self.new.past ≡ admitted self.old.past (record { request = request; outer = outer }) }
        ensures admit_room { self.old.admit_room ≤ self.new.admit_room + 1 }
        ensures turn_room { self.new.turn_room ≡ self.old.turn_room }
        ensures item_room { self.new.item_room ≡ self.old.item_room }
    {
        let place = self.history.admissions().len();
        close_item(&mut self.items, &outer);
        let _ = self.index.insert(request, place);
        self.history.admit(request, outer);
    }

    /// Works out the Turn that takes in these updates of the peers. In linear time in the updates, the part and the view, and in what
    /// the order of the starts takes. It refuses only if memory runs out.
    pub fn prepare(&self, alloc: Global, inputs: List<Update>) -> Result<Prepared, NoMemory>
        requires { MayTurn self.now.part self.now.past inputs }
        ensures prepared { IfOk result (λ p. p ≡ prepared_of self.now.part self.now.past inputs) }
        ensures few { IfOk result (λ p. length p.starts < 2 ^ 32) }
    {
        let data = self.part.data();
        let step = self.taken() + 1;
        let sealed = self.next_sealed();
        let all = with_own(alloc, &inputs, data.unit.0 as usize, &self.next)?;
        let starts = listed_starts(alloc, self.acts.as_slice(), all.as_slice())?;
        let view = self.view.after(alloc, &self.part, all.as_slice())?;
        let outers = first_outers(alloc, self.pending_admissions(), sealed as usize)?;
        let next = own_step(alloc, &self.part, &view, step + 1, outers)?;
        Ok(Prepared {
            done: TurnDone {
                step,
                inputs,
                sealed,
            },
            view,
            next,
            starts,
        })
    }

    /// The record's body of a Turn that was worked out, at most 612,424 bytes. It refuses only if memory runs out.
    pub fn turn_body(&self, alloc: Global, prepared: &Prepared) -> Result<Bytes, NoMemory>
        requires may { MayTurn self.now.part self.now.past prepared.now.done.inputs }
        requires prepared { prepared.now ≡ prepared_of self.now.part self.now.past prepared.now.done.inputs }
        ensures body { IfOk result (IsBodyOf (Turn (taken self.now.past + 1) prepared.now.done.inputs (sealing self.now.past))) }
        ensures short { IfOk result (λ body. length body ≤ longest_turn) }
    {
        let _part = self.part.data();
        let done = &prepared.done;
        let inputs = done.inputs.as_slice();
        let body = encode_turn(alloc, done.step, inputs, done.sealed)?;
        turn_is_short(body.as_slice(), done.step, inputs, done.sealed);
        Ok(body)
    }

    /// Room for a Turn. After `NoMemory` all is as before, with its room.
    pub fn reserve_turn(&mut self, prepared: &Prepared) -> Result<(), NoMemory>
        requires { length prepared.now.starts < 2 ^ 32 }
        ensures part { self.new.part ≡ self.old.part }
        ensures past { self.new.past ≡ self.old.past }
        ensures room { OnOk result (1 ≤ self.new.turn_room) }
        ensures items { OnOk result (length prepared.now.starts ≤ self.new.item_room) }
        ensures admit_room { self.old.admit_room ≤ self.new.admit_room }
        ensures turn_room { self.old.turn_room ≤ self.new.turn_room }
        ensures item_room { self.old.item_room ≤ self.new.item_room }
    {
        self.history.reserve(0, 1)?;
        self.items.reserve(prepared.starts.len() as u32)
    }

    /// Takes a Turn that was worked out. Of the room no more is gone than for one Turn and its starts. Takes no memory.
    pub fn turn(&mut self, prepared: Prepared)
        requires may { MayTurn self.old.part self.old.past prepared.done.inputs }
        requires prepared { prepared ≡ prepared_of self.old.part self.old.past prepared.done.inputs }
        requires room { 1 ≤ self.old.turn_room }
        requires items { length prepared.starts ≤ self.old.item_room }
        ensures part { self.new.part ≡ self.old.part }
        ensures past { self.new.past ≡ turned self.old.past prepared.done.inputs }
        ensures admit_room { self.new.admit_room ≡ self.old.admit_room }
        ensures turn_room { self.old.turn_room ≤ self.new.turn_room + 1 }
        ensures item_room { self.old.item_room ≤ self.new.item_room + length prepared.starts }
    {
        let _part = self.part.data();
        let Prepared {
            done,
            view,
            next,
            starts,
        } = prepared;
        let _ = self
            .items
            .grow(self.acts.as_slice(), done.step, starts.as_slice());
        self.sealed += done.sealed as usize;
        self.history.grow(done);
        self.view = view;
        self.last = replace(&mut self.next, next);
    }

    /// Gives the part back.
    pub fn into_part(self) -> Part
        ensures { result ≡ self.part }
    {
        self.part
    }

    /// Gives part and history back.
    pub fn close(self) -> (Part, History)
        ensures part { result.0 ≡ self.part }
        ensures past { result.1.past ≡ self.past }
    {
        (self.part, self.history)
    }
}

// Closes the item that is completed, if one is.
fn close_item(items: &mut Items, outer: &Outer)
    requires { MayClose outer.now items.old.items }
    ensures unit { items.new.unit ≡ items.old.unit }
    ensures items { items.new.items ≡ closed_by outer.now items.old.items }
    ensures steps { items.new.steps ≡ items.old.steps }
    ensures room { items.new.room ≡ items.old.room }
{
    match outer {
        Outer::Happen(_) => {}
        Outer::Complete { item, .. } => items.close(*item),
    }
}
