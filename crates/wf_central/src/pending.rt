//! What was admitted for the next step.
ghost use Rattle.std.specs.Prelude.{◌≡◌, ◌++◌, [], ◌∷◌, OnOk, OnErr};
ghost use Rattle.wf_semantics.specs.Admission.{completes, is_pending};
ghost use Rattle.wf_activities.specs.Completing.{completes_again};
ghost use Rattle.wf_central.specs.Found.{completed_by};

use std::alloc::Global;
use std::collections::HashSet;
use std::marker::Model;
use wf_model::{Entry, List, NoMemory, Outer, UnitId};

/// The entries that were admitted for the next step, in order. Contracts see them as a list. Which items they complete is
/// found without a look at each of them.
#[derive(Drop)]
pub struct Pending {
    entries: List<Entry>,
    completing: HashSet<(u32, u32)>,
}

impl Model for Pending {
    ghost use Rattle.std.specs.Prelude.{List};
    ghost use Rattle.wf_model.specs.declared.outer.Entry.{Entry};
    ghost use Rattle.wf_central.specs.Found.{AreFound};

    ghost Value = { List Entry };

    ghost view = { λ p. p.entries };

    ghost invariant = { λ p. AreFound p.completing.keys p.entries };
}

// The unit and the number of the item that an entry completes, if it completes one.
fn completed_by(entry: &Entry) -> Option<(u32, u32)>
    ensures { result ≡ completed_by entry.now.unit.0 entry.now.outer }
{
    match entry.outer {
        Outer::Happen(_) => None,
        Outer::Complete { item, .. } => Some((entry.unit.0, item)),
    }
}

// Whether the outer completes this item.
fn completes(outer: &Outer, item: u32) -> bool
    ensures { result ≡ completes item outer.now }
{
    match outer {
        Outer::Happen(_) => false,
        Outer::Complete { item: other, .. } => *other == item,
    }
}

// Whether one of these entries completes an item of a unit. Grows with the entries.
fn is_pending(entries: &[Entry], unit: UnitId, item: u32) -> bool
    ensures { result ≡ is_pending entries.now unit.0 item }
{
    entries
        .iter()
        .any(|x| x.unit.0 == unit.0 && completes(&x.outer, item))
}

/// Whether one of these entries completes the item that this outer at a unit completes. Grows with the entries. Takes no
/// memory.
pub fn completes_again(entries: &[Entry], unit: UnitId, outer: &Outer) -> bool
    ensures { result ≡ completes_again entries.now unit.0 outer.now }
{
    match outer {
        Outer::Happen(_) => false,
        Outer::Complete { item, .. } => is_pending(entries, unit, *item),
    }
}

impl Pending {
    /// No entry. Takes no memory.
    pub fn new(alloc: Global) -> Pending
        ensures { result ≡ [] }
    {
        Pending {
            entries: List::new(alloc),
            completing: HashSet::new(alloc),
        }
    }

    /// The entries, lent.
    pub fn entries(&self) -> &[Entry]
        ensures { result.now ≡ self.now }
    {
        self.entries.as_slice()
    }

    /// Whether one of the entries completes the item that this outer at a unit completes. In constant time on average. Takes no
    /// memory.
    pub fn completes(&self, unit: UnitId, outer: &Outer) -> bool
        ensures { result ≡ completes_again self.now unit.0 outer.now }
    {
        match outer {
            Outer::Happen(_) => false,
            Outer::Complete { item, .. } => self.completing.contains(&(unit.0, *item)),
        }
    }

    /// One entry more, at the end. In constant time on average.
    pub fn push(&mut self, entry: Entry) -> Result<(), NoMemory>
        ensures ok { OnOk result (self.new ≡ self.old ++ entry ∷ []) }
        ensures err { OnErr result (self.new ≡ self.old) }
    {
        let completed = completed_by(&entry);
        self.completing.reserve(1)?;
        self.entries.push(entry)?;
        if let Some(key) = completed {
            self.completing.insert(key).unwrap();
        }
        Ok(())
    }
}
