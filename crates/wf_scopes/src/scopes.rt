//! The tables of a chart.
ghost use Rattle.std.specs.Prelude.{◌≡◌, ◌<◌, length, map, IfOk};
ghost use Rattle.wf_model.specs.Tree.{scope, is_above};
ghost use Rattle.wf_model.specs.declared.chart.Chart.{Chart as AnyChart};
ghost use Rattle.wf_semantics.specs.Configuration.{is_in};
ghost use Rattle.wf_semantics.specs.Entry.{entry_tree};
ghost use Rattle.wf_scopes.specs.Tables.{tables_of, ancestor_ids};

use crate::{entries, lineages, scope};
use std::alloc::Global;
use std::marker::Model;
use wf_model::{Checked, List, NoMemory, StateId, TransId};

/// The tables of one chart: who is above whom, the scopes of transitions and what these enter.
#[derive(Drop)]
pub struct Scopes {
    lineages: List<List<StateId>>,
    scopes: List<StateId>,
    entries: List<List<bool>>,
}

impl Model for Scopes {
    ghost use Rattle.wf_scopes.specs.Tables.{Tables};

    ghost Value = { Tables };

    ghost view = { λ s. record { lineages = s.lineages; scopes = s.scopes; entries = s.entries } };
}

impl Scopes {
    /// The tables of a chart. Grows with the states and with the transitions times the states, each times the depth of
    /// states.
    pub fn of(alloc: Global, checked: &Checked) -> Result<Scopes, NoMemory>
        ensures { IfOk result (λ scopes. scopes ≡ tables_of checked.now) }
    {
        let chart = checked.chart();
        let lineages = lineages::lineages(alloc, chart)?;
        let scopes = scope::scopes(alloc, lineages.as_slice(), chart)?;
        let entries = entries::entries(alloc, lineages.as_slice(), scopes.as_slice(), chart)?;
        Ok(Scopes {
            lineages,
            scopes,
            entries,
        })
    }

    /// The scope of a transition of the chart. Takes no memory.
    pub fn scope(&self, t: TransId) -> StateId
        ensures { (chart : AnyChart) → self.now ≡ tables_of chart → t.0 < length chart.transitions → result.0 ≡ scope chart t.0 }
    {
        match self.scopes.get(t.0 as usize) {
            Some(scope) => *scope,
            None => StateId(0),
        }
    }

    /// Whether the entry tree of a transition has a state of the chart. Takes no memory.
    pub fn enters(&self, t: TransId, s: StateId) -> bool
        ensures { (chart : AnyChart) → self.now ≡ tables_of chart → t.0 < length chart.transitions → s.0 < length chart.states → result ≡ is_in s.0 (entry_tree chart t.0) }
    {
        match self.entries.get(t.0 as usize) {
            Some(row) => match row.get(s.0 as usize) {
                Some(enters) => *enters,
                None => false,
            },
            None => false,
        }
    }

    /// Whether state `a` is a proper ancestor of state `b`. Grows with the depth. Takes no memory.
    pub fn above(&self, a: StateId, b: StateId) -> bool
        ensures { (chart : AnyChart) → self.now ≡ tables_of chart → b.0 < length chart.states → result ≡ is_above chart a.0 b.0 }
    {
        lineages::has_id(self.lineage(b), a)
    }

    /// The proper ancestors of a state, the lowest first. Takes no memory.
    pub fn lineage(&self, s: StateId) -> &[StateId]
        ensures { (chart : AnyChart) → self.now ≡ tables_of chart → s.0 < length chart.states → result.now ≡ ancestor_ids chart s.0 }
    {
        match self.lineages.get(s.0 as usize) {
            Some(ids) => ids.as_slice(),
            None => &[],
        }
    }
}
