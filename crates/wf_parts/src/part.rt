//! The part of a unit, sealed.
ghost use Rattle.std.specs.Prelude.{◌≡◌, IfOk};
ghost use Rattle.wf_parts.specs.Parts.{IsPart};
ghost use Rattle.wf_parts.specs.Rows.{AreRows};

use crate::{PartData, Rows};
use std::alloc::Global;
use std::marker::Model;
use wf_model::NoMemory;

/// What a unit is given of a chart: the part of a unit of an accepted chart. Contracts see it as that data. Beside it, it keeps the
/// blockers of the transitions as sets.
#[derive(Drop)]
pub struct Part {
    given: PartData,
    rows: Rows,
}

impl Model for Part {
    ghost use Rattle.wf_parts.specs.declared.data.PartData.{PartData};
    ghost use Rattle.wf_model.specs.contracts.expr.Expr as expr;
    ghost use Rattle.std.specs.Coded.{codes};
    ghost use Rattle.wf_parts.specs.Parts.{IsPart};
    ghost use Rattle.wf_parts.specs.Rows.{AreRows};

    ghost Value = { PartData };

    ghost coded = { Prim.hlevel (codes, expr.the_row.coded) };

    ghost view = { λ part. part.given };

    ghost invariant = { λ part. (IsPart part.given) × (AreRows part.given.transitions part.rows) };
}

impl Part {
    /// Seals the part of a unit. It refuses only if memory runs out. In time that grows with the part's transitions squared and with their
    /// blockers.
    pub fn seal(alloc: Global, given: PartData) -> Result<Part, NoMemory>
        requires { IsPart given }
        ensures { IfOk result (λ part. part ≡ given) }
    {
        let rows = Rows::of(alloc, given.transitions.as_slice())?;
        Ok(Part { given, rows })
    }

    /// The data, lent: the part of a unit of an accepted chart.
    pub fn data(&self) -> &PartData
        ensures same { result.now ≡ self.now }
        ensures part { IsPart self.now }
    {
        &self.given
    }

    /// The blockers of each transition, lent, as sets of places in the part's list of transitions.
    pub fn rows(&self) -> &Rows
        ensures { AreRows self.now.transitions result.now }
    {
        &self.rows
    }
}
