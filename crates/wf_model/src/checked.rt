//! A chart that was accepted.
ghost use Rattle.std.specs.Prelude.{◌≡◌};
ghost use Rattle.wf_model.specs.Accepted.{IsAccepted};

use crate::Chart;
use std::marker::Model;

/// A chart that is accepted. Contracts see it as that chart.
#[derive(Debug, Drop)]
pub struct Checked {
    chart: Chart,
}

impl Model for Checked {
    ghost use Rattle.wf_model.specs.declared.chart.Chart.{Chart};
    ghost use Rattle.wf_model.specs.contracts.expr.Expr as expr;
    ghost use Rattle.std.specs.Coded.{codes};
    ghost use Rattle.wf_model.specs.Accepted.{IsAccepted};

    ghost Value = { Chart };

    ghost coded = { Prim.hlevel (codes, expr.the_row.coded) };

    ghost view = { λ checked. checked.chart };

    ghost invariant = { λ checked. IsAccepted checked.chart };
}

impl Checked {
    /// Seals a chart that is accepted. Takes no memory.
    pub fn seal(chart: Chart) -> Checked
        requires { IsAccepted chart }
        ensures { result ≡ chart }
    {
        Checked { chart }
    }

    /// The chart, lent.
    pub fn chart(&self) -> &Chart
        ensures same { result.now ≡ self.now }
        ensures accepted { IsAccepted self.now }
    {
        &self.chart
    }
}
