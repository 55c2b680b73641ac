//! Whether the numbers that an expression names are those of parts of the chart.
ghost use Rattle.std.specs.Prelude.{◌≡◌, nat_lt, length};
ghost use Rattle.wf_model.specs.Accepted as spec;

use wf_model::{Chart, Expr};

/// Whether every number in the expression is that of a variable, a state or an activity of the chart. Linear in the
/// nodes.
#[tactic(auto, using(wf_model::specs::declared::expr::Expr::the_lemmas, wf_model::specs::NodesLaws::known_laws))]
pub fn is_known_expr(e: &Expr, chart: &Chart) -> bool
    ensures { result ≡ spec.is_known_expr chart.now e.now }
{
    match e {
        Expr::Bool(_) | Expr::Int(_) | Expr::Text(_) => true,
        Expr::Var(x) => (x.0 as usize) < chart.vars.len(),
        Expr::In(s) => (s.0 as usize) < chart.states.len(),
        Expr::Count(a) => (a.0 as usize) < chart.acts.len(),
        Expr::Done(a) => (a.0 as usize) < chart.acts.len(),
        Expr::Not(x) => is_known_expr(x.get(), chart),
        Expr::Neg(x) => is_known_expr(x.get(), chart),
        Expr::Bin(_, left, right) => is_known_expr(left.get(), chart)
            && is_known_expr(right.get(), chart),
    }
}
