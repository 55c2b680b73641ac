//! All servers of a chart, and the messages that they sent.
mod asking;
mod closing;
mod ending;
mod lending;
mod lines;
mod mailing;
mod rounds;
mod starting;

use crate::Mail;
use std::alloc::Global;
use std::marker::Model;
use wf_model::Checked;
use wf_slot::Slot;

/// All servers of a chart, one for each unit, and every message that they sent. Contracts see the chart, what each slot shows, and the
/// messages.
#[derive(Drop)]
pub struct Fleet {
    checked: Checked,
    slots: Vec<Slot>,
    mail: Mail,
    alloc: Global,
}

impl Model for Fleet {
    ghost use Rattle.wf_model.specs.contracts.expr.Expr as expr;
    ghost use Rattle.std.specs.Coded.{codes};
    ghost use Rattle.wf_world.specs.Fleets.{FleetState};

    ghost Value = { FleetState };

    ghost coded = { Prim.hlevel (codes, expr.the_row.coded) };

    ghost view = { λ fleet. record { chart = fleet.checked; slots = fleet.slots.items; messages = fleet.mail } };
}
