//! A line, whichever it is.
ghost use Rattle.std.specs.Prelude.{◌≡◌, true, IfOk, IsErrOf};
ghost use Rattle.wf_machine.specs.Fits.{is_line};
ghost use Rattle.wf_machine.specs.Lines.{act};
ghost use Rattle.wf_world.specs.declared.fault.ActFault.TheVariants as faults;
ghost use Rattle.wf_world.specs.Sent.{is_over};
ghost use Rattle.wf_world.specs.Fleets.{IsFleet, machine_at, HaveRoom, Leads, WearsAll};

use crate::ActFault;
use crate::fleet::Fleet;
use wf_machine::{Line, Reply};

impl Fleet {
    /// Acts a line of the chart, where the slots have room for one more.
    pub fn act(&mut self, line: &Line) -> Result<Reply, ActFault>
        requires fleet { IsFleet self.old }
        requires line { is_line self.old.chart line.now ≡ true }
        requires room { HaveRoom self.old }
        ensures led { IfOk result (λ r. Leads self.old line.now r self.new) }
        ensures wear { IfOk result (λ _. WearsAll self.old self.new) }
        ensures over { IsErrOf result faults.SentLimit → is_over self.old.chart (act self.old.chart (machine_at self.old) true line.now).after ≡ true }
    {
        match line {
            Line::Admit {
                unit,
                request,
                outer,
            } => Ok(self.admit(*unit, *request, outer)?),
            Line::Turn { unit } => Ok(Reply::Turned(self.turn(*unit)?)),
            Line::Send { from, to } => self.send(*from, *to),
            Line::Deliver { message } => Ok(self.deliver(*message)?),
            Line::Crash { unit, outcome } => Ok(self.crash(*unit, *outcome)),
            Line::Arm { unit, stroke, what } => Ok(self.arm(*unit, *stroke, *what)),
            Line::Recover { unit } => Ok(self.recover(*unit)?),
            Line::Show { unit } => Ok(self.show(*unit)?),
            Line::Items { unit } => Ok(self.items(*unit)?),
            Line::Round => self.round(),
        }
    }
}
