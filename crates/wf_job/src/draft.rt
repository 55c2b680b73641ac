//! What the lines of a host's script said so far.
ghost use Rattle.std.specs.Prelude.{◌≡◌, IfOk};
ghost use Rattle.wf_model.specs.Steps.{Gives};
ghost use Rattle.wf_scripts.specs.Script.{or_refused};

use crate::job::{ClientLine, HostJob, WorkerLine};
use crate::lines::HostLine;
use crate::rules::{may_follow, may_join};
use std::alloc::Global;
use wf_model::{Chart, List, NoMemory};
use wf_scripts::ScriptFault;

/// What lines said so far.
#[derive(Drop)]
pub struct Draft {
    pub clients: List<ClientLine>,
    pub workers: List<WorkerLine>,
    pub goal: Option<u32>,
}

impl Draft {
    ghost use Rattle.wf_job.specs.Drafts as spec;
    ghost use Rattle.wf_job.specs.Script.{whole};

    /// No line yet.
    pub fn blank(alloc: Global) -> Draft
        ensures { result ≡ spec.blank }
    {
        Draft {
            clients: List::new(alloc),
            workers: List::new(alloc),
            goal: None,
        }
    }

    fn with_client(mut self, chart: &Chart, line: ClientLine) -> Result<Option<Draft>, NoMemory>
        ensures { IfOk result (λ next. next ≡ spec.with_client chart.now self line) }
    {
        if may_follow(chart, self.clients.as_slice(), line) {
            self.clients.push(line)?;
            Ok(Some(self))
        } else {
            Ok(None)
        }
    }

    fn with_worker(mut self, chart: &Chart, line: WorkerLine) -> Result<Option<Draft>, NoMemory>
        ensures { IfOk result (λ next. next ≡ spec.with_worker chart.now self line) }
    {
        if may_join(chart, self.workers.as_slice(), &line) {
            self.workers.push(line)?;
            Ok(Some(self))
        } else {
            Ok(None)
        }
    }

    fn with_goal(self, goal: u32) -> Option<Draft>
        ensures { result ≡ spec.with_goal self goal }
    {
        match self.goal {
            Some(_) => None,
            None => Some(Draft {
                goal: Some(goal),
                ..self
            }),
        }
    }

    /// With what a line says, if that may stand there. Grows with the lines before it.
    #[tactic(auto, unfolding(crate::specs::Drafts::with_said))]
    pub fn with_said(self, chart: &Chart, said: Option<HostLine>) -> Result<Option<Draft>, NoMemory>
        ensures { IfOk result (λ next. next ≡ spec.with_said chart.now self said) }
    {
        match said {
            None => Ok(Some(self)),
            Some(HostLine::Client(line)) => self.with_client(chart, line),
            Some(HostLine::Worker(line)) => self.with_worker(chart, line),
            Some(HostLine::Goal(goal)) => Ok(self.with_goal(goal)),
        }
    }

    /// The job, if there is a goal. Otherwise the line with this number is refused.
    pub fn whole(self, number: u32) -> Result<HostJob, ScriptFault>
        ensures { result ≡ whole number self }
    {
        let goal = self.goal.ok_or(ScriptFault::Refused { line: number })?;
        Ok(HostJob {
            clients: self.clients,
            workers: self.workers,
            goal,
        })
    }
}
