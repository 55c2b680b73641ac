//! A unit at work in a round.
ghost use Rattle.std.specs.Prelude.{◌≡◌, ◌≤◌, ◌<◌, ◌+◌, ℕ, None, false, length, IfErr, IfSome, OnOk, map};
ghost use Rattle.wf_histories.specs.Histories.{taken};
ghost use Rattle.wf_actors.specs.Rounds.{IsReady, Ran, RanTo, RanOn};
ghost use Rattle.wf_actors.specs.Stops.{IsStopOf};

use crate::answering::answer_all;
use crate::desk::Desk;
use crate::outbox::Outbox;
use crate::stepping::{take_in_all, take_steps};
use crate::stop::Stop;
use wf_disk::Disk;
use wf_exchange::Port;
use wf_server::Node;

/// A unit with its server, its ends of the rings to and from its peers, and the desks of its clients and workers.
#[derive(Drop)]
pub struct UnitActor<D: Disk> {
    pub node: Node<D>,
    pub port: Port,
    /// What waits for the ring to each unit, in unit order.
    pub outboxes: Vec<Outbox>,
    pub desks: Vec<Desk>,
    /// Whether its server refused an update that came, which is lost.
    pub refused: bool,
    /// Why it does no more.
    pub stop: Option<Stop>,
}

impl<D: Disk> UnitActor<D> {
    // Takes in what came, answers, and takes steps.
    fn work(&mut self, target: Option<u32>) -> Result<(), Stop>
        requires { IsReady self.old }
        ensures ran { Ran D.told target self.old self.new }
        ensures on { OnOk result (RanOn target self.old self.new) }
        ensures stopped { IfErr result (IsStopOf D.told self.old.node self.new.node) }
        ensures stop { self.new.stop ≡ self.old.stop }
    {
        take_in_all(&mut self.node, &mut self.port, &mut self.refused);
        answer_all(&mut self.node, &mut self.desks)?;
        take_steps(
            &mut self.node,
            &mut self.port,
            &mut self.outboxes,
            &mut self.refused,
            target,
        )
    }

    /// A round: the unit takes in what its peers sent, answers what came to its desks, and takes at most 8 steps, none past the target.
    /// What a ring has no room for waits. If its disk fails, its journal is full or memory runs out, it notes so and does no more.
    ///
    /// Linear in what comes and goes, and for each step in its part.
    pub fn round(&mut self, target: Option<u32>)
        requires { IsReady self.old }
        ensures ran { Ran D.told target self.old self.new }
        ensures to { RanTo D.told target self.old self.new self.new.stop }
    {
        if let Err(stop) = self.work(target) {
            self.stop = Some(stop);
        }
    }
}
