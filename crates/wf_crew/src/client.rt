//! A client at work in a round.
ghost use Rattle.std.specs.Prelude.{◌≡◌, ◌+◌, ◌≤◌, true, false, Ok, length, OnErr};
ghost use Rattle.wf_exchange.specs.Rings.{free};
ghost use Rattle.wf_crew.specs.Clients.{HasSent, SendsOn, SendsMost};

use wf_exchange::{LineEnd, LineItem};
use wf_model::{EventId, List, Outer};

/// A client's requests are its number times this, and the number of the line.
const REQUESTS_EACH: u64 = 4_294_967_296;

/// A client, whose lines are all at one unit. Its lines count from 1.
#[derive(Drop)]
pub struct ClientActor {
    /// Its number, which stands in its requests: line i has the request of this number times 2 ^ 32, and i.
    pub number: u32,
    /// The event of each of its lines, in order.
    pub events: List<EventId>,
    /// How many of its lines went into the ring.
    pub sent: usize,
    /// Its end of the ring to the unit.
    pub end: LineEnd,
}

impl ClientActor {
    // Puts its next line into the ring. It answers false if none is left, and gives the line back if the ring has no room.
    fn send_next(&mut self) -> Result<bool, LineItem>
        requires { HasSent self.old }
        ensures on { SendsOn self.old self.new }
        ensures sent { result ≡ Ok true → (self.new.sent ≡ self.old.sent + 1) × (free self.old.end ≤ free self.new.end + 1) }
        ensures none { result ≡ Ok false → self.new.sent ≡ length self.new.events }
        ensures full { OnErr result ((self.new.sent ≡ self.old.sent) × (free self.old.end ≡ 0)) }
    {
        let Some(event) = self.events.get(self.sent) else {
            return Ok(false);
        };
        let item = LineItem {
            request: self.number as u64 * REQUESTS_EACH + (self.sent as u64 + 1),
            outer: Outer::Happen(*event),
        };
        self.end.push(item)?;
        self.sent += 1;
        Ok(true)
    }

    // Puts its next lines into the ring. It gives the first one back for which the ring has no room.
    fn send_all(&mut self) -> Result<(), LineItem>
        requires { HasSent self.old }
        ensures on { SendsOn self.old self.new }
        ensures most { SendsMost self.old self.new }
    {
        while self.send_next()? {}
        Ok(())
    }

    /// A round: its next lines go into the ring, in order, until none is left or the ring has no room. Takes no memory.
    pub fn round(&mut self)
        requires { HasSent self.old }
        ensures on { SendsOn self.old self.new }
        ensures most { SendsMost self.old self.new }
    {
        let _ = self.send_all();
    }
}
