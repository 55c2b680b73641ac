//! A worker at work in a round.
ghost use Rattle.std.specs.Prelude.{◌≡◌, None, [], ◌∷◌, ◌++◌, IfSome, IfNone};
ghost use Rattle.wf_exchange.specs.Rings.{ring_in};
ghost use Rattle.wf_crew.specs.Workers.{MayWork, Draws, DrawsNone, Works, handed};

use std::alloc::Global;
use wf_claims::{ClaimSeat, Claims};
use wf_exchange::{LineEnd, LineItem};
use wf_model::{ActId, Duplicate, List, NoMemory, Outer, Output};

/// The request for an item's completion is this and the item's number.
const ITEM_REQUESTS: u64 = 4_611_686_018_427_387_904;

/// What the workers of one activity at one unit may do in a round.
#[derive(Drop)]
pub struct WorkList {
    /// The numbers of the items.
    pub items: List<u32>,
    /// Claims of their places.
    pub claims: Claims,
}

/// A worker, which does items of one activity at one unit.
#[derive(Drop)]
pub struct WorkerActor {
    pub alloc: Global,
    /// The activity.
    pub act: ActId,
    /// What it gives to variables as it completes an item.
    pub outputs: List<Output>,
    /// Its seat of the round's claims.
    pub seat: ClaimSeat,
    /// Its end of the ring to the unit.
    pub end: LineEnd,
    /// What that ring had no room for.
    pub outbox: Option<LineItem>,
    /// Whether it found no memory, and does no more.
    pub stop: Option<NoMemory>,
}

impl WorkerActor {
    // The item at the place that it draws, if one is left.
    fn draw(&mut self, list: &WorkList) -> Option<u32>
        requires { MayWork list.now self.old }
        ensures rest { self.new ≡ record self.old { seat = self.new.seat } }
        ensures some { IfSome result (Draws list.now self.old.seat self.new.seat) }
        ensures none { IfNone result (DrawsNone list.now self.new.seat) }
    {
        let place = list.claims.claim(&mut self.seat)?;
        list.items.get(place as usize).copied()
    }

    // Puts an item into the ring, or where it waits for that.
    fn hand_over(&mut self, item: LineItem)
        requires { self.old.outbox ≡ None }
        ensures rest { self.new ≡ record self.old { end = self.new.end; outbox = self.new.outbox } }
        ensures ring { ring_in self.new.end ≡ ring_in self.old.end }
        ensures handed { handed self.new ≡ handed self.old ++ item ∷ [] }
    {
        if let Err(back) = self.end.push(item) {
            self.outbox = Some(back);
        }
    }

    /// A round: it draws a place of the list, and hands over the completion of the item there; if no place is left, its seat is
    /// spent. If memory runs out, it notes so and draws none.
    ///
    /// Linear in its outputs.
    pub fn round(&mut self, list: &WorkList)
        requires { MayWork list.now self.old }
        ensures { Works list.now self.old self.new }
    {
        let outputs = match self.outputs.copy(self.alloc) {
            Ok(outputs) => outputs,
            Err(no_memory) => {
                self.stop = Some(no_memory);
                return;
            }
        };
        if let Some(item) = self.draw(list) {
            self.hand_over(LineItem {
                request: ITEM_REQUESTS + u64::from(item),
                outer: Outer::Complete {
                    item,
                    act: self.act,
                    outputs,
                },
            });
        }
    }
}
