//! Claims: the numbers below a count, each of them for one caller, whoever asks first.
ghost use Rattle.std.specs.Prelude.{◌≡◌, ℕ, ◌+◌, ◌<◌, ◌≤◌, true, false, [], ◌∷◌, ◌++◌, length, IfSome, IfNone, IfOk};
ghost use Rattle.wf_claims.specs.Counts.{times};
ghost use Rattle.wf_claims.specs.Draws.{IsBank, EmptyIfIdle};
ghost use Rattle.wf_claims.specs.Seats.{IsSeatOf, AreSeatsOf, AreFresh, AreCut, AreAt, DrewBelow, drawn_times};

use crate::rule::{Both, Cut, Draw, Draws, Hand, Nobody, Sizes};
use atomic_table::{Seat, Table};
use std::alloc::Global;
use std::marker::Model;
use wf_model::{List, NoMemory};

// Takes in one seat.
fn join_one(table: &Table<u8, Hand, Sizes, Draws, Global>, all: &mut Seat<u8, Hand>, one: ClaimSeat)
    requires table { (table.now.shared.table_id.words ≡ 1) × (all.old.table_id ≡ table.now.shared.table_id) × (one.home ≡ table.now.shared.table_id) }
    requires all { EmptyIfIdle all.old.me.0 }
    ensures table { all.new.table_id ≡ all.old.table_id }
    ensures all { EmptyIfIdle all.new.me.0 × (all.new.me.0.parts ≡ all.old.me.0.parts + 1) × (all.new.me.0.drawn ≡ all.old.me.0.drawn ++ one.drawn) }
{
    let ClaimSeat {
        seat,
        limit: _,
        spent: _,
    } = one;
    table.shared.join_seat::<Both>(all, seat);
}

// A seat that has all that these seats have.
fn join_all(table: &Table<u8, Hand, Sizes, Draws, Global>, seats: Vec<ClaimSeat>) -> Seat<u8, Hand>
    requires table { (table.now.shared.table_id.words ≡ 1) × AreAt table.now.shared.table_id seats.items }
    ensures table { result.table_id ≡ table.now.shared.table_id }
    ensures parts { result.me.0.parts ≡ length seats.items }
    ensures drawn { (x : ℕ) → times x result.me.0.drawn ≡ drawn_times x seats.items }
{
    let mut seats = seats;
    let (_, mut all) = table.shared.load_new_seat::<Nobody>(0);
    while let Some(one) = seats.pop() {
        join_one(table, &mut all, one);
    }
    all
}

/// A word that counts, which threads draw from by their seats. A thread that draws waits for no other one.
#[derive(Drop)]
pub struct Claims {
    table: Table<u8, Hand, Sizes, Draws, Global>,
    n: u32,
    seats: u32,
}

impl Model for Claims {
    ghost use Rattle.std.specs.Prelude.{◌≡◌, ◌+◌, ◌*◌, ◌^◌, ◌<◌};
    ghost use Rattle.wf_claims.specs.Seats.{Source};

    ghost Value = { Source };

    ghost view = { λ c. record { home = c.table.shared.table_id; n = c.n; seats = c.seats } };

    ghost invariant = { λ c. (c.seats * (c.n + 1) < 2 ^ 64) × (c.table.shared.table_id.words ≡ 1) × (c.table.shared.table_id.slots ≡ 0) × (c.table.shared.key ≡ record { n = c.n; seats = c.seats }) };
}

/// One caller's right to draw, and what it drew. It is spent once it was answered `None`.
#[derive(Drop)]
pub struct ClaimSeat {
    seat: Seat<u8, Hand>,
    limit: u32,
    spent: bool,
}

impl Model for ClaimSeat {
    ghost use Rattle.wf_claims.specs.Seats.{Drawer, IsSound};

    ghost Value = { Drawer };

    ghost view = { λ s. record { home = s.seat.table_id; limit = s.limit; spent = s.spent; drawn = s.seat.me.0.drawn } };

    ghost invariant = { λ s. IsSound s.limit s.spent s.seat.me };
}

// Cuts one seat more off the first seat, which has the parts and the allowances of all seats that are still to come.
fn cut(
    table: &Table<u8, Hand, Sizes, Draws, Global>,
    first: &mut Seat<u8, Hand>,
    n: u32,
) -> ClaimSeat
    requires table { (table.now.shared.table_id.words ≡ 1) × (first.old.table_id ≡ table.now.shared.table_id) }
    requires first { IsBank n first.old.me }
    requires more { 0 < first.old.me.0.parts }
    ensures first { IsBank n first.new.me × (first.new.me.0.parts + 1 ≡ first.old.me.0.parts) × (first.new.table_id ≡ first.old.table_id) }
    ensures seat { (result.home ≡ table.now.shared.table_id) × (result.limit ≡ n) × (result.spent ≡ false) × (result.drawn ≡ []) }
{
    let seat = table.shared.split_seat::<Cut>(first);
    ClaimSeat {
        seat,
        limit: n,
        spent: false,
    }
}

fn cut_all(
    alloc: Global,
    table: &Table<u8, Hand, Sizes, Draws, Global>,
    first: Seat<u8, Hand>,
    n: u32,
    seats: u32,
) -> Result<Vec<ClaimSeat>, NoMemory>
    requires table { (table.now.shared.table_id.words ≡ 1) × (first.table_id ≡ table.now.shared.table_id) }
    requires first { IsBank n first.me × (first.me.0.parts ≡ seats) }
    ensures len { IfOk result (λ v. length v.items ≡ seats) }
    ensures fresh { IfOk result (λ v. AreCut table.now.shared.table_id n v.items) }
{
    let mut first = first;
    let mut cut_off = Vec::new(alloc);
    for _ in 0..seats {
        cut_off.push(cut(table, &mut first, n))?;
    }
    Ok(cut_off)
}

impl Claims {
    /// Claims of the numbers from 0 on that are below `n`, and a seat for each of that many callers. Takes memory, and
    /// is linear in the seats. `NoMemory` alone is refused.
    pub fn new(alloc: Global, n: u32, seats: u32) -> Result<(Claims, List<ClaimSeat>), NoMemory>
        ensures source { IfOk result (λ r. (r.0.n ≡ n) × (r.0.seats ≡ seats) × (length r.1 ≡ seats)) }
        ensures seats { IfOk result (λ r. AreSeatsOf r.0 r.1 × AreFresh r.1) }
    {
        let (table, first) = Table::of_words(alloc, &[0], &Sizes { n, seats })?;
        let cut_off = cut_all(alloc, &table, first, n, seats)?;
        Ok((Claims { table, n, seats }, List::from_vec(cut_off)))
    }

    /// Ends the claims, once all seats are back, and tells how many numbers were drawn: the seats drew the numbers below
    /// that, each once. Takes no memory, and is linear in the seats.
    pub fn end(self, seats: List<ClaimSeat>) -> u64
        requires all { length seats ≡ self.seats }
        requires seats { AreSeatsOf self seats }
        ensures { DrewBelow result seats }
    {
        let Claims {
            table,
            n: _,
            seats: _,
        } = self;
        let joined = join_all(&table, seats.into_vec());
        let closed = table.close_with(joined);
        let drawn = closed.word(0);
        closed.free();
        drawn
    }

    /// Draws the next number, in one atomic step. `None` says that no number is left, and then the seat is spent. Takes
    /// no memory.
    pub fn claim(&self, seat: &mut ClaimSeat) -> Option<u32>
        requires seat { IsSeatOf self.now seat.old }
        requires unspent { seat.old.spent ≡ false }
        ensures seat { IsSeatOf self.now seat.new }
        ensures some { IfSome result (λ x. (x < self.now.n) × (seat.new.spent ≡ false) × (seat.new.drawn ≡ seat.old.drawn ++ x ∷ [])) }
        ensures none { IfNone result ((seat.new.spent ≡ true) × ((x : ℕ) × (self.now.n ≤ x) × (seat.new.drawn ≡ seat.old.drawn ++ x ∷ []))) }
    {
        let found = self.table.shared.fetch_add::<Draw>(&mut seat.seat, 0, 1);
        if found < u64::from(self.n) {
            Some(found as u32)
        } else {
            seat.spent = true;
            None
        }
    }
}
