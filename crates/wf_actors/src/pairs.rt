//! What is handed over between all units after a round.
ghost use Rattle.std.specs.Prelude.{◌≡◌, ◌≢◌, ◌<◌, ℕ, length, map};
ghost use Rattle.wf_exchange.specs.Ports.{unit_of, popped_from, AllJoined};
ghost use Rattle.wf_actors.specs.Pairs.{HasAll, AreApart, MayTakeOver, TakesOver, AllTakeOver, AreUnits, HasAllOf, ways_of, traffic, traffic_at};

use crate::handing::hand_over;
use crate::unit::UnitActor;
use wf_disk::Disk;

// All that the sender sent the reader goes to the reader's server.
fn take_over<D: Disk>(reader: &mut UnitActor<D>, sender: &mut UnitActor<D>)
    requires may { MayTakeOver reader.old sender.old }
    ensures reader { TakesOver reader.old reader.new }
    ensures sender { TakesOver sender.old sender.new }
    ensures all { HasAll (traffic reader.new (unit_of sender.old.port)) (traffic sender.new (unit_of reader.old.port)) }
    ensures reader_others { (v : ℕ) → v ≢ unit_of sender.old.port → traffic reader.new v ≡ traffic reader.old v }
    ensures sender_others { (v : ℕ) → v ≢ unit_of reader.old.port → traffic sender.new v ≡ traffic sender.old v }
    ensures reader_sent { (v : ℕ) → traffic reader.new v ≡ record (traffic reader.old v) { came = popped_from reader.new.port v } }
    ensures sender_came { (v : ℕ) → popped_from sender.new.port v ≡ popped_from sender.old.port v }
{
    let to = reader.port.unit();
    let outbox = &mut sender.outboxes[to.0 as usize];
    hand_over(
        &mut reader.node,
        &mut reader.port,
        &mut sender.port,
        &mut outbox.waiting,
        &mut reader.refused,
    );
}

// All that each of two units sent the other goes to the other's server.
fn exchange<D: Disk>(one: &mut UnitActor<D>, other: &mut UnitActor<D>)
    requires to_one { MayTakeOver one.old other.old }
    requires to_other { MayTakeOver other.old one.old }
    ensures one { TakesOver one.old one.new }
    ensures other { TakesOver other.old other.new }
    ensures one_has { HasAll (traffic one.new (unit_of other.old.port)) (traffic other.new (unit_of one.old.port)) }
    ensures other_has { HasAll (traffic other.new (unit_of one.old.port)) (traffic one.new (unit_of other.old.port)) }
    ensures one_others { (v : ℕ) → v ≢ unit_of other.old.port → traffic one.new v ≡ traffic one.old v }
    ensures other_others { (v : ℕ) → v ≢ unit_of one.old.port → traffic other.new v ≡ traffic other.old v }
{
    take_over(one, other);
    take_over(other, one);
}

// The same for two of the units.
fn exchange_at<D: Disk>(units: &mut [UnitActor<D>], first: usize, second: usize)
    requires places { (first < second) × (second < length units.old) }
    requires joined { AllJoined (map ways_of units.old) }
    requires units { AreUnits units.old }
    ensures each { AllTakeOver units.old units.new }
    ensures first_has { HasAllOf units.new first second }
    ensures second_has { HasAllOf units.new second first }
    ensures others { (x y : ℕ) → AreApart x y first second → traffic_at units.new x y ≡ traffic_at units.old x y }
{
    let (front, back) = units.split_at_mut(second);
    exchange(&mut front[first], &mut back[0]);
}

// The same for a unit and each before it.
fn exchange_with<D: Disk>(units: &mut [UnitActor<D>], second: usize)
    requires place { second < length units.old }
    requires joined { AllJoined (map ways_of units.old) }
    requires units { AreUnits units.old }
    ensures each { AllTakeOver units.old units.new }
    ensures first_has { (k : ℕ) → k < second → HasAllOf units.new k second }
    ensures second_has { (k : ℕ) → k < second → HasAllOf units.new second k }
    ensures others { (x y : ℕ) → x ≢ second → y ≢ second → traffic_at units.new x y ≡ traffic_at units.old x y }
{
    for first in 0..second {
        exchange_at(units, first, second);
    }
}

/// All that each unit sent each other one goes to the other's server, as `hand_over` does, by who holds all of them: what lies in the
/// rings, and what waits for them. The units are those of one chart, in unit order, with their rings. What a server refuses is lost,
/// and the unit notes so. Nothing else of a unit changes. Takes no memory.
///
/// Quadratic in the units, and linear in what is handed over.
pub fn hand_over_all<D: Disk>(units: &mut [UnitActor<D>])
    requires joined { AllJoined (map ways_of units.old) }
    requires units { AreUnits units.old }
    ensures ways { map ways_of units.new ≡ map ways_of units.old }
    ensures units { AreUnits units.new }
    ensures each { AllTakeOver units.old units.new }
    ensures all { (u v : ℕ) → u ≢ v → u < length units.old → v < length units.old → HasAllOf units.new u v }
{
    for second in 0..units.len() {
        exchange_with(units, second);
    }
}
