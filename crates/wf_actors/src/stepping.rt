//! How a unit takes its steps in a round.
ghost use Rattle.std.specs.Prelude.{◌≡◌, ◌≢◌, ◌⊎◌, ◌+◌, ◌<◌, ◌≤◌, ℕ, Bool, true, false, Ok, Err, [], ◌∷◌, ◌++◌, length, IsTrue, IsFalse, IfErr, IfSome, OnOk, OnErr, IsErrOf};
ghost use Rattle.wf_histories.specs.Histories.{taken};
ghost use Rattle.wf_exchange.specs.Ports.{ways, popped_from, CanReach, SameEnds, SameMouths};
ghost use Rattle.wf_server.specs.Servers.{held, told_by, with_turn};
ghost use Rattle.wf_server.specs.Inbox.{AllCame, AreMissing, IsInbox, IsPeer};
ghost use Rattle.wf_server.specs.Sending.{sent_to};
ghost use Rattle.wf_actors.specs.Keeping.{KeepsAll};
ghost use Rattle.wf_actors.specs.Taking.{Anywhere, KeepsHeld};
ghost use Rattle.wf_actors.specs.Peers.{TakesRows};
ghost use Rattle.wf_actors.specs.Sendings.{sent_on, Sends, SendsSome, SentUpTo, SentToSome};
ghost use Rattle.wf_actors.specs.Stops.{IsStopOf, outcome_by};
ghost use Rattle.wf_model.specs.declared.update.UnitSet.{UnitSet};
ghost use Rattle.wf_server.specs.declared.fault.TurnFault.TheVariants as turns;
ghost use Rattle.wf_actors.specs.Moves.{Moves, IsBelow, TakesTurns};

use crate::keeping::turn;
use crate::outbox::{Outbox, send};
use crate::stop::Stop;
use crate::taking::take_in;
use wf_disk::Disk;
use wf_exchange::Port;
use wf_model::{NoMemory, UnitId};
use wf_server::{Node, TurnFault};

/// So many steps are taken in a round, at most.
const MOST_TURNS: u32 = 8;

// Takes in what came from a unit, if that is a peer.
fn take_in_of<D: Disk>(node: &mut Node<D>, port: &mut Port, refused: &mut bool, unit: u32)
    requires unit { unit < node.old.part.units }
    requires reach { CanReach port.old unit }
    ensures ways { ways port.new ≡ ways port.old }
    ensures ends { (v : ℕ) → SameEnds port.old port.new v }
    ensures rest { node.new ≡ record node.old { came = node.new.came; early = node.new.early } }
    ensures stays { KeepsHeld node.old node.new }
    ensures rows { TakesRows Anywhere node.old node.new (popped_from port.old) (popped_from port.new) refused.old refused.new }
{
    let own = node.part().data().unit;
    if unit == own.0 {
        return;
    }
    take_in(node, port, refused, UnitId(unit));
}

/// Takes in what came from each peer, as `take_in` does.
pub fn take_in_all<D: Disk>(node: &mut Node<D>, port: &mut Port, refused: &mut bool)
    requires reach { (v : ℕ) → v < node.old.part.units → CanReach port.old v }
    ensures ways { ways port.new ≡ ways port.old }
    ensures ends { (v : ℕ) → SameEnds port.old port.new v }
    ensures rest { node.new ≡ record node.old { came = node.new.came; early = node.new.early } }
    ensures stays { KeepsHeld node.old node.new }
    ensures rows { TakesRows Anywhere node.old node.new (popped_from port.old) (popped_from port.new) refused.old refused.new }
{
    let units = node.part().data().units;
    for unit in 0..units {
        take_in_of(node, port, refused, unit);
    }
}

// That some peer's update didn't come.
fn is_short<D: Disk>(node: &Node<D>, absent: u8)
    requires missing { AreMissing node.now.part node.now.came absent }
    requires some { absent ≢ 0 }
    ensures { AllCame node.now.part node.now.came → ⊥ }
{
    let _node = node;
    let _absent = absent;
}

// What comes of a step that isn't taken: the unit waits for an update, or it stops.
fn untaken<D: Disk>(node: &Node<D>, fault: TurnFault) -> Result<bool, Stop>
    requires missing { (absent : UnitSet) → fault ≡ turns.Waiting absent → AreMissing node.now.part node.now.came absent.0 × (absent.0 ≢ 0) }
    ensures outcome { result ≡ outcome_by fault }
    ensures waits { result ≡ Ok false → AllCame node.now.part node.now.came → ⊥ }
{
    match fault {
        TurnFault::Waiting(absent) => {
            is_short(node, absent.0);
            Ok(false)
        }
        TurnFault::JournalFull => Err(Stop::JournalFull),
        TurnFault::StepLimit => Err(Stop::StepLimit),
        TurnFault::NoMemory => Err(Stop::NoMemory),
        TurnFault::Reopen | TurnFault::DiskFailed => Err(Stop::DiskFailed),
    }
}

// Takes the next step, or says that an update is missing.
fn step<D: Disk>(node: &mut Node<D>) -> Result<bool, Stop>
    requires working { node.old.journal.failed ≡ false }
    ensures part { node.new.part ≡ node.old.part }
    ensures keeps { KeepsAll D.told node.old node.new }
    ensures faults { (told_by D.told node.old).faults ≤ (told_by D.told node.new).faults }
    ensures turns { TakesTurns node.old.past node.new.past }
    ensures took { result ≡ Ok true → (node.new.past ≡ with_turn node.old.past node.old.came) × AllCame node.old.part node.old.came }
    ensures inbox { IsInbox node.old.part (taken node.old.past + 1) node.old.came }
    ensures later { result ≡ Ok true → (v s : ℕ) → taken node.old.past + 1 < s → held node.new v s ≡ held node.old v s }
    ensures same { (result ≡ Ok true → ⊥) → node.new ≡ record node.old { journal = node.new.journal; ready = node.new.ready } }
    ensures waits { result ≡ Ok false → AllCame node.old.part node.old.came → ⊥ }
    ensures stopped { IfErr result (IsStopOf D.told node.old node.new) }
    ensures working { (result ≡ Err Stop.DiskFailed → ⊥) → node.new.journal.failed ≡ false }
{
    let _held = node.held(UnitId(0), 0);
    match turn(node) {
        Ok(_) => Ok(true),
        Err(fault) => untaken(node, fault),
    }
}

// Sends the own update of a step to a unit, if that is a peer.
fn send_to<D: Disk>(
    node: &Node<D>,
    port: &mut Port,
    outboxes: &mut [Outbox],
    unit: u32,
    step: u32,
) -> Result<(), NoMemory>
    requires reach { CanReach port.old unit }
    requires place { unit < length outboxes.old }
    requires first { 1 ≤ step }
    requires kept { (step ≡ taken node.now.past) ⊎ (step ≡ taken node.now.past + 1) }
    ensures ways { ways port.new ≡ ways port.old }
    ensures mouths { (v : ℕ) → SameMouths port.old port.new v }
    ensures others { (v : ℕ) → v ≢ unit → sent_on port.new outboxes.new v ≡ sent_on port.old outboxes.old v }
    ensures sent { OnOk result (IsPeer node.now.part unit → sent_on port.new outboxes.new unit ≡ sent_on port.old outboxes.old unit ++ sent_to node.now.part node.now.past unit step ∷ []) }
    ensures unsent { OnErr result (sent_on port.new outboxes.new unit ≡ sent_on port.old outboxes.old unit) }
{
    let own = node.part().data().unit;
    if unit == own.0 {
        return Ok(());
    }
    send(node, port, &mut outboxes[unit as usize], UnitId(unit), step)
}

/// Sends each peer the own update of a step that is taken or the next one, as `send` does. It refuses only if memory runs
/// out, and then some peers were sent it.
pub fn send_all<D: Disk>(
    node: &Node<D>,
    port: &mut Port,
    outboxes: &mut [Outbox],
    step: u32,
) -> Result<(), NoMemory>
    requires reach { (v : ℕ) → v < node.now.part.units → CanReach port.old v }
    requires boxes { length outboxes.old ≡ node.now.part.units }
    requires first { 1 ≤ step }
    requires kept { (step ≡ taken node.now.past) ⊎ (step ≡ taken node.now.past + 1) }
    ensures ways { ways port.new ≡ ways port.old }
    ensures mouths { (v : ℕ) → SameMouths port.old port.new v }
    ensures sent { OnOk result ((v : ℕ) → IsPeer node.now.part v → sent_on port.new outboxes.new v ≡ sent_on port.old outboxes.old v ++ sent_to node.now.part node.now.past v step ∷ []) }
    ensures some { SentToSome node.now.part node.now.past step port.old port.new outboxes.old outboxes.new }
{
    let units = node.part().data().units;
    for unit in 0..units {
        send_to(node, port, outboxes, unit, step)?;
    }
    Ok(())
}

// Takes the next step and sends its update, or says that an update is missing.
#[tactic(auto, using(wf_steps::proofs::Made::made_steps))]
fn go<D: Disk>(node: &mut Node<D>, port: &mut Port, outboxes: &mut [Outbox]) -> Result<bool, Stop>
    requires working { node.old.journal.failed ≡ false }
    requires reach { (v : ℕ) → v < node.old.part.units → CanReach port.old v }
    requires boxes { length outboxes.old ≡ node.old.part.units }
    ensures moves { (refused : Bool) → Moves D.told node.old node.new port.old port.new refused refused }
    ensures sent { OnOk result (Sends node.old node.new port.old port.new outboxes.old outboxes.new) }
    ensures some { SendsSome node.old node.new port.old port.new outboxes.old outboxes.new }
    ensures turns { TakesTurns node.old.past node.new.past }
    ensures went { result ≡ Ok true → taken node.new.past ≡ taken node.old.past + 1 }
    ensures most { taken node.new.past ≤ taken node.old.past + 1 }
    ensures waits { result ≡ Ok false → AllCame node.old.part node.old.came → ⊥ }
    ensures stopped { IfErr result (IsStopOf D.told node.old node.new) }
    ensures working { (result ≡ Err Stop.DiskFailed → ⊥) → node.new.journal.failed ≡ false }
{
    let _before = node.history();
    if !step(node)? {
        return Ok(false);
    }
    let _made = node.history();
    let next = node.taken() + 1;
    send_all(node, port, outboxes, next)?;
    Ok(true)
}

// Takes the next step and sends its update, or says that an update is missing. Then it takes in more.
fn advance<D: Disk>(
    node: &mut Node<D>,
    port: &mut Port,
    outboxes: &mut [Outbox],
    refused: &mut bool,
) -> Result<bool, Stop>
    requires working { node.old.journal.failed ≡ false }
    requires reach { (v : ℕ) → v < node.old.part.units → CanReach port.old v }
    requires boxes { length outboxes.old ≡ node.old.part.units }
    ensures moves { Moves D.told node.old node.new port.old port.new refused.old refused.new }
    ensures sent { OnOk result (Sends node.old node.new port.old port.new outboxes.old outboxes.new) }
    ensures some { SendsSome node.old node.new port.old port.new outboxes.old outboxes.new }
    ensures turns { TakesTurns node.old.past node.new.past }
    ensures went { result ≡ Ok true → taken node.new.past ≡ taken node.old.past + 1 }
    ensures most { taken node.new.past ≤ taken node.old.past + 1 }
    ensures waits { result ≡ Ok false → AllCame node.old.part node.old.came → ⊥ }
    ensures stopped { IfErr result (IsStopOf D.told node.old node.new) }
    ensures working { (result ≡ Err Stop.DiskFailed → ⊥) → node.new.journal.failed ≡ false }
{
    let went = go(node, port, outboxes)?;
    take_in_all(node, port, refused);
    Ok(went)
}

// Whether the target is reached.
fn is_there(taken: u32, target: Option<u32>) -> bool
    ensures yes { IsTrue result → IsBelow target taken → ⊥ }
    ensures no { IsFalse result → IsBelow target taken }
{
    match target {
        None => false,
        Some(target) => target <= taken,
    }
}

/// Takes at most 8 steps, none past the target. After each it sends the unit's update and takes in what came. After a first step
/// that waits for an update it takes in once more, and after a second one it takes no more. If an update of each peer of the
/// next step is held and the target is further on, it takes one step at least. After a stop it takes no more.
pub fn take_steps<D: Disk>(
    node: &mut Node<D>,
    port: &mut Port,
    outboxes: &mut [Outbox],
    refused: &mut bool,
    target: Option<u32>,
) -> Result<(), Stop>
    requires working { node.old.journal.failed ≡ false }
    requires reach { (v : ℕ) → v < node.old.part.units → CanReach port.old v }
    requires boxes { length outboxes.old ≡ node.old.part.units }
    ensures moves { Moves D.told node.old node.new port.old port.new refused.old refused.new }
    ensures sent { OnOk result (Sends node.old node.new port.old port.new outboxes.old outboxes.new) }
    ensures some { SendsSome node.old node.new port.old port.new outboxes.old outboxes.new }
    ensures turns { TakesTurns node.old.past node.new.past }
    ensures most { taken node.new.past ≤ taken node.old.past + 8 }
    ensures target { IfSome target (λ t. taken node.old.past ≤ t → taken node.new.past ≤ t) }
    ensures goes { OnOk result (AllCame node.old.part node.old.came → IsBelow target (taken node.old.past) → taken node.old.past < taken node.new.past) }
    ensures stopped { IfErr result (IsStopOf D.told node.old node.new) }
    ensures working { (result ≡ Err Stop.DiskFailed → ⊥) → node.new.journal.failed ≡ false }
{
    let mut again = true;
    for turns in 0..MOST_TURNS {
        if is_there(node.taken(), target) {
            break;
        }
        if !advance(node, port, outboxes, refused)? {
            if !again {
                break;
            }
            again = false;
        }
        let _ = turns;
    }
    Ok(())
}
