//! How a unit answers the lines of its clients and the completions of its workers.
ghost use Rattle.std.specs.Prelude.{◌≡◌, ◌<◌, ◌≤◌, ℕ, false, Ok, Err, length, map, IfOk, IfErr, IsErr, OnOk};
ghost use Rattle.wf_exchange.specs.Rings.{ring_in, ring_out, pushed, popped, free};
ghost use Rattle.wf_server.specs.Servers.{told_by};
ghost use Rattle.wf_actors.specs.Keeping.{KeepsAll};
ghost use Rattle.wf_actors.specs.Stops.{IsStopOf};
ghost use Rattle.wf_actors.specs.Answering.{said_by, ring_at, IsSaid, SaysOne, AsksOne, AnswersMore, AsksMore, KeepsAnswered, KeepsAsked};
ghost use Rattle.wf_actors.specs.Moves.{Admits};

use crate::desk::{Answer, Desk};
use crate::keeping::admit;
use crate::stop::Stop;
use wf_disk::Disk;
use wf_exchange::{LineEnd, LineItem, settle_line};
use wf_server::{AdmitFault, Admitted, Node};

/// So many items are taken from a desk in a round, at most.
const MOST_ITEMS: u32 = 16;

// What a unit answers, by what its server answers.
fn answer_by(admitted: Result<Admitted, AdmitFault>) -> Result<Answer, Stop>
    ensures { result ≡ said_by admitted }
{
    match admitted {
        Ok(Admitted::New(number)) => Ok(Answer::New(number)),
        Ok(Admitted::Again(number)) => Ok(Answer::Again(number)),
        Err(AdmitFault::RequestReused { number, .. }) => Ok(Answer::Reused(number)),
        Err(AdmitFault::WrongUnit) => Ok(Answer::Refused),
        Err(AdmitFault::NoItem) => Ok(Answer::Refused),
        Err(AdmitFault::AlreadyDone) => Ok(Answer::Refused),
        Err(AdmitFault::WrongOutput) => Ok(Answer::Refused),
        Err(AdmitFault::JournalFull) => Err(Stop::JournalFull),
        Err(AdmitFault::NoMemory) => Err(Stop::NoMemory),
        Err(AdmitFault::DiskFailed) => Err(Stop::DiskFailed),
        Err(AdmitFault::Reopen) => Err(Stop::DiskFailed),
    }
}

// Answers one item.
fn answer<D: Disk>(node: &mut Node<D>, item: &LineItem) -> Result<Answer, Stop>
    requires working { node.old.journal.failed ≡ false }
    ensures admits { Admits D.told node.old node.new }
    ensures said { IfOk result (IsSaid node.old.past node.new.past item.now) }
    ensures none { IsErr result → node.new.past ≡ node.old.past }
    ensures stopped { IfErr result (IsStopOf D.told node.old node.new) }
    ensures working { (result ≡ Err Stop.DiskFailed → ⊥) → node.new.journal.failed ≡ false }
{
    let _made = node.history();
    answer_by(admit(node, item.request, &item.outer))
}

// Answers an item that came to a desk, and writes down the answer.
fn answer_at<D: Disk>(node: &mut Node<D>, desk: &mut Desk, item: &LineItem) -> Result<(), Stop>
    requires working { node.old.journal.failed ≡ false }
    ensures admits { Admits D.told node.old node.new }
    ensures mouth { desk.new.mouth ≡ desk.old.mouth }
    ensures said { OnOk result (SaysOne node.old.past node.new.past item.now desk.old.answers desk.new.answers) }
    ensures some { AsksOne node.old.past node.new.past item.now }
    ensures stopped { IfErr result (IsStopOf D.told node.old node.new) }
    ensures working { (result ≡ Err Stop.DiskFailed → ⊥) → node.new.journal.failed ≡ false }
{
    let answer = answer(node, item)?;
    desk.answers.push(answer)?;
    Ok(())
}

// Answers the next item of a desk, if there is one.
fn answer_next<D: Disk>(node: &mut Node<D>, desk: &mut Desk) -> Result<bool, Stop>
    requires working { node.old.journal.failed ≡ false }
    ensures admits { Admits D.told node.old node.new }
    ensures ring { ring_out desk.new.mouth ≡ ring_out desk.old.mouth }
    ensures said { OnOk result (AnswersMore node.old.past node.new.past (popped desk.old.mouth) (popped desk.new.mouth) desk.old.answers desk.new.answers) }
    ensures some { AsksMore node.old.past node.new.past (popped desk.old.mouth) (popped desk.new.mouth) }
    ensures stopped { IfErr result (IsStopOf D.told node.old node.new) }
    ensures working { (result ≡ Err Stop.DiskFailed → ⊥) → node.new.journal.failed ≡ false }
{
    let Some(item) = desk.mouth.pop() else {
        return Ok(false);
    };
    answer_at(node, desk, &item)?;
    Ok(true)
}

// Answers what came to a desk, at most 16 items.
fn answer_desk<D: Disk>(node: &mut Node<D>, desk: &mut Desk) -> Result<(), Stop>
    requires working { node.old.journal.failed ≡ false }
    ensures admits { Admits D.told node.old node.new }
    ensures ring { ring_out desk.new.mouth ≡ ring_out desk.old.mouth }
    ensures said { OnOk result (AnswersMore node.old.past node.new.past (popped desk.old.mouth) (popped desk.new.mouth) desk.old.answers desk.new.answers) }
    ensures some { AsksMore node.old.past node.new.past (popped desk.old.mouth) (popped desk.new.mouth) }
    ensures stopped { IfErr result (IsStopOf D.told node.old node.new) }
    ensures working { (result ≡ Err Stop.DiskFailed → ⊥) → node.new.journal.failed ≡ false }
{
    for _ in 0..MOST_ITEMS {
        if !answer_next(node, desk)? {
            break;
        }
    }
    Ok(())
}

/// Answers all that a client or a worker put in, by who holds both ends of its ring, item by item. After a stop it answers no more.
pub fn settle_desk<D: Disk>(
    node: &mut Node<D>,
    desk: &mut Desk,
    end: &mut LineEnd,
) -> Result<(), Stop>
    requires working { node.old.journal.failed ≡ false }
    requires pair { ring_in end.old ≡ ring_out desk.old.mouth }
    ensures admits { Admits D.told node.old node.new }
    ensures ring { ring_out desk.new.mouth ≡ ring_out desk.old.mouth }
    ensures end { (ring_in end.new ≡ ring_in end.old) × (pushed end.new ≡ pushed end.old) }
    ensures all { OnOk result ((popped desk.new.mouth ≡ pushed end.new) × (0 < free end.new)) }
    ensures said { OnOk result (AnswersMore node.old.past node.new.past (popped desk.old.mouth) (popped desk.new.mouth) desk.old.answers desk.new.answers) }
    ensures some { AsksMore node.old.past node.new.past (popped desk.old.mouth) (popped desk.new.mouth) }
    ensures stopped { IfErr result (IsStopOf D.told node.old node.new) }
    ensures working { (result ≡ Err Stop.DiskFailed → ⊥) → node.new.journal.failed ≡ false }
{
    while let Some(item) = settle_line(&mut desk.mouth, end) {
        answer_at(node, desk, &item)?;
    }
    Ok(())
}

/// Answers what came to each desk, at most 16 items of each. After a stop it answers no more.
pub fn answer_all<D: Disk>(node: &mut Node<D>, desks: &mut [Desk]) -> Result<(), Stop>
    requires working { node.old.journal.failed ≡ false }
    ensures admits { Admits D.told node.old node.new }
    ensures rings { map ring_at desks.new ≡ map ring_at desks.old }
    ensures said { OnOk result (KeepsAnswered node.old.past node.new.past desks.old desks.new) }
    ensures some { KeepsAsked node.old.past node.new.past desks.old desks.new }
    ensures stopped { IfErr result (IsStopOf D.told node.old node.new) }
    ensures working { (result ≡ Err Stop.DiskFailed → ⊥) → node.new.journal.failed ≡ false }
{
    for m in 0..desks.len() {
        answer_desk(node, &mut desks[m])?;
    }
    Ok(())
}
