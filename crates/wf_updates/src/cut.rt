//! Updates and entries, cut to what is known.
ghost use Rattle.std.specs.Prelude.{◌≡◌, ◌==◌, filter, filter_map, find, IfOk};
ghost use Rattle.std.specs.Option.{option_copied};
ghost use Rattle.wf_model.specs.Bits.{bit};
ghost use Rattle.wf_model.specs.declared.outer.Outer.TheVariants.{Complete};
ghost use Rattle.wf_views.specs.Knowledge.{cut_outer};
ghost use Rattle.wf_views.specs.Relevant.{cut_update, relevant};
ghost use Rattle.wf_updates.specs.Tables.{is_bare, known_at, told_by};

use crate::sets::KnownSets;
use std::alloc::Global;
use wf_model::{
    ActId, Bits, EventId, List, NoMemory, Outer, Output, StartAt, StateId, UnitId, Update, Write,
};
use wf_parts::{Known, Part};

// The states that are known. In linear time.
fn cut_states(alloc: Global, states: &[StateId], known: &Bits) -> Result<List<StateId>, NoMemory>
    ensures { IfOk result (λ cut. cut ≡ filter (λ s. bit known.now s.0) states.now) }
{
    let mut cut = List::new(alloc);
    for state in states {
        if known.has(state.0 as usize) {
            cut.push(*state)?;
        }
    }
    Ok(cut)
}

// The writes of known variables. In linear time.
fn cut_writes(alloc: Global, writes: &[Write], known: &Bits) -> Result<List<Write>, NoMemory>
    ensures { IfOk result (λ cut. cut ≡ filter (λ write. bit known.now write.var.0) writes.now) }
{
    let mut cut = List::new(alloc);
    for write in writes {
        if known.has(write.var.0 as usize) {
            cut.push(*write)?;
        }
    }
    Ok(cut)
}

// The events that are known. In linear time.
fn cut_events(alloc: Global, events: &[EventId], known: &Bits) -> Result<List<EventId>, NoMemory>
    ensures { IfOk result (λ cut. cut ≡ filter (λ e. bit known.now e.0) events.now) }
{
    let mut cut = List::new(alloc);
    for event in events {
        if known.has(event.0 as usize) {
            cut.push(*event)?;
        }
    }
    Ok(cut)
}

// The starts of known activities. In linear time.
fn cut_starts(alloc: Global, starts: &[StartAt], known: &Bits) -> Result<List<StartAt>, NoMemory>
    ensures { IfOk result (λ cut. cut ≡ filter (λ start. bit known.now start.act.0) starts.now) }
{
    let mut cut = List::new(alloc);
    for start in starts {
        if known.has(start.act.0 as usize) {
            cut.push(*start)?;
        }
    }
    Ok(cut)
}

// The outputs of known variables. In linear time.
fn cut_outputs(alloc: Global, outputs: &[Output], known: &Bits) -> Result<List<Output>, NoMemory>
    ensures { IfOk result (λ cut. cut ≡ filter (λ o. bit known.now o.var.0) outputs.now) }
{
    let mut cut = List::new(alloc);
    for output in outputs {
        if known.has(output.var.0 as usize) {
            cut.push(*output)?;
        }
    }
    Ok(cut)
}

// A completion with its known outputs. It stays if its activity is known or one of them is there.
fn cut_completion(
    alloc: Global,
    item: u32,
    act: ActId,
    outputs: &[Output],
    known: &KnownSets,
) -> Result<Option<Outer>, NoMemory>
    ensures { IfOk result (λ cut. cut ≡ cut_outer (told_by known.now) (Complete item act outputs.now)) }
{
    let outputs = cut_outputs(alloc, outputs, &known.vars)?;
    if known.acts.has(act.0 as usize) || !outputs.is_empty() {
        Ok(Some(Outer::Complete { item, act, outputs }))
    } else {
        Ok(None)
    }
}

/// An outer as far as it is known. In linear time in its outputs.
pub fn cut_outer(alloc: Global, outer: &Outer, known: &KnownSets) -> Result<Option<Outer>, NoMemory>
    ensures { IfOk result (λ cut. cut ≡ cut_outer (told_by known.now) outer.now) }
{
    match outer {
        Outer::Happen(event) => {
            if known.events.has(event.0 as usize) {
                Ok(Some(Outer::Happen(*event)))
            } else {
                Ok(None)
            }
        }
        Outer::Complete { item, act, outputs } => {
            cut_completion(alloc, *item, *act, outputs.as_slice(), known)
        }
    }
}

// The outers as far as they are known. In linear time.
fn cut_outers(alloc: Global, outers: &[Outer], known: &KnownSets) -> Result<List<Outer>, NoMemory>
    ensures { IfOk result (λ cut. cut ≡ filter_map (cut_outer (told_by known.now)) outers.now) }
{
    let mut cut = List::new(alloc);
    for outer in outers {
        if let Some(outer) = cut_outer(alloc, outer, known)? {
            cut.push(outer)?;
        }
    }
    Ok(cut)
}

// The update as far as its numbers are known.
fn cut_update(alloc: Global, update: &Update, known: &KnownSets) -> Result<Update, NoMemory>
    ensures { IfOk result (λ cut. cut ≡ cut_update (told_by known.now) update.now) }
{
    let flips = cut_states(alloc, update.flips.as_slice(), &known.states)?;
    let writes = cut_writes(alloc, update.writes.as_slice(), &known.vars)?;
    let raised = cut_events(alloc, update.raised.as_slice(), &known.events)?;
    let starts = cut_starts(alloc, update.starts.as_slice(), &known.acts)?;
    let outer = cut_outers(alloc, update.outer.as_slice(), known)?;
    Ok(Update {
        from: update.from,
        step: update.step,
        flips,
        writes,
        raised,
        starts,
        fired: List::new(alloc),
        outer,
    })
}

// What is kept of a peer, or none for who is no peer. In linear time in the peers.
fn find_peer(peers: &[Known], peer: UnitId) -> Option<&Known>
    ensures { option_copied result ≡ find (λ known. known.unit.0 == peer.0) peers.now }
{
    peers.iter().find(|known| known.unit.0 == peer.0)
}

// What this peer knows. Who is no peer knows nothing.
fn peer_sets(alloc: Global, peers: &[Known], peer: UnitId) -> Result<KnownSets, NoMemory>
    ensures { IfOk result (λ sets. told_by sets ≡ known_at peers.now peer.0) }
{
    match find_peer(peers, peer) {
        Some(known) => KnownSets::of_peer(alloc, known),
        None => KnownSets::none(alloc),
    }
}

// Whether an update has nothing that may be cut.
fn is_bare(update: &Update) -> bool
    ensures { result ≡ is_bare update.now }
{
    update.flips.len() == 0
        && update.writes.len() == 0
        && update.raised.len() == 0
        && update.starts.len() == 0
        && update.outer.len() == 0
}

// What this peer knows, or nothing for an update that has nothing: it is cut to the same.
fn sets_for(
    alloc: Global,
    update: &Update,
    peers: &[Known],
    peer: UnitId,
) -> Result<KnownSets, NoMemory>
    ensures { IfOk result (λ sets. cut_update (told_by sets) update.now ≡ relevant peers.now update.now peer.0) }
{
    if is_bare(update) {
        KnownSets::none(alloc)
    } else {
        peer_sets(alloc, peers, peer)
    }
}

/// What a peer is sent of an update of this part's unit: each list cut to what the peer knows of it, with no fired
/// transition. A completion stays if its activity or one of its outputs is known, with the known outputs. Who is no peer is
/// sent an empty update. It refuses only if memory runs out.
///
/// In linear time in the update, in what the part keeps of its peers, and in the greatest number that the peer knows.
pub fn relevant(
    alloc: Global,
    update: &Update,
    part: &Part,
    peer: UnitId,
) -> Result<Update, NoMemory>
    ensures { IfOk result (λ cut. cut ≡ relevant part.now.peers update.now peer.0) }
{
    let known = sets_for(alloc, update, part.data().peers.as_slice(), peer)?;
    cut_update(alloc, update, &known)
}
