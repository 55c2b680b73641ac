//! The top call.
ghost use Rattle.std.specs.Prelude.{◌≡◌, ◌≢◌, ◌⊎◌, ◌≤◌, ℕ, length, take, Some, None};
ghost use Rattle.std.specs.Io.KnownBytes.{Appends};
ghost use Rattle.wf_model.specs.Faults.{Rose};
ghost use Rattle.wf_trail.specs.Shelves.{KeepsDisks, KeepsBodies};
ghost use Rattle.wf_top.specs.Answers.{task_of};
ghost use Rattle.wf_top.specs.Top.{MayAnswer};
ghost use Rattle.wf_top.specs.declared.command.Task.TheVariants.{Trail};
ghost use Rattle.wf_model.specs.declared.status.Status.TheVariants.{WriteFault};

use crate::bulk::bulk;
use crate::command::{bulk_number, gen_number, task_of};
use crate::task::do_task;
use std::alloc::Global;
use wf_disk::DiskShelf;
use wf_gen::gen_text;
use wf_io::{Clock, InFault, Sink, Source, read_all, write_all};
use wf_model::limits::MAX_INPUT;
use wf_model::{Bytes, List, NoMemory, Status};

// Writes the text, and ends with the status where that succeeds.
fn finish<K: Sink>(sink: &mut K, status: Status, text: &[u8]) -> Status
    ensures { ((result ≡ WriteFault) × Rose (K.faults sink.old) (K.faults sink.new)
        × ((n : ℕ) × (n ≤ length text.now) × Appends (K.held sink.old) (K.held sink.new) (take n text.now)))
        ⊎ ((result ≡ status) × (K.faults sink.new ≡ K.faults sink.old) × Appends (K.held sink.old) (K.held sink.new) text.now) }
{
    match write_all(sink, text) {
        Ok(()) => status,
        Err(_) => Status::WriteFault,
    }
}

/// Does what the words say over all that the source has left, writes to the sink, and tells how it ended. The word
/// `check` checks the chart of an input, the word `central` runs its script on the chart, the word `split` cuts the chart
/// into the parts of its units, the word `play` runs its script on servers of all units, and the word `trail` tells what
/// the journals of all units hold, which stand on the shelf. The words `gen N` write the input that is generated from the
/// number N, and `bulk N` write a line that sums up the play of it; both leave the source as it was, and so do words that are
/// refused. The last moment that the clock gave stays the last one.
///
/// `Ok` comes if the text was written, and `WriteFault` if the sink failed. `Words` refuses the words, `ReadFault` tells that
/// the source failed, `ChartRefused` and `ScriptRefused` what is wrong with the input, `Limit` that the input, the messages or
/// the text are too large, `DiskFault` and `Journals` of the word `trail` that a disk failed or what is wrong with a journal, and
/// `NoMemory` that memory ran out; then nothing is written.
///
/// Grows with the input, with what is written, and with the states times their depth; a step of a run grows with the
/// states times their depth and with the transitions; `split` and the start of `play` grow with the states and with the
/// transitions, each times the transitions and the depth of states, and with the units times the chart; a line of `play`
/// grows with what its servers do; `bulk` grows as a play, and as a run of its steps; `trail` grows as `split` does, and
/// with the journals, for each turn with its unit's part and view.
pub fn mentor<S: Source, K: Sink, C: Clock, H: DiskShelf>(
    alloc: Global,
    words: &List<Bytes>,
    source: &mut S,
    sink: &mut K,
    clock: &mut C,
    shelf: &mut H,
) -> Status
    ensures clock { C.last clock.new ≡ C.last clock.old }
    ensures unread { task_of words.now ≡ None → source.new ≡ source.old }
    ensures untouched { task_of words.now ≢ Some Trail → shelf.new ≡ shelf.old }
    ensures disks { KeepsDisks (H.told shelf.old) (H.told shelf.new) }
    ensures bodies { KeepsBodies (H.told shelf.old) (H.told shelf.new) }
    ensures answer { MayAnswer words.now
        (record { left = S.left source.old; read_faults = S.faults source.old; held = K.held sink.old; write_faults = K.faults sink.old; shelf = H.told shelf.old })
        (record { left = S.left source.new; read_faults = S.faults source.new; held = K.held sink.new; write_faults = K.faults sink.new; shelf = H.told shelf.new })
        result }
{
    if let Some(number) = gen_number(words.as_slice()) {
        return match gen_text(alloc, number) {
            Ok(text) => finish(sink, Status::Ok, text.as_slice()),
            Err(NoMemory) => Status::NoMemory,
        };
    }
    if let Some(number) = bulk_number(words.as_slice()) {
        return match bulk(alloc, number) {
            Ok(found) => finish(sink, found.status, found.text.as_slice()),
            Err(NoMemory) => Status::NoMemory,
        };
    }
    let Some(task) = task_of(words.as_slice()) else {
        return finish(sink, Status::Words, b"refused words\n");
    };
    match read_all(alloc, source, MAX_INPUT as u32) {
        Err(InFault::ReadFailed) => finish(sink, Status::ReadFault, b"refused read\n"),
        Err(InFault::TooLong) => finish(sink, Status::Limit, b"refused limit input\n"),
        Err(InFault::NoMemory) => Status::NoMemory,
        Ok(input) => match do_task(alloc, task, input.as_slice(), shelf) {
            Err(NoMemory) => Status::NoMemory,
            Ok(found) => finish(sink, found.status, found.text.as_slice()),
        },
    }
}
