//! One run of the top call.
ghost use Rattle.std.specs.Prelude.{◌<◌};

use std::alloc::Global;
use wf_io::{MemSink, MemSource, ScriptClock};
use wf_model::{Bytes, List, NoMemory, Status};
use wf_shelf::MemShelf;
use wf_top::mentor;

/// The ends of a run: how many bytes each call gives or takes at most, and the reads and writes that fail, counted
/// from 1.
#[derive(Clone, Copy)]
pub struct Ends<'a> {
    pub piece: u32,
    pub failing_reads: &'a [u32],
    pub failing_writes: &'a [u32],
}

/// How a run ended, and what it wrote.
#[derive(Drop)]
pub struct Outcome {
    pub status: Status,
    pub text: Bytes,
}

fn words_in(alloc: Global, line: &str) -> Result<List<Bytes>, NoMemory> {
    let mut words = List::new(alloc);
    for word in line.split_whitespace() {
        words.push(List::from_slice(alloc, word.as_bytes())?)?;
    }
    Ok(words)
}

/// Runs the words of a line over an input, with no journal.
pub fn run(alloc: Global, line: &str, input: Bytes, ends: Ends<'_>) -> Result<Outcome, NoMemory>
    requires { 0 < ends.piece }
{
    run_on(alloc, line, input, ends, &mut MemShelf::new(alloc))
}

/// The same, with the journals of this shelf.
pub fn run_on(
    alloc: Global,
    line: &str,
    input: Bytes,
    ends: Ends<'_>,
    shelf: &mut MemShelf,
) -> Result<Outcome, NoMemory>
    requires { 0 < ends.piece }
{
    let words = words_in(alloc, line)?;
    let failing_reads = List::from_slice(alloc, ends.failing_reads)?;
    let failing_writes = List::from_slice(alloc, ends.failing_writes)?;
    let mut moments = List::new(alloc);
    moments.push(0)?;
    let mut sink = MemSink::new(alloc, ends.piece, failing_writes);
    let status = mentor(
        alloc,
        &words,
        &mut MemSource::new(input, ends.piece, failing_reads),
        &mut sink,
        &mut ScriptClock::new(moments),
        shelf,
    );
    let text = List::from_slice(alloc, sink.bytes())?;
    Ok(Outcome { status, text })
}

/// The bytes of a chart and a script.
pub fn input_of(alloc: Global, chart: &str, script: &str) -> Result<Bytes, NoMemory> {
    let mut input = List::from_slice(alloc, chart.as_bytes())?;
    input.append(script.as_bytes())?;
    Ok(input)
}
