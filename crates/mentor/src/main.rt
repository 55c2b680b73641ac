//! The program: it gives the words of the command line, standard input, standard output, the clock
//! and the folder of the journals to the top call, and ends with the number of its status. It
//! decides no more than that the first word is the program's own name, that words which aren't text
//! are none, and what the folder is called.
//!
//! - Promises: nothing; what it does is `wf_top::mentor`, over the system's ends of `wf_io` and the
//!   shelf of `wf_files`.
//! - Doesn't say: that the system gives and takes what std's statements say, which is trusted.
//! - A caller: the launcher `mentor` at the top of the repository.
//! - A change begins here only if a run is to get another end from the system.
#![tactic(auto)]

use std::env;
use std::io::ErrorKind;
use std::process::ExitCode;
use wf_files::DirShelf;
use wf_io::{StdClock, StdSink, StdSource};
use wf_model::{Bytes, List, NoMemory, Status};
use wf_top::{exit_number, mentor};

/// The folder of the journals, in the one where the program runs.
const JOURNALS: &str = "mentor-journals";

/// The words after the program's name. None of them where one isn't text: no command has no words.
fn words(rt: &HostRuntime) -> Result<List<Bytes>, NoMemory> {
    let alloc = rt.alloc();
    let mut words = List::new(alloc);
    match env::args(rt) {
        Ok(args) => {
            for word in args.skip(1) {
                words.push(List::from_slice(alloc, word.as_bytes())?)?;
            }
            Ok(words)
        }
        Err(error) if error.kind() == ErrorKind::OutOfMemory => Err(NoMemory),
        Err(_) => Ok(words),
    }
}

/// Does what the words say. Where memory runs out before, nothing is read or written. The shelf asks the system for
/// nothing before a disk is taken from it.
fn run(rt: &HostRuntime) -> Result<Status, NoMemory> {
    let words = words(rt)?;
    let mut shelf = DirShelf::new(rt, rt.alloc(), JOURNALS)?;
    Ok(mentor(
        rt.alloc(),
        &words,
        &mut StdSource::new(rt.stdin()),
        &mut StdSink::new(rt.stdout()),
        &mut StdClock::new(rt),
        &mut shelf,
    ))
}

fn main(rt: HostRuntime) -> ExitCode {
    ExitCode::from(exit_number(run(&rt)))
}
