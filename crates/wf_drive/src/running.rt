//! A script, line after line.
ghost use Rattle.std.specs.Prelude.{◌≡◌, map, IfOk, IfErr};
ghost use Rattle.wf_drive.specs.Driven.{Runs, MayStop};

use crate::Servers;
use std::alloc::Global;
use wf_model::{List, NoMemory};

/// What came of a script: the replies, each with the number of its line, and the ending.
#[derive(Drop)]
pub struct Driven<R, E> {
    pub replies: List<(u32, R)>,
    pub ending: E,
}

/// Why a script wasn't run to its end.
#[derive(Drop)]
pub enum DriveFault<F> {
    /// The servers answered this.
    Servers(F),
    /// Memory ran out.
    NoMemory,
}

/// Has the servers act each line once, in order, and then finish. What it gives is a run of their own: each reply and the
/// ending are what they may answer from where the lines before led them. Linear in the lines.
pub fn drive<S: Servers>(
    alloc: Global,
    servers: &mut S,
    lines: &List<(u32, S::Line)>,
) -> Result<Driven<S::Reply, S::Ending>, DriveFault<S::Fault>>
where
    S::Reply: Drop,
    S::Ending: Drop,
    S::Fault: Drop,
    requires { S.fits (S.state servers.old) (map (λ x. x.1) lines.now) }
    ensures run { IfOk result (λ driven. (t : S.State) × Runs S.acts (S.state servers.old) lines.now driven.replies t
        × S.finishes t driven.ending (S.state servers.new)) }
    ensures fault { IfErr result (λ fault. MayStop S.acts S.may_refuse S.may_break (S.state servers.old) lines.now fault) }
{
    let mut replies = List::new(alloc);
    for i in 0..lines.len() {
        let (number, line) = &lines.as_slice()[i];
        match servers.act(line) {
            Ok(reply) => {
                if let Err(NoMemory) = replies.push((*number, reply)) {
                    return Err(DriveFault::NoMemory);
                }
            }
            Err(fault) => return Err(DriveFault::Servers(fault)),
        }
    }
    match servers.finish() {
        Ok(ending) => Ok(Driven { replies, ending }),
        Err(fault) => Err(DriveFault::Servers(fault)),
    }
}
