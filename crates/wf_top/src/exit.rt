//! The number that the program ends with.
ghost use Rattle.std.specs.Prelude.{◌≡◌, IfOk, OnErr};
ghost use Rattle.wf_model.specs.Statuses.{number_of};

use wf_model::{NoMemory, Status};

/// The number that the program ends with: that of the status of its run, or that of want of memory where memory ran out
/// before the run began.
pub fn exit_number(run: Result<Status, NoMemory>) -> u8
    ensures ran { IfOk run (λ status. result ≡ number_of status) }
    ensures no_memory { OnErr run (result ≡ 7) }
{
    run.unwrap_or(Status::NoMemory).number()
}
