//! What comes of an input.
ghost use Rattle.std.specs.Prelude.{◌≡◌, ◌≢◌, ◌≤◌, length, IfOk};
ghost use Rattle.wf_model.specs.Limits.{max_input};
ghost use Rattle.wf_trail.specs.Shelves.{KeepsDisks, KeepsBodies};
ghost use Rattle.wf_top.specs.Tasks as spec;

use crate::answer::{Answer, answer_to};
use crate::command::Task;
use crate::trail::trail_answer;
use std::alloc::Global;
use wf_disk::DiskShelf;
use wf_model::NoMemory;

/// An answer that may come of a task, by an input and by the shelf. Only the trail asks the shelf for disks.
pub fn do_task<H: DiskShelf>(
    alloc: Global,
    task: Task,
    input: &[u8],
    shelf: &mut H,
) -> Result<Answer, NoMemory>
    requires { length input.now ≤ max_input }
    ensures answer { IfOk result (λ a. spec.MayCome task (H.told shelf.old) input.now a) }
    ensures status { IfOk result (λ a. spec.HasStatus task a.status (H.told shelf.old).faults (H.told shelf.new).faults) }
    ensures disks { KeepsDisks (H.told shelf.old) (H.told shelf.new) }
    ensures bodies { KeepsBodies (H.told shelf.old) (H.told shelf.new) }
    ensures untouched { task ≢ Task.Trail → shelf.new ≡ shelf.old }
{
    match task {
        Task::Run(command) => answer_to(alloc, command, input),
        Task::Trail => trail_answer(alloc, input, shelf),
    }
}
