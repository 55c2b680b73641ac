//! The command `bulk`.
ghost use Rattle.std.specs.Prelude.{◌≡◌, IfOk};
ghost use Rattle.wf_gen.specs.GenText.{gen_text};
ghost use Rattle.wf_top.specs.Answers.{MayGive};
ghost use Rattle.wf_top.specs.Tasks.{HasStatus};
ghost use Rattle.wf_top.specs.declared.command.Task.TheVariants.{Run};

use crate::answer::{Answer, answer_to};
use crate::command::{Command, Telling};
use std::alloc::Global;
use wf_gen::gen_text;
use wf_model::limits::MAX_INPUT;
use wf_model::{List, NoMemory, Status};

/// The answer that sums up the play of the input that is generated from a number. Grows as that play does.
pub fn bulk(alloc: Global, number: u32) -> Result<Answer, NoMemory>
    ensures answer { IfOk result (λ a.
        MayGive (Command.Play (Telling.Summary number)) (gen_text number) a) }
    ensures status { IfOk result (λ a.
        HasStatus (Run (Command.Play (Telling.Summary number))) a.status 0 0) }
{
    let input = gen_text(alloc, number)?;
    if input.len() > MAX_INPUT {
        let line = List::from_slice(alloc, b"refused limit input\n")?;
        return Ok(Answer::new(Status::Limit, line));
    }
    let summed_up = Command::Play(Telling::Summary(number));
    answer_to(alloc, summed_up, input.as_slice())
}
