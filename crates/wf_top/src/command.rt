//! The commands.
ghost use Rattle.std.specs.Prelude.{◌≡◌};
ghost use Rattle.std.specs.List.{list_all};
ghost use Rattle.wf_model.specs.Names.{is_digit};
ghost use Rattle.wf_top.specs.Answers as spec;

use wf_cursor::number_up_to;
use wf_model::{Bytes, is_digit};

/// What is told of a play.
#[derive(Clone, Copy)]
pub enum Telling {
    /// The reply to each line, and the ending.
    Whole,
    /// One line that sums it up, as the play of the input that is generated from this number.
    Summary(u32),
}

/// What the words of a run ask of its input.
#[derive(Clone, Copy)]
pub enum Command {
    /// Check the chart of the input.
    Check,
    /// Run the script of the input on its chart, in one place.
    Central,
    /// Cut the chart of the input into the parts of its units.
    Split,
    /// Run the script of the input on the servers of the chart's units, and tell this of it.
    Play(Telling),
}

/// What a run is to do with its input.
#[derive(Clone, Copy)]
pub enum Task {
    /// What a command asks, by the input alone.
    Run(Command),
    /// To tell what the journals of the units of the input's chart hold.
    Trail,
}

fn command_named(word: &[u8]) -> Option<Command>
    ensures { result ≡ spec.command_named word.now }
{
    if word == b"check".as_slice() {
        Some(Command::Check)
    } else if word == b"central".as_slice() {
        Some(Command::Central)
    } else if word == b"split".as_slice() {
        Some(Command::Split)
    } else if word == b"play".as_slice() {
        Some(Command::Play(Telling::Whole))
    } else {
        None
    }
}

fn task_named(word: &[u8]) -> Option<Task>
    ensures { result ≡ spec.task_named word.now }
{
    if word == b"trail".as_slice() {
        return Some(Task::Trail);
    }
    match command_named(word) {
        Some(command) => Some(Task::Run(command)),
        None => None,
    }
}

/// The task that the words name.
pub fn task_of(words: &[Bytes]) -> Option<Task>
    ensures { result ≡ spec.task_of words.now }
{
    match words {
        [word] => task_named(word.as_slice()),
        _ => None,
    }
}

fn are_digits(word: &[u8]) -> bool
    ensures { result ≡ list_all is_digit word.now }
{
    word.iter().all(|byte| is_digit(*byte))
}

// Whether the word is 1 to 10 digits.
fn is_number(word: &[u8]) -> bool
    ensures { result ≡ spec.is_number word.now }
{
    1 <= word.len() && word.len() <= 10 && are_digits(word)
}

// The number that 1 to 10 digits write, if it is at most 4294967295.
#[tactic(auto, unfolding(crate::specs::Answers::written_number))]
fn written_number(word: &[u8]) -> Option<u32>
    ensures { result ≡ spec.written_number word.now }
{
    if !is_number(word) {
        return None;
    }
    match number_up_to(4_294_967_295, word) {
        Some(number) => Some(number as u32),
        None => None,
    }
}

// The number that stands behind this name, if the words are the name and a number.
fn number_behind(name: &[u8], words: &[Bytes]) -> Option<u32>
    ensures { result ≡ spec.number_behind name.now words.now }
{
    match words {
        [word, number] if word.as_slice() == name => written_number(number.as_slice()),
        _ => None,
    }
}

/// The number that input is to be generated from, if the words are `gen` and a number.
pub fn gen_number(words: &[Bytes]) -> Option<u32>
    ensures { result ≡ spec.gen_number words.now }
{
    number_behind(b"gen", words)
}

/// The number of the generated input whose play is to be summed up, if the words are `bulk` and a number.
pub fn bulk_number(words: &[Bytes]) -> Option<u32>
    ensures { result ≡ spec.bulk_number words.now }
{
    number_behind(b"bulk", words)
}
