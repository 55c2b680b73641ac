//! Tables by number, made once a call.
ghost use Rattle.std.specs.Prelude.{◌≡◌, None, map, slice_index, slice_index_or, IfOk};
ghost use Rattle.std.specs.List.{range_with_len};
ghost use Rattle.wf_actions.specs.Writes.{winner};
ghost use Rattle.wf_updates.specs.Tables.{count_of, entry, given_by, last_of};

use crate::numbers::past_numbers;
use std::alloc::Global;
use wf_actions::winning_write;
use wf_model::{List, NoMemory, Output, Val, Write};

/// At each number below the count how many of these numbers are it. In linear time in the count and the numbers.
pub fn counts_below(alloc: Global, count: usize, numbers: &[u32]) -> Result<Vec<u64>, NoMemory>
    ensures { IfOk result (λ counts. counts.items ≡ map (count_of numbers.now) (range_with_len 0 count)) }
{
    let mut counts: Vec<u64> = vec![in alloc; 0; count]?;
    for number in numbers {
        let at = *number as usize;
        if at < counts.len() {
            counts[at] += 1;
        }
    }
    Ok(counts)
}

/// The count at a number, or 0 past the end.
pub fn count_at(counts: &[u64], at: usize) -> u64
    ensures { result ≡ slice_index counts.now at }
{
    match counts.get(at) {
        Some(count) => *count,
        None => 0,
    }
}

/// At each variable's number below the count the value of the last output of it. In linear time in the count and the outputs.
pub fn last_below(
    alloc: Global,
    count: usize,
    outputs: &[Output],
) -> Result<Vec<Option<Val>>, NoMemory>
    ensures { IfOk result (λ last. last.items ≡ map (last_of outputs.now) (range_with_len 0 count)) }
{
    let mut last: Vec<Option<Val>> = vec![in alloc; None; count]?;
    for output in outputs {
        let at = output.var.0 as usize;
        if at < last.len() {
            last[at] = Some(output.val);
        }
    }
    Ok(last)
}

/// The value at a number, or none past the end.
pub fn value_at(values: &[Option<Val>], at: usize) -> Option<Val>
    ensures { result ≡ slice_index_or values.now at None }
{
    match values.get(at) {
        Some(value) => *value,
        None => None,
    }
}

/// At each variable's number below the count the write of it that stays. In linear time in the count and the writes.
pub fn writes_below(
    alloc: Global,
    count: usize,
    writes: &[Write],
) -> Result<Vec<Option<Write>>, NoMemory>
    ensures { IfOk result (λ best. best.items ≡ map (λ x. winner x writes.now) (range_with_len 0 count)) }
{
    let mut best: Vec<Option<Write>> = vec![in alloc; None; count]?;
    for write in writes {
        let at = write.var.0 as usize;
        if at < best.len() {
            best[at] = Some(winning_write(best[at], *write));
        }
    }
    Ok(best)
}

/// The write at a number, or none past the end.
pub fn write_at(writes: &[Option<Write>], at: usize) -> Option<Write>
    ensures { result ≡ slice_index_or writes.now at None }
{
    match writes.get(at) {
        Some(write) => *write,
        None => None,
    }
}

// The numbers of the pairs.
fn numbers_of<T: Copy>(alloc: Global, pairs: &[(u32, T)]) -> Result<Vec<u32>, NoMemory>
    ensures { IfOk result (λ numbers. numbers.items ≡ map (λ pair. pair.0) pairs.now) }
{
    let mut numbers = Vec::new(alloc);
    for pair in pairs {
        numbers.push(pair.0)?;
    }
    Ok(numbers)
}

// At each number below the count the first item that the pairs give it.
fn firsts_below<T: Copy>(
    alloc: Global,
    count: usize,
    pairs: &[(u32, T)],
) -> Result<Vec<Option<T>>, NoMemory>
    ensures { IfOk result (λ firsts. firsts.items ≡ map (given_by pairs.now) (range_with_len 0 count)) }
{
    let mut firsts: Vec<Option<T>> = vec![in alloc; None; count]?;
    for pair in pairs {
        let at = pair.0 as usize;
        if at < firsts.len() {
            firsts[at] = firsts[at].or(Some(pair.1));
        }
    }
    Ok(firsts)
}

/// A table by number: at each number the first item that the pairs give it, and nothing where they give none. In linear time in
/// the pairs and the greatest of their numbers.
pub fn table_of<T: Copy>(alloc: Global, pairs: &[(u32, T)]) -> Result<List<Option<T>>, NoMemory>
    ensures { IfOk result (λ table. entry table ≡ given_by pairs.now) }
{
    let numbers = numbers_of(alloc, pairs)?;
    let firsts = firsts_below(alloc, past_numbers(numbers.as_slice()), pairs)?;
    Ok(List::from_vec(firsts))
}

/// What stands at a number of a table, or nothing past the end. In constant time.
pub fn entry_at<T: Copy>(table: &List<Option<T>>, at: u32) -> Option<T>
    ensures { result ≡ entry table.now at }
{
    match table.as_slice().get(at as usize) {
        Some(slot) => *slot,
        None => None,
    }
}
