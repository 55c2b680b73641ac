//! Sets of four and of sixteen words.
ghost use Rattle.std.specs.Prelude.{◌≤◌};

use std::alloc::Global;
use std::test::Fail;
use wf_masks::{Bits, fires};
use wf_model::NoMemory;

// The set of those of these numbers that it has room for.
fn set_of<const W: usize>(numbers: &[u32]) -> Bits<W>
    requires some { 1 ≤ W }
    requires few { W ≤ 64 }
{
    let mut bits = Bits::new();
    for number in numbers {
        if (*number as usize) < 64 * W {
            bits.set(*number);
        }
    }
    bits
}

// The numbers of a set, ascending.
fn numbers_in<const W: usize>(alloc: Global, bits: &Bits<W>) -> Result<Vec<u32>, NoMemory>
    requires { W ≤ 64 }
{
    let mut numbers = Vec::new(alloc);
    for number in 0..64 * W {
        if bits.has(number as u32) {
            numbers.push(number as u32)?;
        }
    }
    Ok(numbers)
}

#[test]
fn numbers_beside_the_ends_of_words(rt: HostRuntime) -> Result<(), Fail> {
    let bits: Bits<4> = set_of(&[0, 63, 64, 255]);
    let numbers = numbers_in(rt.alloc(), &bits)?;
    assert_eq!(rt; numbers.as_slice(), [0, 63, 64, 255].as_slice());
    assert!(rt; bits.meets(&set_of(&[64])));
    assert!(rt; !bits.meets(&set_of(&[65])));
    Ok(())
}

// The rows of 1,024 transitions, each of which the one before it blocks.
fn rows(alloc: Global) -> Result<Vec<Bits<16>>, NoMemory> {
    let mut rows = Vec::new(alloc);
    rows.push(Bits::new())?;
    for before in 0..1023 {
        rows.push(set_of(&[before]))?;
    }
    Ok(rows)
}

// The transitions that fire where these are enabled.
fn fired(alloc: Global, enabled: &[u32]) -> Result<Vec<u32>, Fail> {
    let rows = rows(alloc)?;
    if rows.len() > 1024 {
        Err("more rows than numbers")?;
    }
    let fired = fires(&set_of(enabled), rows.as_slice());
    Ok(numbers_in(alloc, &fired)?)
}

#[test]
fn transitions_beside_the_ends_of_words(rt: HostRuntime) -> Result<(), Fail> {
    for number in [63, 64, 1023] {
        let fired = fired(rt.alloc(), &[number])?;
        assert_eq!(rt; fired.as_slice(), [number].as_slice());
    }
    let fired = fired(rt.alloc(), &[63, 64, 1023])?;
    assert_eq!(rt; fired.as_slice(), [63, 1023].as_slice());
    Ok(())
}
