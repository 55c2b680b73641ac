//! Sets of small numbers, as words.
ghost use Rattle.std.specs.Prelude.{◌≡◌, ◌*◌, ◌<◌, ◌≤◌, false, true, replicate, slice_set};
ghost use Rattle.wf_model.specs.Bits.{bit};
ghost use Rattle.wf_masks.specs.Masks.{meet, share_bit};

use std::marker::Model;

/// A set of numbers below 64 * W, for W from 1 to 64, held in itself. Contracts see it as a truth for each of these numbers.
#[derive(Debug, Drop)]
pub struct Bits<const W: usize> {
    words: [u64; W],
}

impl<const W: usize> Model for Bits<W> {
    ghost use Rattle.std.specs.Prelude.{◌≡◌, ◌≤◌, Bool, List, length};
    ghost use Rattle.std.specs.Coded.{codes};
    ghost use Rattle.wf_masks.specs.Masks.{bits_of};

    ghost Value = { List Bool };

    ghost coded = { Prim.hlevel codes };

    ghost view = { λ it. bits_of it.words };

    ghost invariant = { λ it. (length it.words ≡ W) × (1 ≤ W) × (W ≤ 64) };
}

// Whether some bit is set in both words.
fn has_common(word: u64, other: u64) -> bool
    ensures { result ≡ share_bit word other }
{
    word & other != 0
}

impl<const W: usize> Bits<W> {
    /// No number.
    pub fn new() -> Bits<W>
        requires some { 1 ≤ W }
        requires few { W ≤ 64 }
        ensures { result ≡ replicate (64 * W) false }
    {
        Bits { words: [0; W] }
    }

    /// Puts a number in. In constant time.
    pub fn set(&mut self, i: u32)
        requires { i < 64 * W }
        ensures { self.new ≡ slice_set self.old i true }
    {
        let at = (i / 64) as usize;
        let word = self.words[at];
        self.words[at] = word | (1 << (i % 64));
    }

    /// Whether a number is in. In constant time.
    pub fn has(&self, i: u32) -> bool
        requires { i < 64 * W }
        ensures { result ≡ bit self.now i }
    {
        let word = self.words[(i / 64) as usize];
        (word >> (i % 64)) & 1 == 1
    }

    /// Whether some number is in both. In linear time in the words.
    pub fn meets(&self, other: &Bits<W>) -> bool
        ensures { result ≡ meet self.now other.now }
    {
        for at in 0..W {
            if has_common(self.words[at], other.words[at]) {
                return true;
            }
        }
        false
    }
}
