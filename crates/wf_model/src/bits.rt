//! A set of small numbers, as one bit for each.
ghost use Rattle.std.specs.Prelude.{◌≡◌, ◌<◌, false, true, length, replicate, slice_set, IfOk};
ghost use Rattle.wf_model.specs.Bits.{bit};

use crate::NoMemory;
use std::alloc::Global;
use std::marker::Model;

/// Bits by number, from 0 on. Contracts see them as a list of truths.
#[derive(Debug, Drop)]
pub struct Bits {
    bits: Vec<bool>,
}

impl Model for Bits {
    ghost use Rattle.std.specs.Prelude.{Bool, List};
    ghost use Rattle.std.specs.Coded.{codes};

    ghost Value = { List Bool };

    ghost coded = { Prim.hlevel codes };

    ghost view = { λ it. it.bits.items };
}

impl Bits {
    /// So many bits, none of them set. Linear in the count.
    pub fn none(alloc: Global, count: usize) -> Result<Bits, NoMemory>
        ensures { IfOk result (λ bits. bits ≡ replicate count false) }
    {
        let bits = vec![in alloc; false; count]?;
        Ok(Bits { bits })
    }

    /// How many bits there are, set or not.
    pub fn len(&self) -> usize
        ensures { result ≡ length self.now }
    {
        self.bits.len()
    }

    /// Whether this bit is set. One past the end isn't. In constant time.
    pub fn has(&self, at: usize) -> bool
        ensures { result ≡ bit self.now at }
    {
        match self.bits.get(at) {
            Some(is_set) => *is_set,
            None => false,
        }
    }

    /// Sets this bit. One past the end is passed over. In constant time.
    pub fn set(&mut self, at: usize)
        ensures { self.new ≡ slice_set self.old at true }
    {
        if at < self.bits.len() {
            self.bits[at] = true;
        }
    }
}
