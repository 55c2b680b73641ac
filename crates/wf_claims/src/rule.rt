//! The rule of the word that counts, and its steps.
use atomic_table::{Join, Play, Split, TableRule};
use std::collections::LinkedList;

// What a seat knows. No value of it is made.
pub struct Hand {
    pub limit: u64,
    pub parts: u64,
    pub left: u64,
    pub drawn: LinkedList<u64>,
}

// How many numbers there are, and how many seats.
#[derive(Clone, Copy)]
pub struct Sizes {
    pub n: u32,
    pub seats: u32,
}

pub struct Draws;

impl TableRule<u8, Hand, Sizes> for Draws {
    ghost use Rattle.wf_claims.specs.Draws.{AreDrawn, first_hand};

    ghost holds = { AreDrawn };

    ghost first = { first_hand };
}

pub struct Draw;

impl Play<u8, Hand> for Draw {
    ghost use Rattle.wf_claims.specs.Draws.{HasDrawn};

    ghost then = { HasDrawn };
}

pub struct Nobody;

impl Play<u8, Hand> for Nobody {
    ghost use Rattle.wf_claims.specs.Draws.{IsNobody};

    ghost then = { IsNobody };
}

pub struct Cut;

impl Split<Hand> for Cut {
    ghost use Rattle.wf_claims.specs.Draws.{left_of, right_of};

    ghost left = { left_of };

    ghost right = { right_of };
}

pub struct Both;

impl Join<Hand> for Both {
    ghost use Rattle.std.specs.Prelude.{[]};
    ghost use Rattle.wf_claims.specs.Draws.{joined, hand};

    ghost both = { joined };

    ghost spent = { hand 0 0 0 [] };
}
