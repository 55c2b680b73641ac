//! Numbers that are drawn one after another.
ghost use Rattle.std.specs.Prelude.{◌≡◌, ◌<◌};
ghost use Rattle.wf_gen.specs.Draws as spec;

use std::marker::Model;

const MULTIPLIER: u64 = 6_364_136_223_846_793_005;

const INCREMENT: u64 = 1_442_695_040_888_963_407;

/// Where the draws are. Contracts see it as the number that the next draw begins with.
#[derive(Drop)]
pub struct Draws {
    x: u64,
}

impl Model for Draws {
    ghost use Rattle.std.specs.Prelude.{ℕ};

    ghost Value = { ℕ };

    ghost view = { λ draws. draws.x };
}

impl Draws {
    /// Before the first draw. Takes no memory.
    pub fn new(n: u32) -> Draws
        ensures { result ≡ n }
    {
        Draws { x: n as u64 }
    }

    /// A number below `m`. In constant time.
    #[tactic(auto, using(crate::proofs::Drawn::drawn), unfolding(crate::specs::Draws::next, crate::specs::Draws::after))]
    pub fn draw(&mut self, m: u64) -> u64
        requires { 0 < m }
        ensures next { self.new ≡ spec.next self.old }
        ensures value { result ≡ spec.draw self.old 1 m }
        ensures below { result < m }
    {
        self.x = self.x.wrapping_mul(MULTIPLIER).wrapping_add(INCREMENT);
        (self.x >> 33) % m
    }
}
