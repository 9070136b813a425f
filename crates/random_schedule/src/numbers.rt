//! The numbers that are drawn.

ghost use Rattle.random_schedule.specs.SplitMix.{below, next_state, number};
ghost use Rattle.std.specs.Prelude.{◌≡◌, ◌<◌};

use rand_core::SeedableRng;
use rand_core::utils::NextWord;
use rand_xoshiro::SplitMix64;
use std::marker::Model;

/// The numbers of 64 bits that SplitMix64 draws from a seed, one after another. A contract sees the generator's state.
#[derive(Drop)]
pub struct Numbers {
    generator: SplitMix64,
}

impl Model for Numbers {
    ghost use Rattle.std.specs.Prelude.{ℕ};

    ghost Value = { ℕ };

    ghost view = { λ n. n.generator };
}

impl Numbers {
    /// The numbers of a seed.
    pub fn new(seed: u64) -> Numbers
        ensures { result ≡ seed }
    {
        Numbers {
            generator: SplitMix64::seed_from_u64(seed),
        }
    }

    /// The next number.
    #[tactic(auto, unfolding(crate::specs::SplitMix::number, crate::specs::SplitMix::next_state))]
    pub fn draw(&mut self) -> u64
        ensures number { result ≡ number self.old }
        ensures state { self.new ≡ next_state self.old }
    {
        self.generator.next_word()
    }

    /// The next number modulo `bound`.
    pub fn below(&mut self, bound: u64) -> u64
        requires { 0 < bound }
        ensures number { result ≡ below bound self.old }
        ensures within { result < bound }
        ensures state { self.new ≡ next_state self.old }
    {
        self.draw() % bound
    }
}
