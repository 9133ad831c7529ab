//! A generator that always returns one word, and takes all memory at one of its calls.
ghost use Rattle.std.specs.Prelude.{◌≡◌, ℕ, ◌%◌, ◌^◌};
ghost use Rattle.rand_core.specs.Steps.{stream_of, steps_u64_low};

use rand_core::utils::NextWord;
use rand_core::{Rng, utils};
use std::marker::Model;
use test_support::memory::Held;

#[derive(Drop)]
pub struct Greedy {
    pub word: u64,
    /// After this many calls the next one takes all memory.
    pub calls_left: u32,
    pub held: Held,
}

impl Model for Greedy {
    ghost Value = { ℕ };

    ghost view = { λ g. g.word };
}

impl NextWord<u64> for Greedy {
    ghost step = { λ s. (s, s) };

    fn next_word(&mut self) -> u64 {
        if self.calls_left > 0 {
            self.calls_left -= 1;
        } else {
            self.held.take_all();
        }
        self.word
    }
}

impl Rng for Greedy {
    ghost stream = { stream_of (steps_u64_low (λ s. (s, s))) };

    fn next_u32(&mut self) -> u32 {
        (self.next_word() % 4_294_967_296) as u32
    }

    fn next_u64(&mut self) -> u64 {
        self.next_word()
    }

    fn fill_bytes(&mut self, dst: &mut [u8]) {
        utils::fill_bytes_via_u64(self, dst)
    }
}
