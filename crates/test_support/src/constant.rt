//! A generator that always returns one word.
ghost use Rattle.std.specs.Prelude.{◌≡◌, ℕ, ◌%◌, ◌^◌};
ghost use Rattle.rand_core.specs.Steps.{stream_of, steps_u64_low};

use rand_core::utils::NextWord;
use rand_core::{Rng, utils};
use std::marker::Model;

#[derive(Drop)]
pub struct Constant(pub u64);

impl Model for Constant {
    ghost Value = { ℕ };

    ghost view = { λ c. c.0 };
}

impl NextWord<u64> for Constant {
    ghost step = { λ s. (s, s) };

    fn next_word(&mut self) -> u64 {
        self.0
    }
}

impl Rng for Constant {
    ghost stream = { stream_of (steps_u64_low (λ s. (s, s))) };

    fn next_u32(&mut self) -> u32 {
        (self.next_word() % 4_294_967_296) as u32
    }

    fn next_u64(&mut self) -> u64 {
        self.next_word()
    }

    fn fill_bytes(&mut self, dst: &mut [u8]) {
        utils::fill_bytes_via_u64(self, dst)
    }
}
