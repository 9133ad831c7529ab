//! A generator of three words in turn.
ghost use Rattle.std.specs.Prelude.{◌≡◌, ℕ, ◌+◌, ◌%◌};
ghost use Rattle.rand_core.specs.Steps.{stream_of, steps_u64_low};

use rand_core::utils::NextWord;
use rand_core::{Rng, utils};
use std::marker::Model;

/// Returns 0, 1, 2, 0, 1, 2 and so on.
#[derive(Drop)]
pub struct Turning(pub u64);

impl Model for Turning {
    ghost Value = { ℕ };

    ghost view = { λ t. t.0 };
}

impl NextWord<u64> for Turning {
    ghost step = { λ s. (s % 3, (s % 3 + 1) % 3) };

    fn next_word(&mut self) -> u64 {
        let word = self.0 % 3;
        self.0 = (word + 1) % 3;
        word
    }
}

impl Rng for Turning {
    ghost stream = { stream_of (steps_u64_low (λ s. (s % 3, (s % 3 + 1) % 3))) };

    fn next_u32(&mut self) -> u32 {
        (self.next_word() % 4_294_967_296) as u32
    }

    fn next_u64(&mut self) -> u64 {
        self.next_word()
    }

    fn fill_bytes(&mut self, dst: &mut [u8]) {
        utils::fill_bytes_via_u64(self, dst)
    }
}
