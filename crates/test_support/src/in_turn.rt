//! A generator that alternates between two words.
ghost use Rattle.std.specs.Prelude.{◌≡◌, ℕ, ◌%◌, ◌^◌};
ghost use Rattle.rand_core.specs.Steps.{stream_of, steps_u64_low};

use rand_core::utils::NextWord;
use rand_core::{Rng, utils};
use std::marker::Model;
use std::mem;

/// Returns `word`, `next`, `word`, `next` and so on.
#[derive(Drop)]
pub struct InTurn {
    pub word: u64,
    pub next: u64,
}

impl Model for InTurn {
    ghost Value = { ℕ × ℕ };

    ghost view = { λ g. (g.word, g.next) };
}

impl NextWord<u64> for InTurn {
    ghost step = { λ s. (s.0, (s.1, s.0)) };

    fn next_word(&mut self) -> u64 {
        mem::swap(&mut self.word, &mut self.next);
        self.next
    }
}

impl Rng for InTurn {
    ghost stream = { stream_of (steps_u64_low (λ (s : ℕ × ℕ). (s.0, (s.1, s.0)))) };

    fn next_u32(&mut self) -> u32 {
        (self.next_word() % 4_294_967_296) as u32
    }

    fn next_u64(&mut self) -> u64 {
        self.next_word()
    }

    fn fill_bytes(&mut self, dst: &mut [u8]) {
        utils::fill_bytes_via_u64(self, dst)
    }
}
