//! Random words that mostly draw a worker's own heaps.
ghost use Rattle.std.specs.Prelude.{◌+◌, ◌<◌, ◌≤◌};
ghost use Rattle.rand_core.specs.Steps.{stream_of, steps_u64_low};
ghost use Rattle.ea_engine.specs.Homes.{homing_step, IsAtHome, IsHome, IsWordAt};

use rand_core::utils::NextWord;
use rand_core::{Rng, utils};

/// Generator words below this, one in eight, make a random word.
const RANDOM: u64 = 1 << 61;

/// A random word adds a multiple of all heaps, below this.
const SPAN: u64 = 1 << 28;

/// The number of stored words.
const WORDS: usize = 8;

/// A generator whose words mostly draw the heaps of one worker. As a push's word or the first of a pop, each
/// stored word draws one of them in turn. As the second word of a pop, seven of eight draw the next own heap,
/// and about one in eight, chosen by the generator below, any other heap. So memory mostly stays in one
/// processor's cache. The promises about workers hold for any words.
#[derive(Drop)]
pub struct Homing<R> {
    below: R,
    words: [u32; WORDS],
    /// The number of heaps of all workers.
    heaps: u32,
    /// The index of the next stored word.
    place: usize,
}

/// The word that is `step` modulo `heaps - 1`, and `heap` modulo `heaps`. As the first word of a pop it draws
/// heap `heap`; as the second, the heap `step + 1` behind the first.
fn word_at(heaps: u32, step: u32, heap: u32) -> u32
    requires { (heap < heaps) × (step + 1 < heaps) × (heaps ≤ 128) }
    ensures { IsWordAt heaps step heap result }
{
    step + (heaps - 1) * ((step + heaps - heap) % heaps)
}

impl<R> Homing<R> {
    /// Words for a worker by its number, from 0, and the number of heaps for each worker.
    pub fn new(below: R, worker: u32, workers: u32, heaps: u32) -> Homing<R>
        requires { IsHome worker workers heaps }
        ensures { IsAtHome below worker workers heaps result }
    {
        let all = workers * heaps;
        let first = worker * heaps;
        let mut words = [0; WORDS];
        for place in 0..WORDS {
            let at = place as u32 % heaps;
            let step = if at == 0 { all - heaps } else { 0 };
            words[place] = word_at(all, step, first + at);
        }
        Homing {
            below,
            words,
            heaps: all,
            place: 0,
        }
    }
}

impl<R: NextWord<u64>> NextWord<u64> for Homing<R> {
    ghost step = { homing_step R.step };

    #[tactic(auto, unfolding(crate::specs::Homes::homing_step))]
    fn next_word(&mut self) -> u64 {
        let drawn = self.below.next_word();
        let own = u64::from(self.words[self.place % WORDS]);
        self.place = if self.place < WORDS - 1 {
            self.place + 1
        } else {
            0
        };
        if drawn < RANDOM {
            own + u64::from(self.heaps) * (drawn % SPAN)
        } else {
            own
        }
    }
}

impl<R: NextWord<u64>> Rng for Homing<R> {
    ghost stream = { stream_of (steps_u64_low (homing_step R.step)) };

    fn next_u32(&mut self) -> u32 {
        (self.next_word() % 4_294_967_296) as u32
    }

    fn next_u64(&mut self) -> u64 {
        self.next_word()
    }

    fn fill_bytes(&mut self, dst: &mut [u8]) {
        utils::fill_bytes_via_u64(self, dst)
    }
}
