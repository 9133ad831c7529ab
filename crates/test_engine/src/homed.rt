//! Words that mostly draw a worker's own heaps.
use crate::asserts::{assert_none_wrong, assert_that};
use ea_engine::Homing;
use rand_core::{Rng, SeedableRng};
use rand_xoshiro::Xoshiro256PlusPlus;
use test_support::constant::Constant;

/// Whether two consecutive words, as a pop draws them, draw two different own heaps of a worker.
fn draws_its_own(first: u64, second: u64, worker: u32, workers: u32, heaps: u32) -> bool {
    let own = u64::from(heaps);
    let all = u64::from(workers).wrapping_mul(own);
    if all < 2 {
        return false;
    }
    let from = u64::from(worker).wrapping_mul(own);
    let end = from.wrapping_add(own);
    let i = first % all;
    let j = i.wrapping_add(1).wrapping_add(second % (all - 1)) % all;
    i != j && from <= i && i < end && from <= j && j < end
}

/// Whether 20 pairs of a worker's words draw its own heaps; false if there is no such worker.
fn all_draw_its_own(worker: u32, workers: u32, heaps: u32) -> bool {
    if worker >= workers || workers > 16 || heaps < 2 || heaps > 8 {
        return false;
    }
    let mut words = Homing::new(Constant(u64::MAX), worker, workers, heaps);
    let mut right = true;
    for _ in 0..20 {
        let first = words.next_u64();
        let second = words.next_u64();
        right &= draws_its_own(first, second, worker, workers, heaps);
    }
    right
}

/// Whether each of this many workers with this many heaps draws its own.
fn all_draw_their_own(workers: u32, heaps: u32) -> bool {
    let mut right = true;
    for worker in 0..workers {
        right &= all_draw_its_own(worker, workers, heaps);
    }
    right
}

/// The first number of workers of which one draws another's heaps.
fn wrong_workers() -> Option<usize> {
    for workers in 1..17u32 {
        let few = all_draw_their_own(workers, 2) && all_draw_their_own(workers, 4);
        if !few || !all_draw_their_own(workers, 8) {
            return Some(workers as usize);
        }
    }
    None
}

#[test]
fn words_draw_the_heaps_of_their_worker(rt: HostRuntime) {
    assert_none_wrong(&rt, wrong_workers());
}

/// Sets of heaps as bits: the bit of a heap's number, which is below 64.
fn bit_of(heap: u64) -> u64 {
    if heap < 64 { 1 << heap } else { 0 }
}

/// The number of heaps of each of three workers and, as bits, those of worker 1 and all others except its
/// first one.
const OWN: [(u32, u64, u64); 3] = [
    (2, 0b1100, 0b11_1011),
    (4, 0b1111_0000, 0b1111_1110_1111),
    (8, 0b1111_1111_0000_0000, 0b1111_1111_1111_1110_1111_1111),
];

/// The heaps that worker 1 of three draws by as many words as it has heaps, from 2 to 8.
fn drawn(heaps: u32) -> u64 {
    let mut bits = 0;
    if heaps < 2 || heaps > 8 {
        return bits;
    }
    let mut words = Homing::new(Constant(u64::MAX), 1, 3, heaps);
    let all = 3 * u64::from(heaps);
    for _ in 0..heaps {
        bits |= bit_of(words.next_u64() % all);
    }
    bits
}

/// The heap that a pop of worker 1 of three draws second by a random word; none if its first one isn't the
/// worker's first.
fn second_of(random: u64, heaps: u32) -> Option<u64> {
    if heaps < 2 || heaps > 8 {
        return None;
    }
    let mut words = Homing::new(Constant(random), 1, 3, heaps);
    let all = 3 * u64::from(heaps);
    let first = words.next_u64() % all;
    let second = words.next_u64() % (all - 1);
    if first != u64::from(heaps) {
        return None;
    }
    Some(first.wrapping_add(1).wrapping_add(second) % all)
}

/// The heaps drawn second by some random word below their number; none if a first one is wrong.
fn seconds(heaps: u32) -> Option<u64> {
    let mut bits = 0;
    for random in 0..(3 * u64::from(heaps)).saturating_sub(1) {
        match second_of(random, heaps) {
            Some(heap) => bits |= bit_of(heap),
            None => return None,
        }
    }
    Some(bits)
}

/// The index of the first number of heaps with other draws.
fn wrong_drawn() -> Option<usize> {
    for (place, (heaps, own, _)) in OWN.iter().enumerate() {
        if drawn(*heaps) != *own {
            return Some(place);
        }
    }
    None
}

/// The index of the first number of heaps with other draws by random words.
fn wrong_seconds() -> Option<usize> {
    for (place, (heaps, _, others)) in OWN.iter().enumerate() {
        if seconds(*heaps) != Some(*others) {
            return Some(place);
        }
    }
    None
}

#[test]
fn every_own_heap_is_drawn(rt: HostRuntime) {
    assert_none_wrong(&rt, wrong_drawn());
}

#[test]
fn random_words_draw_an_own_heap_first_and_then_any_other(rt: HostRuntime) {
    assert_none_wrong(&rt, wrong_seconds());
}

/// How many of 10,000 words aren't those of a generator that draws only its own heaps.
fn random_words() -> u32 {
    let mut words = Homing::new(Xoshiro256PlusPlus::seed_from_u64(1), 2, 4, 2);
    let mut own = Homing::new(Constant(u64::MAX), 2, 4, 2);
    let mut random = 0u32;
    for _ in 0..10_000 {
        if words.next_u64() != own.next_u64() {
            random = random.wrapping_add(1);
        }
    }
    random
}

#[test]
fn one_word_in_eight_is_random(rt: HostRuntime) {
    let random = random_words();
    assert_that(&rt, "about 1,250 words", 1_100 < random && random < 1_400);
}
