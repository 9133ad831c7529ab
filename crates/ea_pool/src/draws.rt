//! Choosing the heaps that a call inspects.
ghost use Rattle.std.specs.Prelude.{◌≢◌, ◌*◌, ◌<◌, ◌≤◌};
ghost use Rattle.ea_pool.specs.Draws.{first_draw, second_draw, try_draw, IsDraw};
ghost use Rattle.ea_pool.specs.Solos.{IsLesser};

use crate::shared::words::MOST_IN_POOL;
use ea_base::LEAST_HEAPS;

/// The first heap of a pop, by its first word. Of several workers it is an own heap (`Homing`).
pub fn draw_first(heaps: usize, first: u64) -> usize
    requires { (LEAST_HEAPS ≤ heaps) × (heaps ≤ MOST_IN_POOL) }
    ensures { IsDraw heaps (first_draw heaps first) result }
{
    (first % heaps as u64) as usize
}

/// The second heap of a pop, another one. The pop takes from the one with the lesser word.
pub fn draw_second(heaps: usize, first: u64, second: u64) -> usize
    requires { (LEAST_HEAPS ≤ heaps) × (heaps ≤ MOST_IN_POOL) }
    ensures draw { IsDraw heaps (second_draw heaps first second) result }
    ensures other { result ≢ first_draw heaps first }
{
    let heaps = heaps as u64;
    // The sum is below 2 * heaps, so a comparison replaces a division.
    let place = first % heaps + 1 + second % (heaps - 1);
    (if place < heaps { place } else { place - heaps }) as usize
}

/// The heap of a push's attempt, from 0: in turn, beginning at the first draw.
pub fn draw_try(heaps: usize, word: u64, attempt: usize) -> usize
    requires { (LEAST_HEAPS ≤ heaps) × (heaps ≤ MOST_IN_POOL) × (attempt < 2 * heaps) }
    ensures { IsDraw heaps (try_draw heaps word attempt) result }
{
    // The first attempt, often the only one, takes no second division.
    let place = draw_first(heaps, word) + attempt;
    if place < heaps { place } else { place % heaps }
}

/// The lesser word with its heap; if the words are equal, the heap with the lower number.
pub fn pick(i: usize, x: u64, j: usize, y: u64) -> (usize, u64)
    ensures { IsLesser i x j y result }
{
    if y < x || (y == x && j < i) {
        (j, y)
    } else {
        (i, x)
    }
}
