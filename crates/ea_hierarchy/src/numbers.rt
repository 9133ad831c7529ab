//! Least travel times and their sums, in 32 bits.
ghost use Rattle.std.specs.Prelude.{◌≡◌, ◌≤◌, ◌<◌, ◌+◌, ◌^◌, min};
ghost use Rattle.ea_hierarchy.specs.Numbers.{plus};

/// No walk.
pub const NONE: u32 = u32::MAX;

/// The greatest number of a walk: sums above it count as this.
pub const MOST: u32 = u32::MAX - 1;

/// The sum of two numbers that is above `MOST`, or of which one is `NONE`.
#[tactic(auto, unfolding(crate::specs::Numbers::plus))]
#[cold]
#[inline(never)]
fn far(first: u32, second: u32) -> u32
    requires { MOST < first + second }
    ensures { result ≡ plus first second }
{
    if first == NONE {
        return NONE;
    }
    if second == NONE {
        return NONE;
    }
    MOST
}

/// The sum of two numbers, at most `MOST`; `NONE` if one of them is.
#[tactic(auto, unfolding(crate::specs::Numbers::plus))]
#[inline(always)]
pub(crate) fn plus(first: u32, second: u32) -> u32
    ensures { result ≡ plus first second }
{
    // Nearly all sums are those of two walks, so one test comes first.
    let sum = u64::from(first) + u64::from(second);
    if sum <= u64::from(MOST) {
        return sum as u32;
    }
    far(first, second)
}

/// A least travel time as a number of a walk.
#[inline(always)]
pub(crate) fn capped(low: u64) -> u32
    ensures { result ≡ min low MOST }
{
    low.min(u64::from(MOST)) as u32
}

/// The number at a place of a list; `NONE` if there is none.
#[inline(always)]
pub(crate) fn number_at(list: &[u32], place: usize) -> u32 {
    match list.get(place) {
        Some(number) => *number,
        None => NONE,
    }
}

/// Writes a number at a place of a list, if there is one.
#[inline(always)]
pub(crate) fn write_number(list: &mut [u32], place: usize, number: u32) {
    if let Some(slot) = list.get_mut(place) {
        *slot = number;
    }
}
