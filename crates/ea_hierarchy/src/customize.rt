//! The numbers at upward arcs: those of the network's arcs, and over the lower ends of pairs.
ghost use Rattle.std.specs.Prelude.{◌≡◌, ◌≤◌, ◌<◌, ◌+◌, ◌-◌, ◌^◌, ℕ, IfOk, false, length, slice_index, true};
ghost use Rattle.ea_hierarchy.specs.Hierarchies.{AreNumbers, AreOver, AreTriangles, AreUpward, HasArc, IsFrom, Joins, Lowers};
ghost use Rattle.ea_hierarchy.specs.Numbers.{plus};

use crate::numbers::{NONE, plus};
use crate::upward::Upward;
use std::alloc::{AllocError, Global};

/// The numbers at upward arcs, for walks up and for walks down.
#[derive(Drop)]
pub(crate) struct Numbers {
    pub(crate) ups: Vec<u32>,
    pub(crate) downs: Vec<u32>,
}

impl Numbers {
    /// No walk over any of this many arcs.
    pub(crate) fn none(alloc: Global, arcs: usize) -> Result<Numbers, AllocError>
        ensures { IfOk result (λ numbers. (length numbers.ups.items ≡ arcs)
            × (length numbers.downs.items ≡ arcs)) }
    {
        let ups = vec![in alloc; NONE; arcs]?;
        let downs = vec![in alloc; NONE; arcs]?;
        Ok(Numbers { ups, downs })
    }

    /// No walk over any arc any more.
    pub(crate) fn forget(&mut self)
        ensures ups { length self.new.ups.items ≡ length self.old.ups.items }
        ensures downs { length self.new.downs.items ≡ length self.old.downs.items }
    {
        self.ups.fill(NONE);
        self.downs.fill(NONE);
    }
}

/// The only place at which the upward arc from a rank to another may be, by halves.
fn seek(upward: &Upward, low: u32, high: u32) -> usize
    requires upward { AreUpward upward.now.firsts.items upward.now.heads.items }
    requires low { low < length upward.now.firsts.items - 1 }
    ensures from { slice_index upward.now.firsts.items low ≤ result }
    ensures is { (place : ℕ) → Joins upward.now.firsts.items upward.now.heads.items low high place
        → result ≡ place }
{
    let mut from = upward.firsts[low as usize] as usize;
    let mut to = upward.firsts[low as usize + 1] as usize;
    while to - from > 1 {
        let middle = from + (to - from) / 2;
        if upward.heads[middle] <= high {
            from = middle;
        } else {
            to = middle;
        }
    }
    from
}

/// The place of the upward arc from a rank to another.
pub(crate) fn place_of(upward: &Upward, low: u32, high: u32) -> usize
    requires upward { AreUpward upward.now.firsts.items upward.now.heads.items }
    requires low { low < length upward.now.firsts.items - 1 }
    requires arc { HasArc upward.now.firsts.items upward.now.heads.items low high }
    ensures { Joins upward.now.firsts.items upward.now.heads.items low high result }
{
    seek(upward, low, high)
}

/// Whether there is an upward arc from a rank to another.
pub(crate) fn has_arc(upward: &Upward, low: u32, high: u32) -> bool
    requires upward { AreUpward upward.now.firsts.items upward.now.heads.items }
    requires low { low < length upward.now.firsts.items - 1 }
    ensures is { result ≡ true → HasArc upward.now.firsts.items upward.now.heads.items low high }
    ensures none { result ≡ false
        → HasArc upward.now.firsts.items upward.now.heads.items low high → ⊥ }
{
    let place = seek(upward, low, high);
    if place >= upward.firsts[low as usize + 1] as usize {
        return false;
    }
    upward.heads[place] == high
}

/// The first place from one on at which an upward arc has a head.
fn place_from(heads: &[u32], from: usize, head: u32) -> usize
    requires { (place : ℕ) × (from ≤ place) × (place < length heads.now)
        × (slice_index heads.now place ≡ head) }
    ensures from { from ≤ result }
    ensures inside { result < length heads.now }
    ensures head { slice_index heads.now result ≡ head }
    ensures first { (place : ℕ) → from ≤ place → place < length heads.now
        → slice_index heads.now place ≡ head → result ≤ place }
{
    let mut place = from;
    while heads[place] != head {
        place += 1;
    }
    place
}

/// Lowers the numbers of an arc to those over the lower end of two others.
fn lower(numbers: &mut Numbers, place: usize, later: usize, joining: usize)
    requires ups { joining < length numbers.old.ups.items }
    requires downs { joining < length numbers.old.downs.items }
    requires place { place < joining }
    requires later { later < joining }
    ensures lowers { Lowers joining numbers.old.ups.items numbers.old.downs.items
        numbers.new.ups.items numbers.new.downs.items }
    ensures up { slice_index numbers.new.ups.items joining
        ≤ plus (slice_index numbers.old.downs.items place)
        (slice_index numbers.old.ups.items later) }
    ensures down { slice_index numbers.new.downs.items joining
        ≤ plus (slice_index numbers.old.downs.items later)
        (slice_index numbers.old.ups.items place) }
{
    let up = plus(numbers.downs[place], numbers.ups[later]);
    let down = plus(numbers.downs[later], numbers.ups[place]);
    numbers.ups[joining] = numbers.ups[joining].min(up);
    numbers.downs[joining] = numbers.downs[joining].min(down);
}

/// Lowers the arcs that join the head of an arc of a rank with the heads of the later ones of this rank.
fn relax_arc(upward: &Upward, rank: u32, place: usize, numbers: &mut Numbers)
    requires upward { AreUpward upward.now.firsts.items upward.now.heads.items }
    requires rank { rank < length upward.now.firsts.items - 1 }
    requires place { IsFrom upward.now.firsts.items rank place }
    requires numbers { AreNumbers upward.now.heads.items numbers.old.ups.items
        numbers.old.downs.items }
    ensures lowers { Lowers (slice_index upward.now.firsts.items (rank + 1))
        numbers.old.ups.items numbers.old.downs.items
        numbers.new.ups.items numbers.new.downs.items }
    ensures triangles { AreOver upward.now.firsts.items upward.now.heads.items
        numbers.new.ups.items numbers.new.downs.items rank place
        (slice_index upward.now.firsts.items (rank + 1)) }
{
    let end = upward.firsts[rank as usize + 1] as usize;
    let head = upward.heads[place];
    let mut from = upward.firsts[head as usize] as usize;
    for later in place + 1..end {
        from = place_from(&upward.heads, from, upward.heads[later]);
        lower(numbers, place, later, from);
    }
}

/// Lowers the arcs that join two heads of a rank.
fn relax_rank(upward: &Upward, rank: u32, numbers: &mut Numbers)
    requires upward { AreUpward upward.now.firsts.items upward.now.heads.items }
    requires rank { rank < length upward.now.firsts.items - 1 }
    requires numbers { AreNumbers upward.now.heads.items numbers.old.ups.items
        numbers.old.downs.items }
    ensures lowers { Lowers (slice_index upward.now.firsts.items (rank + 1))
        numbers.old.ups.items numbers.old.downs.items
        numbers.new.ups.items numbers.new.downs.items }
    ensures triangles { (place : ℕ) → IsFrom upward.now.firsts.items rank place
        → AreOver upward.now.firsts.items upward.now.heads.items
        numbers.new.ups.items numbers.new.downs.items rank place
        (slice_index upward.now.firsts.items (rank + 1)) }
{
    let begin = upward.firsts[rank as usize] as usize;
    let end = upward.firsts[rank as usize + 1] as usize;
    for place in begin..end {
        relax_arc(upward, rank, place, numbers);
    }
}

/// Lowers the numbers until there is no shorter way over the lower end of two arcs than over the one that joins their heads. Takes time
/// in proportion to the triangles.
pub(crate) fn relax(upward: &Upward, numbers: &mut Numbers)
    requires upward { AreUpward upward.now.firsts.items upward.now.heads.items }
    requires few { length upward.now.firsts.items < 2 ^ 32 }
    requires numbers { AreNumbers upward.now.heads.items numbers.old.ups.items
        numbers.old.downs.items }
    ensures lowers { Lowers 0 numbers.old.ups.items numbers.old.downs.items
        numbers.new.ups.items numbers.new.downs.items }
    ensures triangles { AreTriangles (length upward.now.firsts.items - 1)
        upward.now.firsts.items upward.now.heads.items
        numbers.new.ups.items numbers.new.downs.items }
{
    for rank in 0..upward.firsts.len() - 1 {
        relax_rank(upward, rank as u32, numbers);
    }
}
