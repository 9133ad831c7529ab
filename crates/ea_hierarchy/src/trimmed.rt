//! The upward arcs of ranks with many of them, without those that two others replace: a bound needs no look at these.
ghost use Rattle.std.specs.Prelude.{◌≡◌, ◌≤◌, ◌<◌, ◌-◌, ◌^◌, ℕ, [], List, IfOk, IfSome, length, slice_index, true};
ghost use Rattle.ea_hierarchy.specs.Hierarchies.{AreUpward, IsFrom};
ghost use Rattle.ea_hierarchy.specs.Trimmed.{AreMarked, AreTrimmed, IsReplaced, IsTrimmed};

use crate::neighbours::count_of;
use crate::numbers::{number_at, plus};
use crate::upward::Upward;
use std::alloc::{AllocError, Global};

/// Ranks with fewer upward arcs have no row.
const LONG: usize = 128;

/// Rows are made for at most this many arcs, and for half as many more as there are nodes. Less than half of the arcs are left, of eight
/// bytes for each direction, so all rows take less than four bytes a node.
const MOST_ARCS: usize = 65_536;

/// An upward arc that is left: its head, and its number.
#[derive(Clone, Copy)]
pub(crate) struct Link {
    pub(crate) head: u32,
    pub(crate) number: u32,
}

/// The arcs of a rank that are left.
#[derive(Drop)]
pub(crate) struct LeftArcs {
    rank: u32,
    links: Vec<Link>,
}

/// The rows of ranks with many arcs. A search looks mostly at arcs of such ranks. A hint says which row may be a rank's, by the place of its
/// first arc; what the row says of itself decides.
#[derive(Drop)]
pub(crate) struct Trimmed {
    alloc: Global,
    /// Ranks with at least this many arcs have rows.
    long: usize,
    hints: Vec<u32>,
    rows: Vec<LeftArcs>,
    /// How many arcs are in no row of their ranks.
    pub(crate) left_out: u64,
}

/// Whether the arc at a place and the one at another from its head replace a later arc of its rank.
#[inline(always)]
fn replace(
    upward: &Upward,
    numbers: &[u32],
    rank: u32,
    place: usize,
    joining: usize,
    later: usize,
) -> bool
    requires upward { AreUpward upward.now.firsts.items upward.now.heads.items }
    requires numbers { length numbers.now ≡ length upward.now.heads.items }
    requires rank { rank < length upward.now.firsts.items - 1 }
    requires place { IsFrom upward.now.firsts.items rank place }
    requires later { IsFrom upward.now.firsts.items rank later × (place < later) }
    requires joining { slice_index upward.now.firsts.items
        (slice_index upward.now.heads.items place) ≤ joining }
    ensures { result ≡ true → IsReplaced upward.now.firsts.items upward.now.heads.items numbers.now rank
        later }
{
    let head = upward.heads[place];
    if joining >= upward.firsts[head as usize + 1] as usize {
        return false;
    }
    if upward.heads[joining] != upward.heads[later] {
        return false;
    }
    if numbers[later] < plus(numbers[place], numbers[joining]) {
        return false;
    }
    true
}

/// Marks the arcs of a rank after a place that the arc there replaces, together with one from its head.
fn mark(upward: &Upward, numbers: &[u32], rank: u32, place: usize, marks: &mut Vec<bool>)
    requires upward { AreUpward upward.now.firsts.items upward.now.heads.items }
    requires numbers { length numbers.now ≡ length upward.now.heads.items }
    requires rank { rank < length upward.now.firsts.items - 1 }
    requires place { IsFrom upward.now.firsts.items rank place }
    requires marked { AreMarked upward.now.firsts.items upward.now.heads.items numbers.now rank
        marks.old.items }
    ensures { AreMarked upward.now.firsts.items upward.now.heads.items numbers.now rank
        marks.new.items }
{
    let begin = upward.firsts[rank as usize] as usize;
    let end = upward.firsts[rank as usize + 1] as usize;
    let head = upward.heads[place];
    let mut joining = upward.firsts[head as usize] as usize;
    let last = upward.firsts[head as usize + 1] as usize;
    for later in place + 1..end {
        let wanted = upward.heads[later];
        while joining < last && upward.heads[joining] < wanted {
            joining += 1;
        }
        if replace(upward, numbers, rank, place, joining, later) {
            marks[later - begin] = true;
        }
    }
}

/// The arcs of a rank that no others replace, by ascending numbers, so that those that can't matter come last.
fn links_of(
    alloc: Global,
    upward: &Upward,
    numbers: &[u32],
    rank: u32,
) -> Result<Vec<Link>, AllocError>
    requires upward { AreUpward upward.now.firsts.items upward.now.heads.items }
    requires numbers { length numbers.now ≡ length upward.now.heads.items }
    requires rank { rank < length upward.now.firsts.items - 1 }
    ensures { IfOk result (λ links. IsTrimmed upward.now.firsts.items upward.now.heads.items numbers.now
        rank links.items) }
{
    let begin = upward.firsts[rank as usize] as usize;
    let end = upward.firsts[rank as usize + 1] as usize;
    let mut marks = vec![in alloc; false; end - begin]?;
    for place in begin..end {
        if !marks[place - begin] {
            mark(upward, numbers, rank, place, &mut marks);
        }
    }
    let mut left = 0usize;
    for is_marked in &marks {
        left = left.saturating_add(usize::from(!*is_marked));
    }
    let mut links = Vec::with_capacity(alloc, left)?;
    for place in begin..end {
        if !marks[place - begin] {
            links.push(Link {
                head: upward.heads[place],
                number: numbers[place],
            })?;
        }
    }
    links.sort_unstable_by_key(|link| link.number);
    Ok(links)
}

/// How many upward arcs the ranks have together that have at least this many.
fn arcs_of_long(upward: &Upward, long: usize) -> usize {
    let mut arcs = 0usize;
    let mut begin = 0u32;
    for first in &upward.firsts {
        let here = first.saturating_sub(begin) as usize;
        if here >= long {
            arcs = arcs.saturating_add(here);
        }
        begin = *first;
    }
    arcs
}

/// How many upward arcs a rank needs to have a row, so that rows are made for no more arcs than may be.
fn least_long(upward: &Upward) -> usize {
    let most = (upward.parents.len() / 2).saturating_add(MOST_ARCS);
    let mut long = LONG;
    for _ in 0..u32::BITS {
        if arcs_of_long(upward, long) <= most {
            return long;
        }
        long = long.saturating_add(long / 4);
    }
    usize::MAX
}

impl Trimmed {
    /// No rows.
    pub(crate) fn none(alloc: Global) -> Trimmed
        ensures { result.rows.items ≡ [] }
    {
        Trimmed {
            alloc,
            long: LONG,
            hints: Vec::new(alloc),
            rows: Vec::new(alloc),
            left_out: 0,
        }
    }

    /// Adds the row of a rank whose first arc is at a place.
    fn add(&mut self, rank: u32, begin: usize, links: Vec<Link>) -> Result<(), AllocError>
        ensures { (firsts heads numbers : List ℕ) → AreTrimmed firsts heads numbers self.old.rows.items
            → IsTrimmed firsts heads numbers rank links.items
            → AreTrimmed firsts heads numbers self.new.rows.items }
    {
        let row = count_of(self.rows.len());
        if let Some(hint) = self.hints.get_mut(begin / LONG) {
            *hint = row;
        }
        self.rows.push(LeftArcs { rank, links })?;
        Ok(())
    }

    /// Makes the rows of all ranks with many arcs. If memory is refused, the others have none.
    pub(crate) fn fill(&mut self, upward: &Upward, numbers: &[u32]) -> Result<(), AllocError>
        requires upward { AreUpward upward.now.firsts.items upward.now.heads.items }
        requires few { length upward.now.firsts.items < 2 ^ 32 }
        requires numbers { length numbers.now ≡ length upward.now.heads.items }
        ensures { AreTrimmed upward.now.firsts.items upward.now.heads.items numbers.now
            self.new.rows.items }
    {
        self.left_out = 0;
        self.long = least_long(upward);
        self.rows.clear();
        self.hints.clear();
        self.hints.resize(upward.heads.len() / LONG + 1, 0)?;
        for rank in 0..upward.firsts.len() - 1 {
            let begin = upward.firsts[rank] as usize;
            let arcs = upward.firsts[rank + 1] as usize - begin;
            if arcs >= self.long {
                let links = links_of(self.alloc, upward, numbers, rank as u32)?;
                let more = arcs.saturating_sub(links.len()) as u64;
                self.left_out = self.left_out.saturating_add(more);
                self.add(rank as u32, begin, links)?;
            }
        }
        Ok(())
    }

    /// The arcs of a rank that are left; none if it has no row.
    pub(crate) fn links(&self, upward: &Upward, rank: u32) -> Option<&[Link]>
        requires rank { rank < length upward.now.firsts.items - 1 }
        ensures { (firsts heads numbers : List ℕ) → AreTrimmed firsts heads numbers self.now.rows.items
            → IfSome result (λ links. IsTrimmed firsts heads numbers rank links.now) }
    {
        let begin = upward.firsts[rank as usize] as usize;
        let end = upward.firsts[rank as usize + 1] as usize;
        // Most ranks have few arcs: hints and rows aren't touched for them.
        if end.saturating_sub(begin) < self.long {
            return None;
        }
        let row = self
            .rows
            .get(number_at(&self.hints, begin / LONG) as usize)?;
        if row.rank == rank {
            Some(&row.links)
        } else {
            None
        }
    }
}
