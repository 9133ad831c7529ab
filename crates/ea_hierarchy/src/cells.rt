//! What is known of each rank for one target.
ghost use Rattle.std.specs.Prelude.{◌≡◌, ◌≤◌, ◌<◌, ◌+◌, ◌-◌, ◌^◌, ℕ, Contains, IfOk, [], length, slice_index, true};
ghost use Rattle.std.specs.Vec.{vec_capacity};
ghost use Rattle.ea_hierarchy.specs.Hierarchies.{AreNumbers, AreParents, AreUpward, IsFrom};
ghost use Rattle.ea_hierarchy.specs.declared.numbers.TheConstants.{NONE};

use crate::customize::Numbers;
use crate::numbers::{NONE, plus};
use crate::trimmed::{Link, Trimmed};
use crate::upward::Upward;
use std::alloc::{AllocError, Global};

/// The cell of a rank. With a stamp below that of the cells it is stale; with one above, its bound is found.
#[derive(Clone, Copy)]
pub(crate) struct Cell {
    pub(crate) stamp: u32,
    pub(crate) reach: u32,
    pub(crate) bound: u32,
}

/// The greatest stamp of cells: that of a cell is one more at most.
const MOST_STAMP: u32 = 4_294_967_280;

/// What cells are found for. The stamp is raised for each target, so that no cell has to be cleared.
#[derive(Clone, Copy)]
pub(crate) struct Aim {
    pub(crate) stamp: u32,
    /// The end of the look: all that is farther from the target counts as this far.
    pub(crate) far: u32,
    /// The highest rank that is reached within.
    pub(crate) top: u32,
}

/// The cells of all ranks.
#[derive(Drop)]
pub(crate) struct Cells {
    pub(crate) aim: Aim,
    pub(crate) list: Vec<Cell>,
}

impl Cells {
    ghost use Rattle.ea_hierarchy.specs.Cells.{AreFound, AreReached, AreStale, AreWithin, FindsMore, IsBegun, IsFinal, IsHighest, IsPath, IsSameAbove, IsTopFound, IsWayFrom, LowersReach, RelaxesLinks, RelaxesReach, bound_at, reach_of, worth_of};
    ghost use Rattle.ea_hierarchy.specs.Potentials.{IsReach};
    ghost use Rattle.ea_hierarchy.specs.Trimmed.{AreAscending, AreTrimmed, IsLeastBy};
    ghost use Rattle.ea_hierarchy.specs.declared.trimmed.Link.{Link};

    /// Stale cells of this many ranks.
    pub(crate) fn new(alloc: Global, ranks: usize) -> Result<Cells, AllocError>
        ensures count { IfOk result (λ cells. length cells.list.items ≡ ranks) }
        ensures stamps { IfOk result (λ cells. AreReached (cells.aim.stamp + 1) cells.list.items) }
    {
        let cell = Cell {
            stamp: 0,
            reach: NONE,
            bound: NONE,
        };
        let list = vec![in alloc; cell; ranks]?;
        let aim = Aim {
            stamp: 1,
            far: NONE,
            top: 0,
        };
        Ok(Cells { aim, list })
    }

    /// Makes all cells stale, for a look that ends this far from its target.
    fn raise(&mut self, far: u32)
        requires { AreReached (self.old.aim.stamp + 1) self.old.list.items }
        ensures count { length self.new.list.items ≡ length self.old.list.items }
        ensures stale { AreStale self.new.aim.stamp self.new.list.items }
        ensures aim { (self.new.aim.stamp ≤ 4294967282) × (self.new.aim.far ≡ far) }
    {
        self.aim.far = far;
        if self.aim.stamp <= MOST_STAMP {
            self.aim.stamp += 2;
            return;
        }
        self.list.fill(Cell {
            stamp: 0,
            reach: NONE,
            bound: NONE,
        });
        self.aim.stamp = 1;
    }

    /// What is reached at a rank.
    fn reach(&self, rank: u32) -> u32
        requires { rank < length self.now.list.items }
        ensures { result ≡ reach_of self.now.aim self.now.list.items rank }
    {
        let cell = self.list[rank as usize];
        if self.aim.stamp <= cell.stamp {
            cell.reach
        } else {
            self.aim.far
        }
    }

    /// Reaches a rank by this number at the latest.
    fn lower(&mut self, rank: u32, reach: u32)
        requires { rank < length self.old.list.items }
        ensures aim { self.new.aim ≡ self.old.aim }
        ensures lowers { LowersReach self.old.aim self.old.list.items self.new.list.items
            rank reach }
    {
        let least = self.reach(rank).min(reach);
        self.list[rank as usize] = Cell {
            stamp: self.aim.stamp,
            reach: least,
            bound: NONE,
        };
    }

    /// The same, unless the number is beyond the end of the look. Returns the highest of the ranks that were reached so far.
    fn lower_within(&mut self, rank: u32, reach: u32, highest: u32) -> u32
        requires rank { rank < length self.old.list.items }
        requires within { AreWithin self.old.aim self.old.list.items }
        ensures aim { self.new.aim ≡ self.old.aim }
        ensures lowers { LowersReach self.old.aim self.old.list.items self.new.list.items
            rank reach }
        ensures above { IsSameAbove self.old.aim self.old.list.items self.new.list.items
            highest result }
    {
        if reach >= self.aim.far {
            return highest;
        }
        self.lower(rank, reach);
        highest.max(rank)
    }

    /// Reaches the heads of a rank over all its arcs. Returns the highest that it reached within.
    fn relax_arcs(&mut self, upward: &Upward, numbers: &Numbers, rank: u32) -> u32
        requires upward { AreUpward upward.now.firsts.items upward.now.heads.items }
        requires numbers { AreNumbers upward.now.heads.items numbers.now.ups.items
            numbers.now.downs.items }
        requires rank { rank < length upward.now.firsts.items - 1 }
        requires count { length self.old.list.items ≡ length upward.now.firsts.items - 1 }
        requires within { AreWithin self.old.aim self.old.list.items }
        ensures aim { self.new.aim ≡ self.old.aim }
        ensures relaxes { RelaxesReach upward.now.firsts.items upward.now.heads.items
            numbers.now.downs.items self.old.aim self.old.list.items self.new.list.items rank
            (slice_index upward.now.firsts.items (rank + 1)) result }
    {
        let reach = self.reach(rank);
        let begin = upward.firsts[rank as usize] as usize;
        let end = upward.firsts[rank as usize + 1] as usize;
        let mut highest = 0;
        for place in begin..end {
            let sum = plus(numbers.downs[place], reach);
            highest = self.lower_within(upward.heads[place], sum, highest);
        }
        highest
    }

    /// Reaches the heads of links from what is reached at their rank. Returns the highest that it reached within.
    fn relax_links(&mut self, links: &[Link], reach: u32) -> u32
        requires links { (link : Link) → Contains links.now link
            → link.head < length self.old.list.items }
        requires ascending { AreAscending links.now }
        requires within { AreWithin self.old.aim self.old.list.items }
        ensures aim { self.new.aim ≡ self.old.aim }
        ensures relaxes { RelaxesLinks self.old.aim self.old.list.items self.new.list.items
            links.now reach (length links.now) result }
    {
        let mut highest = 0;
        for link in links {
            let sum = plus(link.number, reach);
            if sum >= self.aim.far {
                return highest;
            }
            highest = self.lower_within(link.head, sum, highest);
        }
        highest
    }

    /// Reaches the heads of a rank over those of its arcs that are left. Returns the highest that it reached within.
    fn relax(&mut self, upward: &Upward, numbers: &Numbers, trimmed: &Trimmed, rank: u32) -> u32
        requires upward { AreUpward upward.now.firsts.items upward.now.heads.items }
        requires numbers { AreNumbers upward.now.heads.items numbers.now.ups.items
            numbers.now.downs.items }
        requires trimmed { AreTrimmed upward.now.firsts.items upward.now.heads.items
            numbers.now.downs.items trimmed.now.rows.items }
        requires rank { rank < length upward.now.firsts.items - 1 }
        requires count { length self.old.list.items ≡ length upward.now.firsts.items - 1 }
        requires within { AreWithin self.old.aim self.old.list.items }
        ensures aim { self.new.aim ≡ self.old.aim }
        ensures relaxes { RelaxesReach upward.now.firsts.items upward.now.heads.items
            numbers.now.downs.items self.old.aim self.old.list.items self.new.list.items rank
            (slice_index upward.now.firsts.items (rank + 1)) result }
    {
        let reach = self.reach(rank);
        if reach >= self.aim.far {
            return 0;
        }
        match trimmed.links(upward, rank) {
            Some(links) => self.relax_links(links, reach),
            None => self.relax_arcs(upward, numbers, rank),
        }
    }

    /// Reaches ranks downward from a target, on its path of lowest heads. Returns the highest that is reached within.
    fn reach_up(
        &mut self,
        upward: &Upward,
        numbers: &Numbers,
        trimmed: &Trimmed,
        target: u32,
    ) -> u32
        requires upward { AreUpward upward.now.firsts.items upward.now.heads.items }
        requires numbers { AreNumbers upward.now.heads.items numbers.now.ups.items
            numbers.now.downs.items }
        requires trimmed { AreTrimmed upward.now.firsts.items upward.now.heads.items
            numbers.now.downs.items trimmed.now.rows.items }
        requires target { target < length upward.now.firsts.items - 1 }
        requires count { length self.old.list.items ≡ length upward.now.firsts.items - 1 }
        requires stale { AreStale self.old.aim.stamp self.old.list.items }
        requires few { self.old.aim.far ≤ NONE }
        ensures aim { self.new.aim ≡ self.old.aim }
        ensures count { length self.new.list.items ≡ length self.old.list.items }
        ensures reached { AreReached self.new.aim.stamp self.new.list.items }
        ensures above { IsHighest self.new.aim self.new.list.items result }
        ensures reach { IsReach (length upward.now.firsts.items - 1) upward.now.firsts.items
            upward.now.heads.items numbers.now.downs.items target
            (reach_of self.new.aim self.new.list.items) }
    {
        self.lower(target, 0);
        let mut rank = target;
        let mut top = target;
        loop {
            let highest = self.relax(upward, numbers, trimmed, rank);
            top = top.max(highest);
            let first = upward.firsts[rank as usize];
            if first >= upward.firsts[rank as usize + 1] {
                return top;
            }
            rank = upward.heads[first as usize];
            if rank > top {
                return top;
            }
        }
    }

    /// Reaches ranks downward from a target, no farther than this.
    pub(crate) fn begin(
        &mut self,
        upward: &Upward,
        numbers: &Numbers,
        trimmed: &Trimmed,
        target: u32,
        far: u32,
    )
        requires upward { AreUpward upward.now.firsts.items upward.now.heads.items }
        requires numbers { AreNumbers upward.now.heads.items numbers.now.ups.items
            numbers.now.downs.items }
        requires trimmed { AreTrimmed upward.now.firsts.items upward.now.heads.items
            numbers.now.downs.items trimmed.now.rows.items }
        requires target { target < length upward.now.firsts.items - 1 }
        requires count { length self.old.list.items ≡ length upward.now.firsts.items - 1 }
        requires stamps { AreReached (self.old.aim.stamp + 1) self.old.list.items }
        ensures { IsBegun upward.now.firsts.items upward.now.heads.items numbers.now.downs.items
            target self.new.aim self.new.list.items }
    {
        self.raise(far);
        self.aim.top = self.reach_up(upward, numbers, trimmed, target);
    }

    /// The bound that is found of a rank.
    #[inline(always)]
    pub(crate) fn bound(&self, rank: u32) -> u32
        requires { rank < length self.now.list.items }
        ensures { result ≡ bound_at self.now.aim self.now.list.items rank }
    {
        if self.aim.top < rank {
            self.aim.far
        } else {
            self.list[rank as usize].bound
        }
    }

    /// The least of what is reached and of what the heads of a rank's arcs have as bounds.
    fn least_by_arcs(&self, upward: &Upward, numbers: &Numbers, rank: u32, reach: u32) -> u32
        requires upward { AreUpward upward.now.firsts.items upward.now.heads.items }
        requires numbers { AreNumbers upward.now.heads.items numbers.now.ups.items
            numbers.now.downs.items }
        requires rank { rank < length upward.now.firsts.items - 1 }
        requires reach { reach ≡ reach_of self.now.aim self.now.list.items rank }
        requires found { AreFound upward.now.firsts.items upward.now.heads.items
            numbers.now.ups.items self.now.aim self.now.list.items }
        requires heads { (place : ℕ) → IsFrom upward.now.firsts.items rank place
            → IsFinal self.now.aim self.now.list.items
            (slice_index upward.now.heads.items place) }
        ensures { result ≡ worth_of upward.now.firsts.items upward.now.heads.items
            numbers.now.ups.items self.now.aim self.now.list.items rank }
    {
        let mut bound = reach;
        let begin = upward.firsts[rank as usize] as usize;
        let end = upward.firsts[rank as usize + 1] as usize;
        for place in begin..end {
            let there = self.bound(upward.heads[place]);
            bound = bound.min(plus(numbers.ups[place], there));
        }
        bound
    }

    /// The least of what is reached and of what the heads of links have as bounds.
    fn least_by_links(&self, links: &[Link], reach: u32) -> u32
        requires links { (link : Link) → Contains links.now link
            → link.head < length self.now.list.items }
        requires ascending { AreAscending links.now }
        ensures { IsLeastBy (bound_at self.now.aim self.now.list.items) links.now reach result }
    {
        let mut bound = reach;
        for link in links {
            if link.number >= bound {
                return bound;
            }
            bound = bound.min(plus(link.number, self.bound(link.head)));
        }
        bound
    }

    /// Finds the bound of a rank from those of its heads.
    fn evaluate(&mut self, upward: &Upward, numbers: &Numbers, trimmed: &Trimmed, rank: u32)
        requires upward { AreUpward upward.now.firsts.items upward.now.heads.items }
        requires numbers { AreNumbers upward.now.heads.items numbers.now.ups.items
            numbers.now.downs.items }
        requires trimmed { AreTrimmed upward.now.firsts.items upward.now.heads.items
            numbers.now.ups.items trimmed.now.rows.items }
        requires rank { rank < length upward.now.firsts.items - 1 }
        requires found { AreFound upward.now.firsts.items upward.now.heads.items
            numbers.now.ups.items self.old.aim self.old.list.items }
        requires heads { (place : ℕ) → IsFrom upward.now.firsts.items rank place
            → IsFinal self.old.aim self.old.list.items
            (slice_index upward.now.heads.items place) }
        ensures aim { self.new.aim ≡ self.old.aim }
        ensures found { AreFound upward.now.firsts.items upward.now.heads.items
            numbers.now.ups.items self.new.aim self.new.list.items }
        ensures finds { FindsMore self.old.aim self.old.list.items self.new.list.items }
        ensures here { IsFinal self.new.aim self.new.list.items rank }
    {
        let reach = self.reach(rank);
        let bound = match trimmed.links(upward, rank) {
            Some(links) => self.least_by_links(links, reach),
            None => self.least_by_arcs(upward, numbers, rank, reach),
        };
        self.list[rank as usize] = Cell {
            stamp: self.aim.stamp + 1,
            reach,
            bound,
        };
    }

    /// Whether the bound of a rank is found.
    #[inline(always)]
    fn is_final(&self, rank: u32) -> bool
        requires { rank < length self.now.list.items }
        ensures yes { result ≡ true → IsFinal self.now.aim self.now.list.items rank }
    {
        if self.aim.top < rank {
            return true;
        }
        self.aim.stamp < self.list[rank as usize].stamp
    }

    /// The ranks up the path of lowest heads from one on, up to the first whose bound is found.
    pub(crate) fn climb(&self, upward: &Upward, rank: u32, path: &mut Vec<u32>)
        requires upward { AreUpward upward.now.firsts.items upward.now.heads.items }
        requires few { length upward.now.firsts.items < 2 ^ 32 }
        requires parents { AreParents upward.now.firsts.items upward.now.heads.items
            upward.now.parents.items }
        requires rank { rank < length upward.now.firsts.items - 1 }
        requires count { length self.now.list.items ≡ length upward.now.firsts.items - 1 }
        requires empty { path.old.items ≡ [] }
        requires room { length upward.now.firsts.items - 1 ≤ vec_capacity path.old }
        ensures room { vec_capacity path.new ≡ vec_capacity path.old }
        ensures path { IsPath upward.now.firsts.items upward.now.heads.items path.new.items }
        ensures top { IsTopFound upward.now.firsts.items upward.now.heads.items
            self.now.aim self.now.list.items path.new.items }
        ensures from { IsWayFrom self.now.aim self.now.list.items path.new.items rank }
    {
        let mut at = rank;
        while !self.is_final(at) {
            path.push_reserved(at);
            let parent = upward.parent(at);
            if parent == NONE {
                return;
            }
            at = parent;
        }
    }

    /// Finds the bounds of the ranks of a path, the last first.
    pub(crate) fn descend(
        &mut self,
        upward: &Upward,
        numbers: &Numbers,
        trimmed: &Trimmed,
        path: &mut Vec<u32>,
    )
        requires upward { AreUpward upward.now.firsts.items upward.now.heads.items }
        requires numbers { AreNumbers upward.now.heads.items numbers.now.ups.items
            numbers.now.downs.items }
        requires trimmed { AreTrimmed upward.now.firsts.items upward.now.heads.items
            numbers.now.ups.items trimmed.now.rows.items }
        requires found { AreFound upward.now.firsts.items upward.now.heads.items
            numbers.now.ups.items self.old.aim self.old.list.items }
        requires path { IsPath upward.now.firsts.items upward.now.heads.items path.old.items }
        requires top { IsTopFound upward.now.firsts.items upward.now.heads.items
            self.old.aim self.old.list.items path.old.items }
        ensures aim { self.new.aim ≡ self.old.aim }
        ensures found { AreFound upward.now.firsts.items upward.now.heads.items
            numbers.now.ups.items self.new.aim self.new.list.items }
        ensures finds { FindsMore self.old.aim self.old.list.items self.new.list.items }
        ensures path { (path.new.items ≡ []) × (vec_capacity path.new ≡ vec_capacity path.old) }
        ensures from { (rank : ℕ) → IsWayFrom self.old.aim self.old.list.items path.old.items rank
            → IsFinal self.new.aim self.new.list.items rank }
    {
        while let Some(rank) = path.pop() {
            self.evaluate(upward, numbers, trimmed, rank);
        }
    }
}
