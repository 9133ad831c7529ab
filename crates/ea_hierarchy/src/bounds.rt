ghost use Rattle.std.specs.Prelude.{◌≡◌, ◌≤◌, ◌<◌, ℕ, IfOk, length};
ghost use Rattle.ea_hierarchy.specs.Bounds.{AreBoundsOver, AreBoundsTo, IsRoomFor, bound_of, told};

use crate::cells::Cells;
use crate::numbers::NONE;
use crate::prepared::Prepared;
use std::alloc::{AllocError, Global};

/// Bounds of the travel time from nodes to one target, over a prepared road: CH-Potentials (Strasser and
/// Zeitz, 2021). A bound is found when it is asked for, and kept for the target.
#[derive(Drop)]
pub struct Bounds {
    pub(crate) cells: Cells,
    pub(crate) path: Vec<u32>,
}

/// What a caller learns of a bound.
#[inline(always)]
fn tell(bound: u32) -> Option<u32>
    ensures { result ≡ told bound }
{
    if bound == NONE { None } else { Some(bound) }
}

impl Bounds {
    /// Room for bounds over a preparation. An error comes only if memory was refused.
    pub fn new(alloc: Global, prepared: &Prepared) -> Result<Bounds, AllocError>
        ensures { IfOk result (IsRoomFor prepared.now) }
    {
        let ranks = prepared.upward.firsts.len() - 1;
        let cells = Cells::new(alloc, ranks)?;
        let path = Vec::with_capacity(alloc, ranks)?;
        Ok(Bounds { cells, path })
    }

    /// Bounds to another target. All nodes that are farther from it than `far` have this as their bound, so that a search for a near target
    /// looks at few upward arcs; with `u32::MAX` each bound is as great as the preparation knows. Takes time in proportion to the upward
    /// arcs on the target's path up to there.
    pub fn begin(&mut self, prepared: &Prepared, target: u32, far: u32)
        requires room { IsRoomFor prepared.now self.old }
        requires from_one { 0 < target }
        requires to_last { target ≤ length prepared.now.ranks }
        ensures { AreBoundsTo prepared.now target self.new }
    {
        let rank = prepared.ranks.of(target);
        self.cells.begin(
            &prepared.upward,
            &prepared.numbers,
            &prepared.trimmed_downs,
            rank,
            far,
        );
    }

    /// The bound of the travel time from a node to the target; none if no walk leads there.
    pub fn bound(&mut self, prepared: &Prepared, node: u32) -> Option<u32>
        requires over { AreBoundsOver prepared.now self.old }
        requires from_one { 0 < node }
        requires to_last { node ≤ length prepared.now.ranks }
        ensures bound { result ≡ told (bound_of prepared.now self.old node) }
        ensures over { AreBoundsOver prepared.now self.new }
        ensures keeps { (target : ℕ) → AreBoundsTo prepared.now target self.old
            → AreBoundsTo prepared.now target self.new }
        ensures same { (other : ℕ) → bound_of prepared.now self.new other
            ≡ bound_of prepared.now self.old other }
    {
        let rank = prepared.ranks.of(node);
        self.cells.climb(&prepared.upward, rank, &mut self.path);
        self.cells.descend(
            &prepared.upward,
            &prepared.numbers,
            &prepared.trimmed_ups,
            &mut self.path,
        );
        tell(self.cells.bound(rank))
    }
}
