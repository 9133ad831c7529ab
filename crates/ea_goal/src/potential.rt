//! The bounds that lead a search.
ghost use Rattle.std.specs.Prelude.{◌≡◌, ◌≤◌, ◌<◌, ℕ, length, true, false};
ghost use Rattle.ea_hierarchy.specs.Bounds.{AreBoundsTo, IsRoomFor, told};
ghost use Rattle.ea_goal.specs.Potentials.{IsPotentialOver, potential_of};

use ea_hierarchy::{Bounds, Prepared};

/// How often bounds that end somewhere are tried.
const LOOKS: u32 = 2;

/// How many times farther each of them ends than the one before.
const FARTHER: u32 = 2;

/// Bounds of the travel time to the target of a search.
#[derive(Drop)]
pub(crate) struct Potential {
    pub(crate) bounds: Bounds,
    /// How many bounds were asked for since they were begun.
    pub(crate) asked: u64,
}

impl Potential {
    /// Begins bounds to a target, from a source that is farther from it than the distance that was searched. Bounds that end not far behind the
    /// source come first, since they look at few upward arcs; they serve if the source's bound is nearer than their end.
    pub(crate) fn begin(&mut self, prepared: &Prepared, source: u32, target: u32, searched: u64)
        requires room { IsRoomFor prepared.now self.old.bounds }
        requires source { (0 < source) × (source ≤ length prepared.now.ranks) }
        requires target { (0 < target) × (target ≤ length prepared.now.ranks) }
        ensures { AreBoundsTo prepared.now target self.new.bounds }
    {
        self.asked = 0;
        let searched = searched.min(u64::from(u32::MAX)) as u32;
        let mut far = prepared.apart(source, target).max(searched);
        for _ in 0..LOOKS {
            far = far.saturating_mul(FARTHER);
            self.bounds.begin(prepared, target, far);
            if let Some(bound) = self.bounds.bound(prepared, source) {
                if bound < far {
                    return;
                }
            }
        }
        self.bounds.begin(prepared, target, u32::MAX);
    }

    /// The bound of the travel time from a node to the target; none if no walk leads there.
    pub(crate) fn bound(&mut self, prepared: &Prepared, node: u32) -> Option<u32>
        requires over { IsPotentialOver prepared.now self.old }
        requires from_one { 0 < node }
        requires to_last { node ≤ length prepared.now.ranks }
        ensures bound { result ≡ told (potential_of prepared.now self.old node) }
        ensures over { IsPotentialOver prepared.now self.new }
        ensures same { (other : ℕ) → potential_of prepared.now self.new other
            ≡ potential_of prepared.now self.old other }
    {
        self.asked = self.asked.wrapping_add(1);
        self.bounds.bound(prepared, node)
    }
}
