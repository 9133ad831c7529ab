//! Laws of bounds, as functions that do nothing.
ghost use Rattle.std.specs.Prelude.{◌≡◌, ◌≤◌, ◌<◌, ◌+◌, ℕ, List};
ghost use Rattle.ea_base.specs.declared.limits.TheConstants.{HORIZON};
ghost use Rattle.ea_road.specs.Arrivals.{Arrives};
ghost use Rattle.ea_road.specs.Roads.{IsArc, IsNode};
ghost use Rattle.ea_hierarchy.specs.Bounds.{AreBoundsTo, Takes, bound_of};
ghost use Rattle.ea_hierarchy.specs.Preparations.{IsPreparedFor, IsPreparedOver};
ghost use Rattle.ea_hierarchy.specs.declared.numbers.TheConstants.{NONE};

use crate::bounds::Bounds;
use crate::prepared::Prepared;
use ea_road::{Arc, Network};
use ea_travel_times::TravelTimes;

/// A bound is at most the sum of the arcs' least travel times over any walk to the target, and none only if no walk leads there.
pub fn bounds_are_below_each_walk(
    network: &Network,
    prepared: &Prepared,
    target: u32,
    bounds: &Bounds,
)
    requires over { IsPreparedOver network.now prepared.now }
    requires target { IsNode network.now.nodes target }
    requires bounds { AreBoundsTo prepared.now target bounds.now }
    ensures target { bound_of prepared.now bounds.now target ≡ 0 }
    ensures walks { (node sum : ℕ) → Takes network.now prepared.now target node sum
        → (bound_of prepared.now bounds.now node < NONE)
        × (bound_of prepared.now bounds.now node ≤ sum) }
{
    network.keeps_limits();
    prepared.keeps_order();
}

/// Along an arc a bound falls by no more than the travel time, whenever the arc is left.
pub fn bounds_are_consistent<T: TravelTimes>(
    network: &Network,
    times: &T,
    prepared: &Prepared,
    target: u32,
    bounds: &Bounds,
)
    requires prepared { IsPreparedFor network.now (T.answers times.now) prepared.now }
    requires target { IsNode network.now.nodes target }
    requires bounds { AreBoundsTo prepared.now target bounds.now }
    ensures { (number departure arrival : ℕ) (arc : Arc) → IsArc network.now number arc
        → departure ≤ HORIZON → arrival ≤ HORIZON
        → T.answers times.now arc.class arc.weight departure arrival
        → bound_of prepared.now bounds.now arc.head < NONE
        → (bound_of prepared.now bounds.now arc.tail < NONE)
        × (departure + bound_of prepared.now bounds.now arc.tail
        ≤ arrival + bound_of prepared.now bounds.now arc.head) }
{
    network.keeps_limits();
    prepared.keeps_order();
}

/// No walk to the target arrives within the horizon and before its departure plus the bound.
pub fn no_walk_is_faster<T: TravelTimes>(
    network: &Network,
    times: &T,
    prepared: &Prepared,
    target: u32,
    bounds: &Bounds,
)
    requires prepared { IsPreparedFor network.now (T.answers times.now) prepared.now }
    requires target { IsNode network.now.nodes target }
    requires bounds { AreBoundsTo prepared.now target bounds.now }
    ensures { (start departure arrival : ℕ) (walk : List ℕ)
        → Arrives network.now (T.answers times.now) start departure walk target arrival
        → arrival ≤ HORIZON
        → (bound_of prepared.now bounds.now start < NONE)
        × (departure + bound_of prepared.now bounds.now start ≤ arrival) }
{
    network.keeps_limits();
    prepared.keeps_order();
}
