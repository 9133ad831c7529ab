//! Laws of latest departures, as functions that do nothing.
ghost use Rattle.std.specs.Prelude.{◌≡◌, ◌≤◌, ◌-◌, ◌↔◌, ◌∷◌, [], ℕ};
ghost use Rattle.std.specs.Prelude.{IsSomeAnd, List, None, Option, Some, reverse};
ghost use Rattle.std.specs.List.{IsAmong};
ghost use Rattle.ea_base.specs.declared.limits.TheConstants.{HORIZON};
ghost use Rattle.ea_travel_times.specs.TurnedTimes.{IsTurned};
ghost use Rattle.ea_road.specs.declared.target.Target.{Target};
ghost use Rattle.ea_road.specs.Arrivals.{IsLeast, IsLeastAt};
ghost use Rattle.ea_road.specs.LatestDepartures.{AreTargets, AttainsInTime, IsCanonicalTo, IsLatestAt, IsLatestDeparture, turned_targets};
ghost use Rattle.ea_road.specs.Levels.{IsCanonical};
ghost use Rattle.ea_road.specs.Roads.{IsNode, top_class};
ghost use Rattle.ea_road.specs.Turned.{turned_roads};

use crate::network::Network;
use crate::source::Source;
use crate::target::Target;
use ea_travel_times::TravelTimes;

/// A least arrival of the turned question is HORIZON less a latest departure, and none exactly if there is none.
pub fn latest_departures_are_turned_arrivals<T: TravelTimes>(
    network: &Network,
    times: &T,
    targets: &[Target],
)
    requires classes { top_class network.now.arcs ≤ T.classes times.now }
    requires targets { AreTargets targets.now }
    ensures time { (node time : ℕ) → time ≤ HORIZON
        → IsLeast (turned_roads network.now) (IsTurned (T.answers times.now))
        (turned_targets targets.now) node (Some time)
        ↔ IsLatestDeparture network.now (T.answers times.now) targets.now node
        (Some (HORIZON - time)) }
    ensures none { (node : ℕ)
        → IsLeast (turned_roads network.now) (IsTurned (T.answers times.now))
        (turned_targets targets.now) node None
        ↔ IsLatestDeparture network.now (T.answers times.now) targets.now node None }
{
    network.keeps_limits();
}

/// A node has at most one latest departure, a time or none.
pub fn latest_departures_are_one<T: TravelTimes>(network: &Network, times: &T, targets: &[Target])
    ensures { (node : ℕ) (this that : Option ℕ)
        → IsLatestDeparture network.now (T.answers times.now) targets.now node this
        → IsLatestDeparture network.now (T.answers times.now) targets.now node that
        → this ≡ that }
{}

/// Each node has a latest departure, a time or none, if the targets are nodes of the network.
pub fn latest_departures_exist<T: TravelTimes>(network: &Network, times: &T, targets: &[Target])
    requires classes { top_class network.now.arcs ≤ T.classes times.now }
    requires targets { AreTargets targets.now }
    requires nodes { (target : Target) → IsAmong targets.now target
        → IsNode network.now.nodes target.node }
    ensures { (node : ℕ) → (departure : Option ℕ)
        × IsLatestDeparture network.now (T.answers times.now) targets.now node departure }
{
    network.keeps_limits();
}

/// Who leaves a node at a departure is at a target by its time exactly if the latest departure for this target is no earlier.
pub fn two_sides_of_one_question<T: TravelTimes>(
    network: &Network,
    times: &T,
    source: Source,
    target: Target,
)
    requires classes { top_class network.now.arcs ≤ T.classes times.now }
    requires source { IsNode network.now.nodes source.node × (source.departure ≤ HORIZON) }
    requires target { IsNode network.now.nodes target.node × (target.time ≤ HORIZON) }
    ensures times { ((arrival : ℕ)
        × IsLeast network.now (T.answers times.now) (source ∷ []) target.node (Some arrival)
        × (arrival ≤ target.time))
        ↔ ((departure : ℕ) × IsLatestDeparture network.now (T.answers times.now) (target ∷ [])
        source.node (Some departure) × (source.departure ≤ departure)) }

    // The same of answers, each of which is a time or none.
    ensures answers { (arrival departure : Option ℕ)
        → IsLeast network.now (T.answers times.now) (source ∷ []) target.node arrival
        → IsLatestDeparture network.now (T.answers times.now) (target ∷ []) source.node departure
        → (IsSomeAnd arrival (λ time. time ≤ target.time)
        ↔ IsSomeAnd departure (λ time. source.departure ≤ time)) }
{
    network.keeps_limits();
}

/// The canonical walks to targets are those of the turned question, reversed. A node has at most one, and it is in time if the node is
/// left at its latest departure.
pub fn canonical_walks_turn_round<T: TravelTimes>(network: &Network, times: &T, targets: &[Target])
    requires classes { top_class network.now.arcs ≤ T.classes times.now }
    requires targets { AreTargets targets.now }
    ensures turned { (node : ℕ) (walk : List ℕ)
        → IsCanonical (turned_roads network.now) (IsTurned (T.answers times.now))
        (turned_targets targets.now)
        (IsLeastAt (turned_roads network.now) (IsTurned (T.answers times.now))
        (turned_targets targets.now)) node walk
        ↔ IsCanonicalTo network.now (T.answers times.now) targets.now
        (IsLatestAt network.now (T.answers times.now) targets.now) node (reverse walk) }
    ensures one { (node : ℕ) (this that : List ℕ)
        → IsCanonicalTo network.now (T.answers times.now) targets.now
        (IsLatestAt network.now (T.answers times.now) targets.now) node this
        → IsCanonicalTo network.now (T.answers times.now) targets.now
        (IsLatestAt network.now (T.answers times.now) targets.now) node that
        → this ≡ that }
    ensures in_time { (node departure : ℕ) (walk : List ℕ)
        → IsLatestAt network.now (T.answers times.now) targets.now node departure
        → IsCanonicalTo network.now (T.answers times.now) targets.now
        (IsLatestAt network.now (T.answers times.now) targets.now) node walk
        → AttainsInTime network.now (T.answers times.now) targets.now walk node departure }
{
    network.keeps_limits();
}
