//! Laws of other numbers for the nodes of a network, as functions that do nothing.
ghost use Rattle.std.specs.Prelude.{◌↔◌, ◌≡◌, ℕ, List, Option};
ghost use Rattle.ea_layout.specs.Orders.{LaysOut, file_roads};
ghost use Rattle.ea_layout.specs.Renamed.{AreReverse, number_of, renamed_query, renamed_roads, renamed_sources};
ghost use Rattle.ea_road.specs.Arrivals.{IsLeast, IsLeastAt};
ghost use Rattle.ea_road.specs.Levels.{IsCanonical, IsLevel};
ghost use Rattle.ea_road.specs.Queries.{IsProblem};
ghost use Rattle.ea_road.specs.Roads.{IsNetwork, IsNode};

use crate::layout::Layout;
use ea_road::{Network, Query, TravelTimes};

/// A layout is of one network: its own, renamed back.
pub fn a_layout_is_of_one_network(network: &Network, layout: &Layout)
    requires { LaysOut network.now layout.now }
    ensures { file_roads layout.now ≡ network.now }
{
    network.keeps_limits();
    let _ = &layout.network;
}

/// A network whose nodes have other numbers is a network, and a problem on it stays one.
pub fn renamed_problems_are_problems<T: TravelTimes>(
    network: &Network,
    times: &T,
    query: &Query,
    there: &[u32],
    back: &[u32],
)
    requires problem { IsProblem network.now (T.classes times.now) query.now }
    requires reverse { AreReverse network.now.nodes there.now back.now }
    ensures network { IsNetwork (renamed_roads there.now network.now) }
    ensures problem { IsProblem (renamed_roads there.now network.now) (T.classes times.now)
        (renamed_query there.now query.now) }
{
    network.keeps_limits();
}

/// Other numbers of the nodes change no least arrival, no level and no canonical walk: walks are lists of
/// arcs, which keep their numbers.
pub fn renaming_changes_no_answer<T: TravelTimes>(
    network: &Network,
    times: &T,
    query: &Query,
    there: &[u32],
    back: &[u32],
)
    requires problem { IsProblem network.now (T.classes times.now) query.now }
    requires reverse { AreReverse network.now.nodes there.now back.now }
    ensures least { (node : ℕ) (arrival : Option ℕ) → IsNode network.now.nodes node
        → IsLeast network.now (T.answers times.now) query.now.sources node arrival
        ↔ IsLeast (renamed_roads there.now network.now) (T.answers times.now)
        (renamed_sources there.now query.now.sources) (number_of there.now node) arrival }
    ensures level { (node level : ℕ) → IsNode network.now.nodes node
        → IsLevel network.now (T.answers times.now) query.now.sources
        (IsLeastAt network.now (T.answers times.now) query.now.sources) node level
        ↔ IsLevel (renamed_roads there.now network.now) (T.answers times.now)
        (renamed_sources there.now query.now.sources)
        (IsLeastAt (renamed_roads there.now network.now) (T.answers times.now)
        (renamed_sources there.now query.now.sources)) (number_of there.now node) level }
    ensures canonical { (node : ℕ) (walk : List ℕ) → IsNode network.now.nodes node
        → IsCanonical network.now (T.answers times.now) query.now.sources
        (IsLeastAt network.now (T.answers times.now) query.now.sources) node walk
        ↔ IsCanonical (renamed_roads there.now network.now) (T.answers times.now)
        (renamed_sources there.now query.now.sources)
        (IsLeastAt (renamed_roads there.now network.now) (T.answers times.now)
        (renamed_sources there.now query.now.sources)) (number_of there.now node) walk }
{
    network.keeps_limits();
}
