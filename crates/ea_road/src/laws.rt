//! Laws of networks, travel times and walks, as functions that do nothing.
ghost use Rattle.std.specs.Prelude.{◌≡◌, ◌<◌, ◌≤◌, ◌+◌, ◌-◌, ◌^◌, ◌↔◌, ◌∷◌, ◌++◌, [], ℕ};
ghost use Rattle.std.specs.Prelude.{Contains, List, Option, length, slice_index};
ghost use Rattle.ea_base.specs.declared.limits.TheConstants.{HORIZON};
ghost use Rattle.ea_road.specs.Arrivals.{Attains, IsLeast, IsLeastAt};
ghost use Rattle.ea_road.specs.Labels.{IsFixed, label_of, limit, time_of};
ghost use Rattle.ea_road.specs.Levels.{IsCanonical, IsLevel, IsTight};
ghost use Rattle.ea_road.specs.Queries.{IsAsked, IsProblem};
ghost use Rattle.ea_road.specs.Roads.{IsArc, IsNode, leaving};

use crate::arc::Arc;
use crate::known::{AnyPair, Known};
use crate::network::Network;
use crate::query::Query;
use ea_travel_times::TravelTimes;

/// The numbers of the arcs that leave a node are exactly those of the arcs with that tail, ascending.
pub fn leaving_arcs_ascend(network: &Network)
    ensures members { (node number : ℕ) → Contains (leaving network.now node) number
        ↔ ((arc : Arc) × IsArc network.now number arc × (arc.tail ≡ node)) }
    ensures ascend { (node place later : ℕ) → place < later
        → later < length (leaving network.now node)
        → slice_index (leaving network.now node) place
        < slice_index (leaving network.now node) later }
{}

/// A node has at most one least arrival, a time or none.
pub fn least_arrivals_are_one<T: TravelTimes>(network: &Network, times: &T, query: &Query)
    ensures { (node : ℕ) (this that : Option ℕ)
        → IsLeast network.now (T.answers times.now) query.now.sources node this
        → IsLeast network.now (T.answers times.now) query.now.sources node that
        → this ≡ that }
{}

/// Each node has a least arrival, a time or none.
pub fn least_arrivals_exist<T: TravelTimes>(network: &Network, times: &T, query: &Query)
    requires { IsProblem network.now (T.classes times.now) query.now }
    ensures { (node : ℕ) → (arrival : Option ℕ)
        × IsLeast network.now (T.answers times.now) query.now.sources node arrival }
{
    network.keeps_limits();
}

/// Labels are the least arrivals if they are at most the departures at the sources, are reached, and satisfy
/// each node. In a pair query a node may also have a label above the target's; then each label up to the
/// target's is the least arrival.
pub fn fixed_labels_are_least<T: TravelTimes>(
    network: &Network,
    times: &T,
    query: &Query,
    table: &[u64],
)
    requires problem { IsProblem network.now (T.classes times.now) query.now }
    requires fixed { IsFixed network.now (T.answers times.now) query.now (label_of table.now) }
    ensures asked { (node : ℕ) → IsNode network.now.nodes node → IsAsked query.now node
        → IsLeast network.now (T.answers times.now) query.now.sources node
        (time_of (label_of table.now node)) }
    ensures up_to_the_target { (node : ℕ) → IsNode network.now.nodes node
        → label_of table.now node ≤ limit query.now.target (label_of table.now)
        → IsLeast network.now (T.answers times.now) query.now.sources node
        (time_of (label_of table.now node)) }
    ensures exact { (node time : ℕ) → IsNode network.now.nodes node
        → IsLeastAt network.now (T.answers times.now) query.now.sources node time
        → time ≤ limit query.now.target (label_of table.now)
        → label_of table.now node ≡ time }
{
    network.keeps_limits();
}

/// With such labels, each node with a least arrival up to the target's label has a level.
pub fn reached_nodes_have_levels<T: TravelTimes>(
    network: &Network,
    times: &T,
    query: &Query,
    table: &[u64],
)
    requires problem { IsProblem network.now (T.classes times.now) query.now }
    requires fixed { IsFixed network.now (T.answers times.now) query.now (label_of table.now) }
    ensures { (node time : ℕ) → IsNode network.now.nodes node
        → IsLeastAt network.now (T.answers times.now) query.now.sources node time
        → time ≤ limit query.now.target (label_of table.now)
        → (level : ℕ) × IsLevel network.now (T.answers times.now) query.now.sources
        (IsLeastAt network.now (T.answers times.now) query.now.sources) node level }
{
    network.keeps_limits();
}

/// With such labels, each node with a least arrival up to the target's label has exactly one canonical walk,
/// which attains its least arrival.
pub fn reached_nodes_have_one_canonical_walk<T: TravelTimes>(
    network: &Network,
    times: &T,
    query: &Query,
    table: &[u64],
)
    requires problem { IsProblem network.now (T.classes times.now) query.now }
    requires fixed { IsFixed network.now (T.answers times.now) query.now (label_of table.now) }
    ensures some { (node time : ℕ) → IsNode network.now.nodes node
        → IsLeastAt network.now (T.answers times.now) query.now.sources node time
        → time ≤ limit query.now.target (label_of table.now)
        → (walk : List ℕ) × IsCanonical network.now (T.answers times.now) query.now.sources
        (IsLeastAt network.now (T.answers times.now) query.now.sources) node walk }
    ensures one { (node : ℕ) (this that : List ℕ)
        → IsCanonical network.now (T.answers times.now) query.now.sources
        (IsLeastAt network.now (T.answers times.now) query.now.sources) node this
        → IsCanonical network.now (T.answers times.now) query.now.sources
        (IsLeastAt network.now (T.answers times.now) query.now.sources) node that
        → this ≡ that }
    ensures attains { (node time : ℕ) (walk : List ℕ)
        → IsLeastAt network.now (T.answers times.now) query.now.sources node time
        → IsCanonical network.now (T.answers times.now) query.now.sources
        (IsLeastAt network.now (T.answers times.now) query.now.sources) node walk
        → Attains network.now (T.answers times.now) query.now.sources walk node time }
{
    network.keeps_limits();
}

/// The last arc of a canonical walk is the lowest-numbered tight arc to its node from a node one level below.
pub fn last_arcs_are_lowest<T: TravelTimes>(network: &Network, times: &T, query: &Query)
    ensures { (node level from number other : ℕ) (walk : List ℕ)
        → IsCanonical network.now (T.answers times.now) query.now.sources
        (IsLeastAt network.now (T.answers times.now) query.now.sources) node (walk ++ number ∷ [])
        → IsLevel network.now (T.answers times.now) query.now.sources
        (IsLeastAt network.now (T.answers times.now) query.now.sources) node (level + 1)
        → IsLevel network.now (T.answers times.now) query.now.sources
        (IsLeastAt network.now (T.answers times.now) query.now.sources) from level
        → IsTight network.now (T.answers times.now)
        (IsLeastAt network.now (T.answers times.now) query.now.sources) other from node
        → number ≤ other }
{}

/// `AnyPair` knows exactly the pairs of a node and a time within the horizon.
pub fn any_pair_is_within_the_horizon()
    ensures { (node time : ℕ) → ⟦<AnyPair as Known>⟧.is_known node time ↔ (time ≤ HORIZON) }
{}
