//! Led searches for the targets of queries, one after another on the same arrays.
ghost use Rattle.std.specs.Prelude.{◌≡◌, ℕ, IfOk, Some, length, replicate, true};
ghost use Rattle.ea_road.specs.declared.TheConstants.{NONE};
ghost use Rattle.ea_road.specs.Labels.{label_of};
ghost use Rattle.ea_road.specs.Queries.{IsProblem};
ghost use Rattle.ea_hierarchy.specs.Preparations.{IsPreparedFor};
ghost use Rattle.ea_search.specs.Listings.{AreLabelsListed, IsListed};
ghost use Rattle.ea_goal.specs.Led.{IsLedTo};

use crate::frontier::Frontier;
use crate::potential::Potential;
use crate::search::Underway;
use ea_hierarchy::{Bounds, Prepared};
use ea_road::{Network, Query};
use ea_search::Reached;
use ea_travel_times::TravelTimes;
use std::alloc::{AllocError, Global};
use std::marker::Model;

/// The arrays of led searches beside labels: bounds, and a heap of open nodes. They are reused from search to
/// search; several threads share one preparation. In contracts it is the number of nodes.
#[derive(Drop)]
pub struct Guide {
    nodes: u32,
    bounds: Bounds,
    frontier: Frontier,
    asked: u64,
}

impl Model for Guide {
    ghost use Rattle.std.specs.Prelude.{ℕ};
    ghost use Rattle.ea_goal.specs.Guides.{HasRoomFor};

    ghost Value = { ℕ };

    ghost view = { λ g. g.nodes };

    ghost invariant = { λ g. HasRoomFor g.nodes g.bounds };
}

impl Guide {
    /// Room for searches over a preparation. Fails only if memory is refused.
    pub fn over(alloc: Global, prepared: &Prepared) -> Result<Guide, AllocError>
        ensures { IfOk result (λ guide. guide ≡ length prepared.now.ranks) }
    {
        prepared.keeps_order();
        let bounds = Bounds::new(alloc, prepared)?;
        Ok(Guide {
            nodes: prepared.nodes(),
            bounds,
            frontier: Frontier::new(alloc),
            asked: 0,
        })
    }

    /// How many bounds the last search asked for.
    pub fn asked(&self) -> u64 {
        self.asked
    }
}

/// What a led search leaves.
#[derive(Drop)]
pub struct Led {
    pub guide: Guide,
    /// The labels, with the reached nodes listed.
    pub table: Reached,
    /// Whether the search ended; false if memory was refused.
    pub is_found: bool,
}

/// Searches from the sources of a query for its target, on reset labels. A node is left open if its label and its bound together are above
/// the target's label. Takes time in proportion to the nodes that it reaches and the upward arcs above them and the target; a first look for
/// bounds ends at a small multiple of the distance that was searched without them, up to the time `until`.
pub fn lead<T: TravelTimes>(
    network: &Network,
    times: &T,
    prepared: &Prepared,
    query: &Query,
    target: u32,
    guide: Guide,
    table: Reached,
    until: u64,
) -> Led
    requires problem { IsProblem network.now (T.classes times.now) query.now }
    requires target { query.now.target ≡ Some target }
    requires prepared { IsPreparedFor network.now (T.answers times.now) prepared.now }
    requires guide { guide ≡ network.now.nodes }
    requires labels { table.labels.items ≡ replicate network.now.nodes NONE }
    ensures guide { result.guide ≡ network.now.nodes }
    ensures count { length result.table.labels.items ≡ network.now.nodes }
    ensures listed { AreLabelsListed result.table.labels.items (IsListed result.table.listed) }
    ensures led { result.is_found ≡ true → IsLedTo network.now (T.answers times.now)
        query.now.sources target (label_of result.table.labels.items) }
{
    network.keeps_limits();
    prepared.keeps_order();
    let Guide {
        nodes,
        bounds,
        mut frontier,
        ..
    } = guide;
    frontier.clear();
    let potential = Potential { bounds, asked: 0 };
    let mut underway = Underway {
        table,
        frontier,
        potential,
    };
    let ended = underway.seek(network, times, prepared, query.sources(), target, until);
    let is_found = ended.is_ok();
    let Underway {
        table,
        frontier,
        potential: Potential { bounds, asked, .. },
    } = underway;
    Led {
        guide: Guide {
            nodes,
            bounds,
            frontier,
            asked,
        },
        table,
        is_found,
    }
}
