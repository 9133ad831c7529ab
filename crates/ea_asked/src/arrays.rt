//! The arrays on which a search for some nodes runs.
ghost use Rattle.std.specs.Prelude.{◌≡◌, All, length, replicate, true};
ghost use Rattle.ea_road.specs.Labels.{label_of};
ghost use Rattle.ea_road.specs.Queries.{IsProblem};
ghost use Rattle.ea_road.specs.Roads.{IsNode};
ghost use Rattle.ea_road.specs.declared.TheConstants.{NONE};
ghost use Rattle.ea_search.specs.Listings.{AreLabelsListed, IsListed};
ghost use Rattle.ea_asked.specs.Blank.{NoneIsShown, WritesTable};
ghost use Rattle.ea_asked.specs.Seeking.{AreLedTo};
ghost use Rattle.ea_asked.specs.Stores.{Shows};

use crate::frontier::Frontier;
use crate::search::Underway;
use ea_road::{Network, Query};
use ea_search::{Link, Listed, Reached, Waiting};
use ea_travel_times::TravelTimes;

/// The labels of a search, and the labels and links of its answer, each with the nodes at which they were written.
#[derive(Drop)]
pub(crate) struct Arrays {
    /// The label of each node, the first that of node 1.
    pub(crate) table: Vec<u64>,
    /// The nodes with labels or links.
    pub(crate) listed: Listed,
    pub(crate) frontier: Frontier,
    pub(crate) waiting: Waiting,
    /// The labels of the answer.
    pub(crate) labels: Vec<u64>,
    pub(crate) links: Vec<Link>,
    /// The nodes with labels in the answer.
    pub(crate) shown: Listed,
}

impl Arrays {
    /// Searches from the sources of a query until the asked nodes are settled, on reset labels. Returns false if
    /// memory was refused.
    pub(crate) fn seek<T: TravelTimes>(
        self,
        network: &Network,
        times: &T,
        query: &Query,
        asked: &[u32],
    ) -> (Arrays, bool)
        requires problem { IsProblem network.now (T.classes times.now) query.now }
        requires asked { All (IsNode network.now.nodes) asked.now }
        requires table { self.table.items ≡ replicate network.now.nodes NONE }
        ensures writes { WritesTable network.now.nodes self result.0 }
        ensures led { result.1 ≡ true → AreLedTo network.now (T.answers times.now)
            query.now.sources asked.now (label_of result.0.table.items) }
    {
        network.keeps_limits();
        let Arrays {
            table,
            listed,
            mut frontier,
            waiting,
            labels,
            links,
            shown,
        } = self;
        frontier.clear();
        let table = Reached {
            labels: table,
            listed,
        };
        let mut underway = Underway { table, frontier };
        let ended = underway.seek(network, times, query.sources(), asked);
        let is_found = ended.is_ok();
        let Underway { table, frontier } = underway;
        let Reached {
            labels: table,
            listed,
        } = table;
        let arrays = Arrays {
            table,
            listed,
            frontier,
            waiting,
            labels,
            links,
            shown,
        };
        (arrays, is_found)
    }
}

/// Gives asked nodes the labels that they have in a table, on reset labels.
pub(crate) fn show(table: &[u64], asked: &[u32], labels: &mut Vec<u64>, shown: &mut Listed)
    requires asked { All (IsNode (length table.now)) asked.now }
    requires none { NoneIsShown (length table.now) labels.old.items shown.old }
    ensures shows { Shows table.now asked.now (length asked.now) labels.new.items }
    ensures listed { AreLabelsListed labels.new.items (IsListed shown.new) }
{
    for node in asked {
        let slot = *node as usize - 1;
        labels[slot] = table[slot];
        shown.add(*node);
    }
}
