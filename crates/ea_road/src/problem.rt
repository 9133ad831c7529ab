ghost use Rattle.std.specs.Prelude.{◌↔◌, IsTrue};
ghost use Rattle.ea_road.specs.Queries.{IsProblem};

use crate::network::Network;
use crate::query::Query;

/// Whether a network, travel times with classes up to the greatest, and a query make a problem: the travel
/// times have each arc's class, and sources and target are nodes of the network.
pub fn is_problem(network: &Network, classes: usize, query: &Query) -> bool
    ensures { IsTrue result ↔ IsProblem network.now classes query.now }
{
    let nodes = network.nodes();
    if network.top_class() as usize > classes {
        return false;
    }
    for source in query.sources() {
        if source.node > nodes {
            return false;
        }
    }
    match query.target() {
        None => true,
        Some(target) => target <= nodes,
    }
}
