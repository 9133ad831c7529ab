//! A network whose index by tail is made when it is asked for.
ghost use Rattle.std.specs.Prelude.{◌≡◌};
ghost use Rattle.ea_road.specs.Roads.{IsNetwork};
ghost use Rattle.ea_check.specs.Lazy.{roads_in};

use ea_road::{Network, NumberedArcs};

/// A network. Its index by tail is made when it is asked for: a report without walks on a network without arcs of
/// zero length is checked without one.
#[derive(Drop)]
pub enum LazyNetwork<'a> {
    /// No index was asked for yet.
    Unindexed(NumberedArcs),
    /// The index was made.
    Indexed(Network),
    /// The caller has an index.
    Given(&'a Network),
}

impl<'a> LazyNetwork<'a> {
    /// The network without its index.
    pub(crate) fn arcs(&self) -> &NumberedArcs
        ensures { result.now ≡ roads_in self.now }
    {
        match self {
            LazyNetwork::Unindexed(arcs) => arcs,
            LazyNetwork::Indexed(network) => network.numbered(),
            LazyNetwork::Given(network) => network.numbered(),
        }
    }

    /// The number of nodes.
    pub(crate) fn nodes(&self) -> u32
        ensures nodes { result ≡ (roads_in self.now).nodes }
        ensures network { IsNetwork (roads_in self.now) }
    {
        self.arcs().nodes()
    }
}
