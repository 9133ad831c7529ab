//! A road as searches run on it: its network as it was given, or renumbered.
ghost use Rattle.std.specs.Prelude.{◌≡◌};
ghost use Rattle.ea_batch.specs.SearchRoads.{IsFormOf};
ghost use Rattle.ea_batch.specs.Solved.{IsLaidOut};
ghost use Rattle.ea_layout.specs.Orders.{file_roads};
ghost use Rattle.ea_road.specs.Roads.{IsNetwork};

use ea_layout::Layout;
use ea_load::Road;
use ea_road::Network;
use ea_travel_times::RoadTimes;
use std::marker::Model;

/// The network of a road: as it was given, or in the numbers of a layout, without the one that was given.
#[derive(Clone, Copy)]
pub enum SearchNetwork<'a> {
    AsGiven(&'a Network),
    Renumbered(&'a Layout),
}

/// A road on which searches run. In contracts it is the road in the numbers of its files, whichever form its network has.
#[derive(Drop)]
pub struct SearchRoad<'a> {
    network: SearchNetwork<'a>,
    times: &'a RoadTimes,
}

impl<'a> Model for SearchRoad<'a> {
    ghost use Rattle.ea_batch.specs.SearchRoads.{IsOwn, roads_in};
    ghost use Rattle.ea_load.specs.declared.road.Road.{Road};

    ghost Value = { Road };

    ghost view = { λ r. record { network = roads_in r.network; times = r.times.now } };

    ghost invariant = { λ r. IsOwn r.network r.times.now };
}

impl<'a> SearchRoad<'a> {
    /// A road as it was given.
    pub fn of(road: &'a Road) -> SearchRoad<'a>
        ensures { result ≡ road.now }
    {
        SearchRoad {
            network: SearchNetwork::AsGiven(&road.network),
            times: &road.times,
        }
    }

    /// The road of which this is a layout, prepared for these travel times if it is prepared.
    pub fn renumbered(layout: &'a Layout, times: &'a RoadTimes) -> SearchRoad<'a>
        requires { IsLaidOut (record { network = file_roads layout.now; times = times.now }) layout.now }
        ensures { result ≡ record { network = file_roads layout.now; times = times.now } }
    {
        SearchRoad {
            network: SearchNetwork::Renumbered(layout),
            times,
        }
    }

    /// The form of its network.
    pub(crate) fn form(&self) -> SearchNetwork<'a>
        ensures { IsFormOf self.now result }
    {
        self.network
    }

    /// Its travel times.
    pub(crate) fn times(&self) -> &'a RoadTimes
        ensures { result.now ≡ self.now.times }
    {
        self.times
    }

    /// Its network, or that of its layout: one with as many nodes.
    pub(crate) fn network(&self) -> &'a Network
        ensures { result.now.nodes ≡ self.now.network.nodes }
    {
        match self.network {
            SearchNetwork::AsGiven(network) => network,
            SearchNetwork::Renumbered(layout) => &layout.network,
        }
    }

    /// For proofs: its network is one. Does nothing at run time.
    pub(crate) fn keeps_limits(&self)
        ensures { IsNetwork self.now.network }
    {
        let _ = self.nodes();
    }

    /// The number of nodes.
    pub(crate) fn nodes(&self) -> u32
        ensures nodes { result ≡ self.now.network.nodes }
        ensures network { IsNetwork self.now.network }
    {
        match self.network {
            SearchNetwork::AsGiven(network) => network.nodes(),
            SearchNetwork::Renumbered(layout) => layout.network.nodes(),
        }
    }
}
