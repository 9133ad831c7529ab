//! Counting the offers of a search, to choose the width of its windows.
ghost use Rattle.ea_road.specs.Queries.{IsProblem};

use crate::buckets::bucket_search::search;
use crate::buckets::frontier::{Frontier, empty_lists};
use crate::labels::table::{Table, touched};
use crate::queue::open::Open;
use ea_base::HORIZON;
use ea_road::{NONE, Network, Query};
use ea_travel_times::TravelTimes;
use std::alloc::{AllocError, Global};

/// Labels, and the number of offers.
#[derive(Drop)]
struct Counting {
    labels: Vec<u64>,
    count: u64,
}

impl Table for Counting {
    ghost labels = { λ table. table.labels.items };

    ghost lists = { λ table node. Unit };

    ghost met = { λ table node from place. Unit };

    ghost had = { λ table node from place. ⊥ };

    fn label(&self, node: u32) -> u64 {
        self.labels[node as usize - 1]
    }

    fn last(&self, node: u32) -> u64 {
        self.label(node).min(HORIZON)
    }

    fn touch(&self, node: u32) -> u64 {
        touched(&self.labels, node)
    }

    fn start(&mut self, node: u32, time: u64) {
        self.labels[node as usize - 1] = time;
    }

    fn fall(&mut self, node: u32, time: u64, _from: u32, _place: usize) {
        self.labels[node as usize - 1] = time;
        self.count = self.count.wrapping_add(1);
    }

    fn meet(&mut self, _node: u32, _from: u32, _place: usize) {
        self.count = self.count.wrapping_add(1);
    }
}

/// The number of offers that the search of one thread makes with windows of this width. It bounds the scans:
/// each node but the sources' is opened by an offer. Width 0 means single times, which is Dijkstra's
/// algorithm. Fails only if memory is refused.
pub fn count_offers<T: TravelTimes>(
    alloc: Global,
    network: &Network,
    times: &T,
    query: &Query,
    width: u64,
) -> Result<u64, AllocError>
    requires { IsProblem network.now (T.classes times.now) query.now }
{
    let todo = Open::reserve_without_walks(alloc, network.nodes())?;
    let lists = empty_lists(alloc)?;
    let mut frontier = Frontier::over(lists, todo, width);
    let labels = vec![in alloc; NONE; network.nodes() as usize]?;
    let mut counting = Counting { labels, count: 0 };
    search(network, times, query, &mut counting, &mut frontier);
    Ok(counting.count)
}
