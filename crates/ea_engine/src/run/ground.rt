//! The data that all workers of a run read.

use ea_labels::Labels;
use ea_pool::{EntryHeap, LeastHeap, Pool};
use ea_road::{Known, Network, Query};
use std::alloc::Global;

/// The data that workers read: the network, the travel times and the query of their problem, and the two
/// shared tables.
#[derive(Clone, Copy)]
pub struct Ground<'a, K: Known, T, E: EntryHeap = LeastHeap<Global>> {
    pub network: &'a Network,
    pub times: &'a T,
    pub query: &'a Query,
    pub labels: &'a Labels<K>,
    pub pool: &'a Pool<K, Global, E>,
}
