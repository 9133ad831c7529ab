//! The bounds of all nodes to a target, over a prepared road and by a plain search.
ghost use Rattle.std.specs.Prelude.{◌≡◌, ◌≤◌, IfOk, length};
ghost use Rattle.ea_hierarchy.specs.Bounds.{AreBoundsOver, AreBoundsTo, IsRoomFor};

use ea_hierarchy::{Bounds, Prepared};
use ea_road::Network;
use ea_travel_times::{Timetables, TravelTimes};
use std::alloc::{AllocError, Global};

/// No walk.
const FAR: u64 = u64::MAX;

/// Lowers the sums of the tails over all arcs. Returns whether one was lowered.
fn lower_all(network: &Network, times: &Timetables, sums: &mut [u64]) -> bool {
    let arcs = network.arcs();
    let mut lowered = false;
    for place in 0..arcs.len() {
        let arc = arcs.at(place);
        if arc.class as usize > times.classes() {
            return false;
        }
        let low = TravelTimes::low(times, arc.class, u64::from(arc.weight));
        let from = arc.tail as usize;
        let to = arc.head as usize;
        if from < sums.len() && to < sums.len() && sums[to] != FAR {
            let sum = sums[to].saturating_add(low);
            if sum < sums[from] {
                sums[from] = sum;
                lowered = true;
            }
        }
    }
    lowered
}

/// The least sum of least travel times from each node to a target, by Bellman and Ford.
pub fn plain_sums(
    alloc: Global,
    network: &Network,
    times: &Timetables,
    target: u32,
) -> Result<Vec<u64>, AllocError> {
    let mut sums = vec![in alloc; FAR; network.nodes() as usize + 1]?;
    if (target as usize) < sums.len() {
        sums[target as usize] = 0;
    }
    for _ in 0..network.nodes() {
        if !lower_all(network, times, &mut sums) {
            return Ok(sums);
        }
    }
    Ok(sums)
}

/// Whether the bound of each node is the sum; if it is only a bound, then whether it is at most the sum.
pub fn first_wrong(
    prepared: &Prepared,
    bounds: &mut Bounds,
    sums: &[u64],
    exact: bool,
) -> Option<usize>
    requires { AreBoundsOver prepared.now bounds.old }
    ensures { AreBoundsOver prepared.now bounds.new }
{
    for node in 1..sums.len() {
        if node > prepared.nodes() as usize {
            return Some(node);
        }
        let bound = bounds.bound(prepared, node as u32).map_or(FAR, u64::from);
        if bound > sums[node] || (exact && bound != sums[node]) {
            return Some(node);
        }
    }
    None
}
