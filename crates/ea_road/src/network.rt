ghost use Rattle.std.specs.Prelude.{◌≡◌, ◌≤◌, ◌<◌, ◌↔◌, IfOk, IsTrue, MatchResult, length, map};
ghost use Rattle.ea_road.specs.Index.{AreSums, AreSumsAndNumbers, IsRoom};
ghost use Rattle.ea_road.specs.Turned.{turned_roads};
ghost use Rattle.ea_road.specs.Roads.{AreSideBySide, FitsNodes, IsArc, IsNetwork, IsNode, leaving, mean_weight, top_class, without_tail};

use crate::arc::Arc;
use crate::arc_list::ArcList;
use crate::leaving_arc::LeavingArc;
use crate::numbered_arcs::NumberedArcs;
use crate::tail_index::{
    Room, Sums, index_by_tail, index_by_tail_by, numbers_to, sums_of, without_tails,
};
use crate::turned_arcs::turned_arcs;
use ea_base::{MOST_ARCS, MOST_NODES};
use std::alloc::{AllocError, Global};
use std::marker::Model;
use std::thread::{Threads, join};

/// From this number of arcs on, two threads build a network.
const MANY_ARCS: usize = 65_536;

/// A road network: nodes numbered from 1, and arcs numbered from 1 in the order in which they were given. In
/// contracts it is its number of nodes and its arcs.
#[derive(Drop)]
pub struct Network {
    arcs: NumberedArcs,
    /// The index of each node's first arc in `numbers` and `by_tail`, and at the end that after the last arc.
    starts: Vec<u32>,
    /// The numbers of the arcs by their tails, ascending for each tail.
    numbers: Vec<u32>,
    /// The arcs themselves, in the order of `numbers`.
    by_tail: Vec<LeavingArc>,
    /// The greatest class of an arc.
    top: u32,
    /// The mean weight of the arcs, rounded down.
    mean: u64,
}

impl Model for Network {
    ghost use Rattle.std.specs.Prelude.{◌≡◌};
    ghost use Rattle.ea_road.specs.Roads.{Roads, mean_weight, top_class};
    ghost use Rattle.ea_road.specs.Index.{IsStoredNetwork};

    ghost Value = { Roads };

    ghost view = { λ n. n.arcs };

    ghost invariant = { λ n. (n.top ≡ top_class n.arcs.arcs)
        × (n.mean ≡ mean_weight n.arcs.arcs)
        × IsStoredNetwork n.arcs n.starts.items n.numbers.items n.by_tail.items };
}

/// The arcs that leave a node, contiguous in memory, and their numbers, ascending.
#[derive(Clone, Copy)]
pub struct Leaving<'a> {
    pub numbers: &'a [u32],
    pub arcs: &'a [LeavingArc],
}

impl Network {
    /// A network of this many nodes, numbered from 1, and these arcs. Takes time in proportion to both. Fails
    /// only if memory for the list of arcs or for their index by tail is refused; then the arcs are dropped.
    pub fn new(alloc: Global, nodes: u32, arcs: Vec<Arc>) -> Result<Network, AllocError>
        requires { IsNetwork (record { nodes = nodes; arcs = arcs.items }) }
        ensures { IfOk result (λ network. network ≡ record { nodes = nodes; arcs = arcs.items }) }
    {
        let list = ArcList::of(alloc, &arcs)?;
        drop(arcs);
        Network::of_arcs(alloc, NumberedArcs::new(nodes, list))
    }

    /// Like `new`, from numbered arcs.
    pub fn of_arcs(alloc: Global, arcs: NumberedArcs) -> Result<Network, AllocError>
        ensures { IfOk result (λ network. network ≡ arcs) }
    {
        match Network::or_arcs(alloc, arcs) {
            Ok(network) => Ok(network),
            Err(_) => Err(AllocError),
        }
    }

    /// Like `of_arcs`. If memory is refused, the arcs are given back.
    pub fn or_arcs(alloc: Global, arcs: NumberedArcs) -> Result<Network, NumberedArcs>
        ensures { MatchResult result (λ network. network ≡ arcs) (λ back. back ≡ arcs) }
    {
        let Ok((sums, numbers)) = sums_and_numbers(alloc, &arcs) else {
            return Err(arcs);
        };
        let Ok(by_tail) = without_tails(alloc, arcs.arcs()) else {
            return Err(arcs);
        };
        Ok(indexed(arcs, sums, Room { numbers, by_tail }))
    }

    /// Like `of_arcs`, in two threads if there are many arcs and a second thread can be started. One counts
    /// the arcs and allocates their numbers by tail; the other allocates the arcs by tail, which takes most
    /// of the time.
    pub fn of_arcs_by<H: Threads + Sync>(
        alloc: Global,
        rt: &H,
        arcs: NumberedArcs,
    ) -> Result<Network, AllocError>
        ensures { IfOk result (λ network. network ≡ arcs) }
    {
        if arcs.arcs().len() < MANY_ARCS {
            return Network::of_arcs(alloc, arcs);
        }
        let (sums, by_tail) = sums_and_room(alloc, rt, &arcs);
        let (sums, numbers) = sums?;
        let by_tail = by_tail?;
        let room = Room { numbers, by_tail };
        Ok(indexed_by(rt, arcs, sums, room))
    }

    /// The network with every arc turned round: it leads from the head to the tail, with its number, weight and class. An error comes only
    /// if memory for the arcs or for their index was refused.
    pub fn turned(&self, alloc: Global) -> Result<Network, AllocError>
        ensures { IfOk result (λ network. network ≡ turned_roads self.now) }
    {
        let arcs = turned_arcs(alloc, self.arcs())?;
        Network::new(alloc, self.nodes(), arcs)
    }

    /// Whether these nodes and arcs make a network: 1 to 67,108,864 nodes, at most 268,435,456 arcs, and each
    /// tail and head a node.
    pub fn fits(nodes: u32, arcs: &[Arc]) -> bool
        ensures { IsTrue result ↔ IsNetwork (record { nodes = nodes; arcs = arcs.now }) }
    {
        if nodes == 0 || nodes > MOST_NODES || arcs.len() > MOST_ARCS as usize {
            return false;
        }
        for arc in arcs {
            if !fits_nodes(nodes, *arc) {
                return false;
            }
        }
        true
    }

    /// The greatest class of an arc, 0 without arcs.
    pub fn top_class(&self) -> u32
        ensures { result ≡ top_class self.now.arcs }
    {
        self.top
    }

    /// The mean weight of the arcs, rounded down; 0 without arcs. A search may choose its method by it.
    pub fn mean_weight(&self) -> u64
        ensures { result ≡ mean_weight self.now.arcs }
    {
        self.mean
    }

    /// The network without its index.
    pub fn numbered(&self) -> &NumberedArcs
        ensures { result.now ≡ self.now }
    {
        &self.arcs
    }

    /// The number of nodes.
    pub fn nodes(&self) -> u32
        ensures nodes { result ≡ self.now.nodes }
        ensures network { IsNetwork self.now }
    {
        self.arcs.nodes()
    }

    /// For proofs: the limits hold, and each arc's ends are nodes. Does nothing at run time.
    pub fn keeps_limits(&self)
        ensures { IsNetwork self.now }
    {
        let _ = self.nodes();
    }

    /// The arcs, in the order of their numbers.
    pub fn arcs(&self) -> &ArcList
        ensures arcs { result.now ≡ self.now.arcs }
        ensures network { IsNetwork self.now }
    {
        self.arcs.arcs()
    }

    /// The arc of a number, from 1.
    pub fn arc(&self, number: u32) -> Arc
        requires from_one { 0 < number }
        requires to_last { number ≤ length self.now.arcs }
        ensures arc { IsArc self.now number result }
        ensures fits { FitsNodes self.now.nodes result }
        ensures network { IsNetwork self.now }
    {
        self.arcs.arc(number)
    }

    /// The numbers of the arcs that leave a node, ascending.
    pub fn out(&self, node: u32) -> &[u32]
        requires { IsNode self.now.nodes node }
        ensures { result.now ≡ leaving self.now node }
    {
        let from = self.starts[node as usize - 1] as usize;
        let to = self.starts[node as usize] as usize;
        &self.numbers[from..to]
    }

    /// The arcs that leave a node, with their numbers. They are contiguous, so a scan reads memory in order.
    pub fn leaving(&self, node: u32) -> Leaving<'_>
        requires { IsNode self.now.nodes node }
        ensures numbers { result.numbers.now ≡ leaving self.now node }
        ensures arcs { AreSideBySide self.now node result.numbers.now result.arcs.now }
        ensures network { IsNetwork self.now }
    {
        let from = self.starts[node as usize - 1] as usize;
        let to = self.starts[node as usize] as usize;
        Leaving {
            numbers: &self.numbers[from..to],
            arcs: &self.by_tail[from..to],
        }
    }

    /// Prefetches the offset of a node's leaving arcs. The returned number has no meaning.
    pub fn touch_place(&self, node: u32) -> u32 {
        match self.starts.get((node as usize).wrapping_sub(1)) {
            Some(place) => *place,
            None => 0,
        }
    }

    /// Prefetches the first arc that leaves a node. The returned number has no meaning.
    pub fn touch_arc(&self, node: u32) -> u32 {
        match self.by_tail.get(self.touch_place(node) as usize) {
            Some(arc) => arc.head,
            None => 0,
        }
    }
}

/// The sums over a network's arcs, and the arcs' numbers in order.
fn sums_and_numbers(alloc: Global, arcs: &NumberedArcs) -> Result<(Sums, Vec<u32>), AllocError>
    ensures { IfOk result (AreSumsAndNumbers arcs.now.nodes arcs.now.arcs) }
{
    let sums = sums_of(alloc, arcs.nodes(), arcs.arcs())?;
    let numbers = numbers_to(alloc, arcs.arcs().len())?;
    Ok((sums, numbers))
}

/// The same, and the arcs without their tails, in two threads if a second one can be started.
fn sums_and_room<H: Threads + Sync>(
    alloc: Global,
    rt: &H,
    arcs: &NumberedArcs,
) -> (
    Result<(Sums, Vec<u32>), AllocError>,
    Result<Vec<LeavingArc>, AllocError>,
)
    ensures sums { IfOk result.0 (AreSumsAndNumbers arcs.now.nodes arcs.now.arcs) }
    ensures by_tail { IfOk result.1
        (λ by_tail. by_tail.items ≡ map without_tail arcs.now.arcs) }
{
    let sums = move || -> Result<(Sums, Vec<u32>), AllocError>
        ensures { IfOk result (AreSumsAndNumbers arcs.entry.now.nodes arcs.entry.now.arcs) }
    { sums_and_numbers(alloc, arcs) };
    let by_tail = move || -> Result<Vec<LeavingArc>, AllocError>
        ensures { IfOk result
            (λ by_tail. by_tail.items ≡ map without_tail arcs.entry.now.arcs) }
    { without_tails(alloc, arcs.arcs()) };
    join(rt, sums, by_tail)
}

/// A network from the sums over its arcs, with its index built in this room.
fn indexed(arcs: NumberedArcs, sums: Sums, room: Room) -> Network
    requires sums { AreSums arcs.nodes arcs.arcs sums }
    requires room { IsRoom arcs.arcs room }
    ensures { result ≡ arcs }
{
    let Sums {
        top,
        mean,
        ascending,
        parts,
        ends: mut starts,
    } = sums;
    let Room { numbers, by_tail } = index_by_tail(
        arcs.nodes(),
        arcs.arcs(),
        ascending,
        parts,
        &mut starts,
        room,
    );
    Network {
        arcs,
        starts,
        numbers,
        by_tail,
        top,
        mean,
    }
}

/// The same; the index is built in several threads if that is worth it and others can be started.
fn indexed_by<H: Threads + Sync>(rt: &H, arcs: NumberedArcs, sums: Sums, room: Room) -> Network
    requires sums { AreSums arcs.nodes arcs.arcs sums }
    requires room { IsRoom arcs.arcs room }
    ensures { result ≡ arcs }
{
    let Sums {
        top,
        mean,
        ascending,
        parts,
        ends: mut starts,
    } = sums;
    let Room { numbers, by_tail } = index_by_tail_by(
        rt,
        arcs.nodes(),
        arcs.arcs(),
        ascending,
        parts,
        &mut starts,
        room,
    );
    Network {
        arcs,
        starts,
        numbers,
        by_tail,
        top,
        mean,
    }
}

/// Whether an arc's ends are nodes.
fn fits_nodes(nodes: u32, arc: Arc) -> bool
    ensures { IsTrue result ↔ FitsNodes nodes arc }
{
    0 < arc.tail && arc.tail <= nodes && 0 < arc.head && arc.head <= nodes
}
