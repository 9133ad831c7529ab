//! A network whose nodes are renumbered so that neighbours are near.
ghost use Rattle.std.specs.Prelude.{◌≡◌, ◌≤◌, IfErr, IfOk, IfSome, IsTrue, None, Some, is_some, length, map};
ghost use Rattle.ea_hierarchy.specs.Preparations.{IsPreparedFor};
ghost use Rattle.ea_hierarchy.specs.Orders.{IsOrder};
ghost use Rattle.ea_hierarchy.specs.declared.unprepared.Unprepared.TheVariants.{NoOrder};
ghost use Rattle.ea_layout.specs.Laid.{IsPattern, IsPreparedLaid};
ghost use Rattle.ea_layout.specs.Orders.{AreAllPlaced, LaysOut, file_roads};
ghost use Rattle.ea_layout.specs.Renamed.{renamed_arc};
ghost use Rattle.ea_road.specs.Roads.{IsNode, Roads, top_class};

use crate::clusters::in_clusters;
use crate::given_order::in_order;
use crate::order::Order;
use ea_hierarchy::{Prepared, Unprepared, elimination_order, is_order};
use ea_road::{Arc, Network};
use ea_travel_times::TravelTimes;
use std::alloc::{AllocError, Global};

/// With fewer nodes, what a search touches is near in any order.
const MANY_NODES: u32 = 65_536;

/// How many arcs are looked at, evenly spread over all.
const SAMPLE: usize = 4096;

/// An arc is short if its head's number and its tail's differ by no more than this.
const NEAR: u32 = 1024;

/// A network whose nodes are renumbered so that neighbours are near, so a search touches memory that it
/// touched shortly before. Arcs keep their numbers.
#[derive(Drop)]
pub struct Layout {
    /// The new number of each node of the network, the first that of node 1.
    pub places: Vec<u32>,
    /// The node of each new number.
    pub nodes: Vec<u32>,
    /// The network under the new numbers.
    pub network: Network,
    /// Whether searches for all nodes are likely to be faster on it.
    pub is_for_all: bool,
    /// Its preparation for pairs, if it has one.
    pub prepared: Option<Prepared>,
}

/// How many of some arcs are short, and how many are not.
fn short_and_long(network: &Network) -> (usize, usize) {
    let arcs = network.arcs();
    let stride = arcs.len() / SAMPLE;
    let mut short = 0usize;
    let mut long = 0usize;
    for count in 0..SAMPLE {
        let place = count.saturating_mul(stride);
        if place < arcs.len() {
            let arc = arcs.at(place);
            if arc.tail.abs_diff(arc.head) <= NEAR {
                short = short.saturating_add(1);
            } else {
                long = long.saturating_add(1);
            }
        }
    }
    (short, long)
}

/// An arc under new numbers of the nodes.
fn renamed(places: &[u32], arc: Arc) -> Arc
    requires tail { IsNode (length places.now) arc.tail }
    requires head { IsNode (length places.now) arc.head }
    ensures { result ≡ renamed_arc places.now arc }
{
    Arc {
        tail: places[arc.tail as usize - 1],
        head: places[arc.head as usize - 1],
        weight: arc.weight,
        class: arc.class,
    }
}

/// The arcs of a network under new numbers of the nodes.
fn renamed_arcs(alloc: Global, places: &[u32], network: &Network) -> Result<Vec<Arc>, AllocError>
    requires { length places.now ≡ network.now.nodes }
    ensures { IfOk result (λ arcs. arcs.items ≡ map (renamed_arc places.now) network.now.arcs) }
{
    let list = network.arcs();
    let mut arcs = Vec::with_capacity(alloc, list.len())?;
    for place in 0..list.len() {
        arcs.push(renamed(places, list.at(place)))?;
    }
    Ok(arcs)
}

/// A preparation of a network over the upward arcs of another, or over new ones in the order of its numbers.
fn prepared_like<T: TravelTimes>(
    alloc: Global,
    network: &Network,
    times: &T,
    given: &Prepared,
) -> Result<Prepared, Unprepared>
    requires { top_class network.now.arcs ≤ T.classes times.now }
    ensures prepared { IfOk result (IsPreparedFor network.now (T.answers times.now)) }
    ensures refused { IfErr result (λ why. why ≡ NoOrder → ⊥) }
{
    match given.like(alloc, network, times)? {
        Some(prepared) => Ok(prepared),
        None => Prepared::by_numbers(alloc, network, times),
    }
}

impl Layout {
    /// Whether searches are likely to be faster on a layout: the network is large, and most arcs lead far
    /// away in the numbers of its nodes. Looks at some arcs.
    pub fn pays(network: &Network) -> bool {
        let (short, long) = short_and_long(network);
        network.nodes() >= MANY_NODES && long > short
    }

    /// A network whose nodes are numbered in clusters of near ones. Takes time in proportion to its nodes and arcs. Takes 8 bytes for each
    /// node beside the network's own copy, and for a while up to 16 bytes more for each arc. An error comes
    /// only if memory was refused.
    pub fn new(alloc: Global, network: &Network) -> Result<Layout, AllocError>
        ensures laid_out { IfOk result (λ layout. LaysOut network.now layout) }
        ensures none { IfOk result (λ layout. layout.prepared ≡ None) }
    {
        let list = in_clusters(alloc, network)?;
        let order = in_order(alloc, network, &list)?;
        drop(list);
        Layout::by(alloc, network, order)
    }

    /// A network in an order that is given: the nodes of a list, each once, and then those that aren't in it. The order of another layout of
    /// as many nodes is its `nodes`. An error comes only if memory was refused.
    pub fn over(alloc: Global, network: &Network, list: &[u32]) -> Result<Layout, AllocError>
        ensures laid_out { IfOk result (λ layout. LaysOut network.now layout) }
        ensures none { IfOk result (λ layout. layout.prepared ≡ None) }
    {
        let order = in_order(alloc, network, list)?;
        Layout::by(alloc, network, order)
    }

    /// A network in an order of elimination, prepared for pairs: the upward arcs of a node, its arcs and its neighbours lie near to one
    /// another. `NotWorth` comes if there are too many upward arcs or triangles for the network's size, `OutOfMemory` if memory was refused.
    pub fn prepare<T: TravelTimes>(
        alloc: Global,
        network: &Network,
        times: &T,
    ) -> Result<Layout, Unprepared>
        requires { top_class network.now.arcs ≤ T.classes times.now }
        ensures laid_out { IfOk result (λ layout. LaysOut network.now layout) }
        ensures is_there { IfOk result (λ layout. IsTrue (is_some layout.prepared)) }
        ensures prepared { IfOk result (IsPreparedLaid (T.answers times.now)) }
        ensures refused { IfErr result (λ why. why ≡ NoOrder → ⊥) }
    {
        let list = elimination_order(alloc, network)?;
        let order = in_order(alloc, network, &list)?;
        drop(list);
        Layout::prepare_in(alloc, network, times, order)
    }

    /// A network in an order of its nodes that is given, prepared for pairs over it: any permutation serves, and one of nested dissection
    /// makes searches quick. `NoOrder` comes if the list is no order, `NotWorth` and `OutOfMemory` as from `prepare`. The order of another
    /// layout of as many nodes is its `nodes`.
    pub fn prepare_by<T: TravelTimes>(
        alloc: Global,
        network: &Network,
        times: &T,
        list: &[u32],
    ) -> Result<Layout, Unprepared>
        requires { top_class network.now.arcs ≤ T.classes times.now }
        ensures laid_out { IfOk result (λ layout. LaysOut network.now layout) }
        ensures is_there { IfOk result (λ layout. IsTrue (is_some layout.prepared)) }
        ensures prepared { IfOk result (IsPreparedLaid (T.answers times.now)) }
        ensures order { IfOk result (λ layout. IsOrder network.now.nodes list.now) }
        ensures refused { IfErr result (λ why. why ≡ NoOrder → IsOrder network.now.nodes list.now → ⊥) }
    {
        if !is_order(alloc, network.nodes(), list)? {
            return Err(Unprepared::NoOrder);
        }
        let order = in_order(alloc, network, list)?;
        Layout::prepare_in(alloc, network, times, order)
    }

    /// A network in an order of elimination, as from `prepare`, but not prepared yet: so the network itself may be dropped before more memory is
    /// taken. `NotWorth` and `OutOfMemory` come as from `prepare`.
    pub fn by_elimination(alloc: Global, network: &Network) -> Result<Layout, Unprepared>
        ensures laid_out { IfOk result (λ layout. LaysOut network.now layout) }
        ensures none { IfOk result (λ layout. layout.prepared ≡ None) }
        ensures refused { IfErr result (λ why. why ≡ NoOrder → ⊥) }
    {
        let list = elimination_order(alloc, network)?;
        let order = in_order(alloc, network, &list)?;
        drop(list);
        Ok(Layout::by(alloc, network, order)?)
    }

    /// The same layout, prepared for pairs over the order of its numbers; as it is, if there are too many upward arcs or triangles for the
    /// network's size, or if memory is refused.
    pub fn prepared_if_worth<T: TravelTimes>(self, alloc: Global, times: &T) -> Layout
        requires classes { top_class self.network.arcs ≤ T.classes times.now }
        requires none { self.prepared ≡ None }
        ensures laid_out { (roads : Roads) → LaysOut roads self → LaysOut roads result }
        ensures same { file_roads result ≡ file_roads self }
        ensures prepared { IsPreparedLaid (T.answers times.now) result }
    {
        match Prepared::by_numbers(alloc, &self.network, times) {
            Ok(prepared) => self.with(prepared),
            Err(_) => self,
        }
    }

    /// A network in an order of all its nodes, prepared for pairs over it.
    fn prepare_in<T: TravelTimes>(
        alloc: Global,
        network: &Network,
        times: &T,
        order: Order,
    ) -> Result<Layout, Unprepared>
        requires classes { top_class network.now.arcs ≤ T.classes times.now }
        requires nodes { length order.places ≡ network.now.nodes }
        requires all { AreAllPlaced order.places }
        ensures laid_out { IfOk result (λ layout. LaysOut network.now layout) }
        ensures is_there { IfOk result (λ layout. IsTrue (is_some layout.prepared)) }
        ensures prepared { IfOk result (IsPreparedLaid (T.answers times.now)) }
        ensures refused { IfErr result (λ why. why ≡ NoOrder → ⊥) }
    {
        let laid = Layout::by(alloc, network, order)?;
        let prepared = Prepared::by_numbers(alloc, &laid.network, times)?;
        Ok(laid.with(prepared))
    }

    /// The same layout with a preparation.
    fn with(self, prepared: Prepared) -> Layout
        ensures { result ≡ record self { prepared = Some prepared } }
    {
        let Layout {
            places,
            nodes,
            network,
            is_for_all,
            ..
        } = self;
        Layout {
            places,
            nodes,
            network,
            is_for_all,
            prepared: Some(prepared),
        }
    }

    /// A network in the order of another layout, which is prepared and has as many nodes, prepared for pairs over its upward arcs: so other
    /// weights or travel times of the same arcs take a part of the time. If an arc was added that they don't join, new ones are made over
    /// the same order. `NoOrder` comes if the other layout isn't prepared or has another number of nodes, `NotWorth` and `OutOfMemory` as from
    /// `prepare`.
    pub fn prepare_like<T: TravelTimes>(
        alloc: Global,
        network: &Network,
        times: &T,
        like: &Layout,
    ) -> Result<Layout, Unprepared>
        requires { top_class network.now.arcs ≤ T.classes times.now }
        ensures laid_out { IfOk result (λ layout. LaysOut network.now layout) }
        ensures is_there { IfOk result (λ layout. IsTrue (is_some layout.prepared)) }
        ensures prepared { IfOk result (IsPreparedLaid (T.answers times.now)) }
        ensures refused { IfErr result (λ why. why ≡ NoOrder → IsPattern network.now like.now → ⊥) }
    {
        let Some(given) = &like.prepared else {
            return Err(Unprepared::NoOrder);
        };
        if like.nodes.len() != network.nodes() as usize {
            return Err(Unprepared::NoOrder);
        }
        let order = in_order(alloc, network, &like.nodes)?;
        let laid = Layout::by(alloc, network, order)?;
        let prepared = prepared_like(alloc, &laid.network, times, given)?;
        Ok(laid.with(prepared))
    }

    /// A network in an order of all its nodes.
    fn by(alloc: Global, network: &Network, order: Order) -> Result<Layout, AllocError>
        requires nodes { length order.places ≡ network.now.nodes }
        requires all { AreAllPlaced order.places }
        ensures laid_out { IfOk result (λ layout. LaysOut network.now layout) }
        ensures none { IfOk result (λ layout. layout.prepared ≡ None) }
    {
        let is_for_all = Layout::pays(network);
        let (places, nodes) = order.into_parts();
        let arcs = renamed_arcs(alloc, &places, network)?;
        let network = Network::new(alloc, network.nodes(), arcs)?;
        Ok(Layout {
            places,
            nodes,
            network,
            is_for_all,
            prepared: None,
        })
    }

    /// Like `new`; none if it isn't likely to pay.
    pub fn of(alloc: Global, network: &Network) -> Result<Option<Layout>, AllocError>
        ensures laid_out { IfOk result (λ found. IfSome found (λ layout. LaysOut network.now layout)) }
        ensures none { IfOk result (λ found. IfSome found (λ layout. layout.prepared ≡ None)) }
    {
        if !Layout::pays(network) {
            return Ok(None);
        }
        Ok(Some(Layout::new(alloc, network)?))
    }
}
