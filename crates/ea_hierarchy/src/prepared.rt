ghost use Rattle.std.specs.Prelude.{◌≡◌, ◌≤◌, ◌<◌, ◌+◌, ◌-◌, ◌^◌, ℕ, IfErr, IfNone, IfOk, IfSome, length};
ghost use Rattle.ea_road.specs.Roads.{IsNode, top_class};
ghost use Rattle.ea_hierarchy.specs.Growth.{AreJoined};
ghost use Rattle.ea_hierarchy.specs.Hierarchies.{AreNumbers, AreParents, AreRanks, AreUpward, IsHierarchy, rank_of};
ghost use Rattle.ea_hierarchy.specs.Orders.{IsOrder};
ghost use Rattle.ea_hierarchy.specs.Preparations.{IsPreparedFor, IsPreparedOver};
ghost use Rattle.ea_hierarchy.specs.declared.unprepared.Unprepared.TheVariants.{NoOrder};

use crate::chains::Chains;
use crate::cover::cover;
use crate::customize::{Numbers, relax};
use crate::joined::are_joined;
use crate::landmarks::Landmarks;
use crate::numbers::NONE;
use crate::postorder::elimination_order;
use crate::ranks::{Ranks, is_order};
use crate::trimmed::Trimmed;
use crate::unprepared::Unprepared;
use crate::upward::{Limits, Upward, mean_arcs_above, upward_of};
use ea_road::Network;
use ea_travel_times::TravelTimes;
use std::alloc::{AllocError, Global};
use std::marker::Model;

/// A prepared road: a customizable contraction hierarchy (Dibbelt, Strasser and Wagner, 2016) over least
/// travel times. The nodes have ranks in an order; upward arcs join them such that two heads of a rank are
/// joined, too; and each has two numbers, one for each direction. In contracts it is these lists.
#[derive(Drop)]
pub struct Prepared {
    pub(crate) ranks: Ranks,
    pub(crate) upward: Upward,
    pub(crate) numbers: Numbers,
    pub(crate) trimmed_ups: Trimmed,
    pub(crate) trimmed_downs: Trimmed,
    chains: Chains,
    /// How many nodes a search may scan in less than the time of a first bound.
    near: u32,
    landmarks: Landmarks,
}

impl Model for Prepared {
    ghost use Rattle.ea_hierarchy.specs.Hierarchies.{AreParents, Hierarchy, IsHierarchy};
    ghost use Rattle.ea_hierarchy.specs.Trimmed.{AreTrimmed};

    ghost Value = { Hierarchy };

    ghost view = { λ p. record {
      ranks = p.ranks;
      firsts = p.upward.firsts.items;
      heads = p.upward.heads.items;
      ups = p.numbers.ups.items;
      downs = p.numbers.downs.items;
    } };

    ghost invariant = { λ p. IsHierarchy (record {
      ranks = p.ranks;
      firsts = p.upward.firsts.items;
      heads = p.upward.heads.items;
      ups = p.numbers.ups.items;
      downs = p.numbers.downs.items;
    })
        × AreTrimmed p.upward.firsts.items p.upward.heads.items p.numbers.ups.items
        p.trimmed_ups.rows.items
        × AreTrimmed p.upward.firsts.items p.upward.heads.items p.numbers.downs.items
        p.trimmed_downs.rows.items
        × AreParents p.upward.firsts.items p.upward.heads.items p.upward.parents.items };
}

/// The upward arcs of a network over the ranks of its nodes; none if there are too many of them or of triangles.
fn upward_over(
    alloc: Global,
    network: &Network,
    ranks: &Ranks,
) -> Result<Option<Upward>, AllocError>
    requires { AreRanks network.now.nodes ranks.now }
    ensures upward { IfOk result (λ made. IfSome made (λ upward.
        AreUpward upward.firsts.items upward.heads.items)) }
    ensures nodes { IfOk result (λ made. IfSome made (λ upward.
        length upward.firsts.items ≡ network.now.nodes + 1)) }
    ensures joined { IfOk result (λ made. IfSome made (λ upward.
        AreJoined network.now ranks.now upward.firsts.items upward.heads.items)) }
    ensures parents { IfOk result (λ made. IfSome made (λ upward.
        AreParents upward.firsts.items upward.heads.items upward.parents.items)) }
{
    network.keeps_limits();
    upward_of(alloc, network, ranks, Limits::of(network))
}

/// How many nodes a search scans before `Prepared::near` is asked.
pub const FIRST_NEAR: u32 = 128;

/// How many nodes are near if the network has small cuts.
const LEAST_NEAR: u32 = 1_100;

/// How many upward arcs on a way up there are for each node that is near, if it has large ones.
const ARCS_A_NODE: u64 = 40;

/// How many nodes a search without bounds may scan in less than the time of a first bound.
fn near_by(upward: &Upward) -> u32 {
    let nodes = mean_arcs_above(upward) / ARCS_A_NODE;
    (nodes.min(u64::from(NONE)) as u32).max(LEAST_NEAR)
}

/// Whether a target that is this far away is likely to have more nodes before it than may be scanned, if `FIRST_NEAR` of them are as near as was
/// searched: their number grows with the square of the distance. Some more are allowed, since landmarks make it shorter.
fn is_beyond(apart: u32, searched: u64, near: u32) -> bool {
    let apart = u64::from(apart);
    let nodes = apart
        .saturating_mul(apart)
        .saturating_mul(u64::from(FIRST_NEAR));
    let most = u64::from(near.saturating_add(LEAST_NEAR));
    nodes > searched.saturating_mul(searched).saturating_mul(most)
}

/// Numbers at upward arcs for these travel times.
fn numbers_for<T: TravelTimes>(
    alloc: Global,
    network: &Network,
    times: &T,
    ranks: &Ranks,
    upward: &Upward,
) -> Result<Numbers, AllocError>
    requires classes { top_class network.now.arcs ≤ T.classes times.now }
    requires upward { AreUpward upward.now.firsts.items upward.now.heads.items }
    requires nodes { length upward.now.firsts.items ≡ network.now.nodes + 1 }
    requires ranks { AreRanks network.now.nodes ranks.now }
    requires joined { AreJoined network.now ranks.now upward.now.firsts.items
        upward.now.heads.items }
    ensures { IfOk result (λ numbers. IsPreparedFor network.now (T.answers times.now) (record {
      ranks = ranks.now;
      firsts = upward.now.firsts.items;
      heads = upward.now.heads.items;
      ups = numbers.ups.items;
      downs = numbers.downs.items;
    })
        × IsHierarchy (record {
          ranks = ranks.now;
          firsts = upward.now.firsts.items;
          heads = upward.now.heads.items;
          ups = numbers.ups.items;
          downs = numbers.downs.items;
        })) }
{
    network.keeps_limits();
    let mut numbers = Numbers::none(alloc, upward.heads.len())?;
    cover(network, times, ranks, upward, &mut numbers);
    relax(upward, &mut numbers);
    Ok(numbers)
}

impl Prepared {
    /// A preparation of a network over a separate order: the nodes are eliminated by least degree and level.
    /// `NotWorth` comes if there are too many upward arcs or triangles for the network's size, `OutOfMemory` if
    /// memory was refused.
    pub fn of<T: TravelTimes>(
        alloc: Global,
        network: &Network,
        times: &T,
    ) -> Result<Prepared, Unprepared>
        requires { top_class network.now.arcs ≤ T.classes times.now }
        ensures prepared { IfOk result (IsPreparedFor network.now (T.answers times.now)) }
        ensures refused { IfErr result (λ why. why ≡ NoOrder → ⊥) }
    {
        let order = elimination_order(alloc, network)?;
        let ranks = Ranks::in_order(alloc, network.nodes(), &order)?;
        drop(order);
        Prepared::over(alloc, network, times, ranks)
    }

    /// A preparation of a network over the order of its numbers, such as of one that was renumbered in an `elimination_order`. `NotWorth` and
    /// `OutOfMemory` come as from `of`.
    pub fn by_numbers<T: TravelTimes>(
        alloc: Global,
        network: &Network,
        times: &T,
    ) -> Result<Prepared, Unprepared>
        requires { top_class network.now.arcs ≤ T.classes times.now }
        ensures prepared { IfOk result (IsPreparedFor network.now (T.answers times.now)) }
        ensures refused { IfErr result (λ why. why ≡ NoOrder → ⊥) }
    {
        let ranks = Ranks::by_numbers(network.nodes());
        Prepared::over(alloc, network, times, ranks)
    }

    /// A preparation of a network over an order of its nodes: any permutation serves. `NoOrder` comes if the list is no order, `NotWorth` if
    /// there are too many upward arcs or triangles for the network's size, `OutOfMemory` if memory was refused.
    pub fn with_order<T: TravelTimes>(
        alloc: Global,
        network: &Network,
        times: &T,
        order: &[u32],
    ) -> Result<Prepared, Unprepared>
        requires { top_class network.now.arcs ≤ T.classes times.now }
        ensures prepared { IfOk result (IsPreparedFor network.now (T.answers times.now)) }
        ensures order { IfOk result (λ prepared. IsOrder network.now.nodes order.now) }
        ensures refused { IfErr result (λ why. why ≡ NoOrder → IsOrder network.now.nodes order.now → ⊥) }
    {
        if !is_order(alloc, network.nodes(), order)? {
            return Err(Unprepared::NoOrder);
        }
        let ranks = Ranks::in_order(alloc, network.nodes(), order)?;
        Prepared::over(alloc, network, times, ranks)
    }

    /// A preparation of a network over any ranks of its nodes.
    fn over<T: TravelTimes>(
        alloc: Global,
        network: &Network,
        times: &T,
        ranks: Ranks,
    ) -> Result<Prepared, Unprepared>
        requires classes { top_class network.now.arcs ≤ T.classes times.now }
        requires ranks { AreRanks network.now.nodes ranks }
        ensures prepared { IfOk result (IsPreparedFor network.now (T.answers times.now)) }
        ensures refused { IfErr result (λ why. why ≡ NoOrder → ⊥) }
    {
        let Some(upward) = upward_over(alloc, network, &ranks)? else {
            return Err(Unprepared::NotWorth);
        };
        Ok(Prepared::on(alloc, network, times, ranks, upward)?)
    }

    /// A preparation of a network over upward arcs that join the ends of its arcs.
    fn on<T: TravelTimes>(
        alloc: Global,
        network: &Network,
        times: &T,
        ranks: Ranks,
        upward: Upward,
    ) -> Result<Prepared, AllocError>
        requires classes { top_class network.now.arcs ≤ T.classes times.now }
        requires upward { AreUpward upward.firsts.items upward.heads.items }
        requires nodes { length upward.firsts.items ≡ network.now.nodes + 1 }
        requires ranks { AreRanks network.now.nodes ranks }
        requires joined { AreJoined network.now ranks upward.firsts.items upward.heads.items }
        requires parents { AreParents upward.firsts.items upward.heads.items upward.parents.items }
        ensures { IfOk result (IsPreparedFor network.now (T.answers times.now)) }
    {
        let numbers = numbers_for(alloc, network, times, &ranks, &upward)?;
        let chains = Chains::of(alloc, network)?;
        let near = near_by(&upward);
        let mut landmarks = Landmarks::none(alloc);
        landmarks.fill(&upward, &numbers)?;
        let mut trimmed_ups = Trimmed::none(alloc);
        trimmed_ups.fill(&upward, &numbers.ups)?;
        let mut trimmed_downs = Trimmed::none(alloc);
        trimmed_downs.fill(&upward, &numbers.downs)?;
        Ok(Prepared {
            ranks,
            upward,
            numbers,
            trimmed_ups,
            trimmed_downs,
            chains,
            near,
            landmarks,
        })
    }

    /// A preparation of a network with the same arcs, but other weights or travel times: the upward arcs stay as they are, so it takes a
    /// part of the time of another preparation. None if they don't join the ends of each arc, as those of one that was added. An error
    /// comes only if memory was refused.
    pub fn like<T: TravelTimes>(
        &self,
        alloc: Global,
        network: &Network,
        times: &T,
    ) -> Result<Option<Prepared>, AllocError>
        requires { top_class network.now.arcs ≤ T.classes times.now }
        ensures prepared { IfOk result (λ made. IfSome made
            (IsPreparedFor network.now (T.answers times.now))) }
        ensures none { IfOk result (λ made. IfNone made (IsPreparedOver network.now self.now → ⊥)) }
    {
        network.keeps_limits();
        if self.nodes() != network.nodes() {
            return Ok(None);
        }
        if !are_joined(network, &self.ranks, &self.upward) {
            return Ok(None);
        }
        let ranks = self.ranks.again(alloc)?;
        let upward = self.upward.again(alloc)?;
        let made = Prepared::on(alloc, network, times, ranks, upward)?;
        Ok(Some(made))
    }

    /// Makes the numbers anew for other travel times of the same arcs. If memory for the rows of arcs that are left or for landmarks is
    /// refused, searches are slower.
    pub fn customize<T: TravelTimes>(&mut self, network: &Network, times: &T)
        requires classes { top_class network.now.arcs ≤ T.classes times.now }
        requires over { IsPreparedOver network.now self.old }
        ensures { IsPreparedFor network.now (T.answers times.now) self.new }
    {
        network.keeps_limits();
        self.numbers.forget();
        cover(network, times, &self.ranks, &self.upward, &mut self.numbers);
        relax(&self.upward, &mut self.numbers);
        let _ = self.trimmed_ups.fill(&self.upward, &self.numbers.ups);
        let _ = self.trimmed_downs.fill(&self.upward, &self.numbers.downs);
        let _ = self.landmarks.fill(&self.upward, &self.numbers);
    }

    /// The number of nodes.
    pub fn nodes(&self) -> u32
        ensures { result ≡ length self.now.ranks }
    {
        self.ranks.nodes()
    }

    /// The order of the nodes, from the first that is passed over to the last: it serves any road with as many nodes. An error comes only if
    /// memory was refused.
    pub fn order(&self, alloc: Global) -> Result<Vec<u32>, AllocError> {
        let nodes = self.ranks.nodes();
        let mut order = vec![in alloc; 0u32; nodes as usize]?;
        for node in 1..=nodes {
            if let Some(slot) = order.get_mut(self.ranks.of(node) as usize) {
                *slot = node;
            }
        }
        Ok(order)
    }

    /// Whether a node is on a chain: it has at most two neighbours, so a search may pass through it without a bound.
    #[inline(always)]
    pub fn is_on_chain(&self, node: u32) -> bool {
        self.chains.has(node)
    }

    /// How many upward arcs bounds need no look at, since two others replace them, in both directions together.
    pub fn left_out(&self) -> u64 {
        self.trimmed_ups
            .left_out
            .saturating_add(self.trimmed_downs.left_out)
    }

    /// How many more nodes a search from a source may scan before it is led by bounds to a target, once it scanned `FIRST_NEAR` of them, up to
    /// this time after its departure: less than take the time of a first bound. None if the target is likely to be beyond them.
    pub fn near(&self, source: u32, target: u32, searched: u64) -> u32 {
        let apart = self.apart(source, target);
        if is_beyond(apart, searched, self.near) {
            0
        } else {
            self.near
        }
    }

    /// How far apart two nodes are by landmarks, rounded down by up to a 16,000th of the longest time to one; 0 if it isn't known. No more than
    /// the least travel time between them if all arcs take as long in both directions. A hint for what to try first, and no bound.
    pub fn apart(&self, source: u32, target: u32) -> u32 {
        self.landmarks.apart(self.rank(source), self.rank(target))
    }

    /// The rank of a node; 0 if there is no such node.
    fn rank(&self, node: u32) -> u32 {
        if node == 0 {
            return 0;
        }
        if node > self.ranks.nodes() {
            return 0;
        }
        self.ranks.of(node)
    }

    /// For proofs: the upward arcs and their numbers are in order. Does nothing at run time.
    pub fn keeps_order(&self)
        ensures { IsHierarchy self.now }
    {
        let _ = &self.ranks;
    }
}
