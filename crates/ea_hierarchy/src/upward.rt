//! The upward arcs over an order: the lowest head of a rank, its parent, takes over its other heads.
ghost use Rattle.std.specs.Prelude.{◌≡◌, ◌≤◌, ◌<◌, ◌+◌, ◌-◌, ◌^◌, ◌++◌, ℕ, All, Contains, List, IfOk, IfSome, OnOk, length, slice_index, true};
ghost use Rattle.ea_hierarchy.specs.Growth.{AreJoined, AreMade, IsGrowing, IsOverArc, IsOverChild, heads_of};
ghost use Rattle.ea_hierarchy.specs.Hierarchies.{AreParents, AreRanks, AreUpward, IsParent, IsParentAbove};
ghost use Rattle.ea_hierarchy.specs.Waiting.{AreArcsWaiting, Finds, higher_ends, lower_ends};

use crate::numbers::NONE;
use crate::ranks::Ranks;
use crate::waiting::{Waiting, append_once, arcs_waiting, find_over_arcs};
use ea_road::Network;
use std::alloc::{AllocError, Global};

/// Upward arcs: the place of each rank's first, and at the end that after the last; and their heads.
#[derive(Drop)]
pub(crate) struct Upward {
    pub(crate) firsts: Vec<u32>,
    pub(crate) heads: Vec<u32>,
    /// How far above each rank its lowest head is, so that a way up reads one short list; 0 if it has none, or 16 bits don't hold it.
    pub(crate) parents: Vec<u16>,
}

/// A copy of a list.
pub(crate) fn copy_of<T: Copy>(alloc: Global, list: &[T]) -> Result<Vec<T>, AllocError>
    ensures { IfOk result (λ copy. copy.items ≡ list.now) }
{
    let mut copy = Vec::with_capacity(alloc, list.len())?;
    copy.extend_from_slice(list)?;
    Ok(copy)
}

impl Upward {
    /// The same upward arcs once more.
    pub(crate) fn again(&self, alloc: Global) -> Result<Upward, AllocError>
        ensures firsts { IfOk result (λ it. it.firsts.items ≡ self.now.firsts.items) }
        ensures heads { IfOk result (λ it. it.heads.items ≡ self.now.heads.items) }
        ensures parents { IfOk result (λ it. it.parents.items ≡ self.now.parents.items) }
    {
        let firsts = copy_of(alloc, &self.firsts)?;
        let heads = copy_of(alloc, &self.heads)?;
        let parents = copy_of(alloc, &self.parents)?;
        Ok(Upward {
            firsts,
            heads,
            parents,
        })
    }

    /// The lowest head of a rank, `NONE` if it has none.
    #[inline(always)]
    pub(crate) fn parent(&self, rank: u32) -> u32
        requires upward { AreUpward self.now.firsts.items self.now.heads.items }
        requires few { length self.now.firsts.items < 2 ^ 32 }
        requires parents { AreParents self.now.firsts.items self.now.heads.items
            self.now.parents.items }
        requires rank { rank < length self.now.firsts.items - 1 }
        ensures { IsParent self.now.firsts.items self.now.heads.items rank result }
    {
        let distance = self.parents[rank as usize];
        if distance > 0 {
            return rank + u32::from(distance);
        }
        lowest_head(&self.firsts, &self.heads, rank as usize)
    }
}

/// How many upward arcs a network may have, and triangles over their lower ends, for a preparation to be worth it.
#[derive(Clone, Copy)]
pub(crate) struct Limits {
    pub(crate) arcs: u32,
    pub(crate) triangles: u64,
}

impl Limits {
    /// Some for each node and arc of a network.
    pub(crate) fn of(network: &Network) -> Limits {
        let size = u64::from(network.nodes()) + network.arcs().len() as u64;
        Limits {
            arcs: (4096 + 16 * size).min(u64::from(NONE)) as u32,
            triangles: 1_048_576 + 256 * size,
        }
    }
}

/// The upward arcs of the first ranks, and the lowest head of each of these, `NONE` if it has none.
#[derive(Drop)]
pub(crate) struct FirstArcs {
    firsts: Vec<u32>,
    heads: Vec<u32>,
    parents: Vec<u32>,
}

/// The upward arcs of the first ranks, while those of the others aren't made.
#[derive(Drop)]
pub(crate) struct Growing {
    upward: FirstArcs,
    /// The first ranks wait at their parents: they are the children of these.
    children: Waiting,
}

impl Growing {
    /// No upward arcs yet, of this many ranks.
    fn none(alloc: Global, ranks: usize) -> Result<Growing, AllocError>
        ensures growing { IfOk result (λ it. IsGrowing ranks 0 it) }
        ensures made { IfOk result (λ it. (lows highs : List ℕ)
            → AreMade 0 lows highs it.upward.firsts.items it.upward.heads.items) }
    {
        let mut firsts = Vec::with_capacity(alloc, ranks.saturating_add(1))?;
        let heads = Vec::new(alloc);
        let parents = Vec::with_capacity(alloc, ranks)?;
        let children = Waiting::none(alloc, ranks, ranks)?;
        firsts.push(0)?;
        let upward = FirstArcs {
            firsts,
            heads,
            parents,
        };
        Ok(Growing { upward, children })
    }
}

/// Puts the heads of a rank into a list.
fn copy_heads(upward: &FirstArcs, rank: usize, found: &mut Vec<u32>) -> Result<(), AllocError>
    requires inside { rank + 1 < length upward.now.firsts.items }
    requires rises { slice_index upward.now.firsts.items rank
        ≤ slice_index upward.now.firsts.items (rank + 1) }
    requires within { slice_index upward.now.firsts.items (rank + 1)
        ≤ length upward.now.heads.items }
    ensures { OnOk result (found.new.items ≡ found.old.items
        ++ heads_of upward.now.firsts.items upward.now.heads.items rank) }
{
    let first = upward.firsts[rank] as usize;
    let end = upward.firsts[rank + 1] as usize;
    found.extend_from_slice(&upward.heads[first..end])
}

/// Puts the heads of the children of a rank into a list. The rank itself may be among them.
fn find_over_children(growing: &Growing, rank: u32, found: &mut Vec<u32>) -> Result<(), AllocError>
    requires growing { IsGrowing (length growing.now.children.newest.items)
        (length growing.now.children.earlier.items) growing.now }
    requires rank { rank < length growing.now.children.newest.items }
    ensures { OnOk result (Finds (length growing.now.children.newest.items) (IsOverChild
        growing.now.upward.firsts.items growing.now.upward.heads.items
        growing.now.upward.parents.items rank) found.old.items found.new.items) }
{
    let mut number = growing.children.newest[rank as usize];
    while number > 0 {
        let child = number as usize - 1;
        copy_heads(&growing.upward, child, found)?;
        number = growing.children.earlier[child];
    }
    Ok(())
}

/// The heads of a rank, ascending, some more than once and others no higher than the rank itself.
fn find_heads(
    network: &Network,
    ranks: &Ranks,
    arcs: &Waiting,
    rank: u32,
    growing: &Growing,
    found: &mut Vec<u32>,
) -> Result<(), AllocError>
    requires ranks { AreRanks network.now.nodes ranks.now }
    requires arcs { AreArcsWaiting network.now ranks.now arcs.now.newest.items arcs.now.earlier.items }
    requires rank { rank < network.now.nodes }
    requires growing { IsGrowing network.now.nodes rank growing.now }
    ensures ascend { OnOk result ((place later : ℕ) → place ≤ later → later < length found.new.items
        → slice_index found.new.items place ≤ slice_index found.new.items later) }
    ensures below { OnOk result (All (λ head. head < network.now.nodes) found.new.items) }
    ensures arcs { OnOk result ((head : ℕ) → IsOverArc (lower_ends ranks.now network.now.arcs)
        (higher_ends ranks.now network.now.arcs) rank head → Contains found.new.items head) }
    ensures children { OnOk result ((head : ℕ) → IsOverChild growing.now.upward.firsts.items
        growing.now.upward.heads.items growing.now.upward.parents.items rank head
        → Contains found.new.items head) }
{
    found.clear();
    find_over_arcs(network, ranks, arcs, rank, found)?;
    // Arcs come in the order of their heads more often than not, and the newest came first: a list that only rises is sorted faster.
    found.reverse();
    find_over_children(growing, rank, found)?;
    found.sort_unstable();
    Ok(())
}

/// The lowest head of a rank, `NONE` if it has none.
fn lowest_head(firsts: &[u32], heads: &[u32], rank: usize) -> u32
    requires rank { rank + 1 < length firsts.now }
    requires within { slice_index firsts.now (rank + 1) ≤ length heads.now }
    requires heads { slice_index firsts.now rank < slice_index firsts.now (rank + 1)
        → slice_index heads.now (slice_index firsts.now rank) < NONE }
    ensures { IsParent firsts.now heads.now rank result }
{
    let first = firsts[rank];
    if first >= firsts[rank + 1] {
        return NONE;
    }
    heads[first as usize]
}

/// How far above a rank its lowest head is; 0 if it has none, or 16 bits don't hold it.
fn distance_of(firsts: &[u32], heads: &[u32], rank: usize) -> u16
    requires upward { AreUpward firsts.now heads.now }
    requires few { length firsts.now < 2 ^ 32 }
    requires rank { rank < length firsts.now - 1 }
    ensures { IsParentAbove firsts.now heads.now rank result }
{
    let parent = lowest_head(firsts, heads, rank);
    if parent == NONE {
        return 0;
    }
    let distance = parent - rank as u32;
    if distance > u32::from(u16::MAX) {
        return 0;
    }
    distance as u16
}

/// The distances to the parents of all ranks.
fn distances_of(alloc: Global, firsts: &[u32], heads: &[u32]) -> Result<Vec<u16>, AllocError>
    requires upward { AreUpward firsts.now heads.now }
    requires few { length firsts.now < 2 ^ 32 }
    ensures { IfOk result (λ parents. AreParents firsts.now heads.now parents.items) }
{
    let ranks = firsts.len() - 1;
    let mut parents = Vec::with_capacity(alloc, ranks)?;
    for rank in 0..ranks {
        parents.push(distance_of(firsts, heads, rank))?;
    }
    Ok(parents)
}

/// Makes the upward arcs of a rank; false if there are too many of them.
fn make_arcs(
    network: &Network,
    ranks: &Ranks,
    arcs: &Waiting,
    rank: u32,
    most: u32,
    growing: &mut Growing,
    found: &mut Vec<u32>,
) -> Result<bool, AllocError>
    requires ranks { AreRanks network.now.nodes ranks.now }
    requires arcs { AreArcsWaiting network.now ranks.now arcs.now.newest.items arcs.now.earlier.items }
    requires rank { rank < network.now.nodes }
    requires growing { IsGrowing network.now.nodes rank growing.old }
    requires made { AreMade rank (lower_ends ranks.now network.now.arcs)
        (higher_ends ranks.now network.now.arcs)
        growing.old.upward.firsts.items growing.old.upward.heads.items }
    ensures growing { IfOk result (λ more. more ≡ true
        → IsGrowing network.now.nodes (rank + 1) growing.new) }
    ensures made { IfOk result (λ more. more ≡ true
        → AreMade (rank + 1) (lower_ends ranks.now network.now.arcs)
        (higher_ends ranks.now network.now.arcs)
        growing.new.upward.firsts.items growing.new.upward.heads.items) }
{
    network.keeps_limits();
    find_heads(network, ranks, arcs, rank, growing, found)?;
    append_once(found, rank, &mut growing.upward.heads)?;
    if growing.upward.heads.len() > most as usize {
        return Ok(false);
    }
    growing
        .upward
        .firsts
        .push(growing.upward.heads.len() as u32)?;
    let parent = lowest_head(&growing.upward.firsts, &growing.upward.heads, rank as usize);
    growing.upward.parents.push(parent)?;
    growing.children.add(parent)?;
    Ok(true)
}

/// The upward arcs of a network over the ranks of its nodes; none if there are too many of them or of triangles.
pub(crate) fn upward_of(
    alloc: Global,
    network: &Network,
    ranks: &Ranks,
    limits: Limits,
) -> Result<Option<Upward>, AllocError>
    requires { AreRanks network.now.nodes ranks.now }
    ensures upward { IfOk result (λ made. IfSome made (λ upward.
        AreUpward upward.firsts.items upward.heads.items)) }
    ensures nodes { IfOk result (λ made. IfSome made (λ upward.
        length upward.firsts.items ≡ network.now.nodes + 1)) }
    ensures joined { IfOk result (λ made. IfSome made (λ upward.
        AreJoined network.now ranks.now upward.firsts.items upward.heads.items)) }
    ensures parents { IfOk result (λ made. IfSome made (λ upward.
        AreParents upward.firsts.items upward.heads.items upward.parents.items)) }
{
    let nodes = network.nodes();
    let arcs = arcs_waiting(alloc, network, ranks)?;
    let mut growing = Growing::none(alloc, nodes as usize)?;
    let mut found = Vec::new(alloc);
    let mut triangles = 0u64;
    for rank in 0..nodes {
        let before = growing.upward.heads.len();
        if !make_arcs(
            network,
            ranks,
            &arcs,
            rank,
            limits.arcs,
            &mut growing,
            &mut found,
        )? {
            return Ok(None);
        }
        let heads = growing.upward.heads.len().saturating_sub(before) as u64;
        triangles = triangles.saturating_add(heads.saturating_mul(heads) / 2);
        if triangles > limits.triangles {
            return Ok(None);
        }
    }
    let Growing { upward, children } = growing;
    drop((arcs, children, found));
    let FirstArcs {
        firsts,
        heads,
        parents,
    } = upward;
    drop(parents);
    let parents = distances_of(alloc, &firsts, &heads)?;
    Ok(Some(Upward {
        firsts,
        heads,
        parents,
    }))
}

/// The most ranks that are looked at on a way up.
const MOST_HIGH: u32 = 1_048_576;

/// The number of ranks whose ways up are looked at.
const SAMPLES: usize = 64;

/// How many upward arcs there are on the way up from a rank.
fn arcs_above(upward: &Upward, from: usize) -> u64 {
    let mut rank = from;
    let mut arcs = 0u64;
    for _ in 0..MOST_HIGH {
        let Some(first) = upward.firsts.get(rank) else {
            return arcs;
        };
        let Some(end) = upward.firsts.get(rank.saturating_add(1)) else {
            return arcs;
        };
        if end <= first {
            return arcs;
        }
        arcs = arcs.saturating_add(u64::from(end.saturating_sub(*first)));
        let Some(head) = upward.heads.get(*first as usize) else {
            return arcs;
        };
        rank = *head as usize;
    }
    arcs
}

/// The mean number of upward arcs on a way up, of some ranks.
pub(crate) fn mean_arcs_above(upward: &Upward) -> u64 {
    let ranks = upward.firsts.len();
    let mut arcs = 0u64;
    for sample in 0..SAMPLES {
        let rank = (ranks / SAMPLES).saturating_mul(sample);
        arcs = arcs.saturating_add(arcs_above(upward, rank));
    }
    arcs / SAMPLES as u64
}
