//! Parts of a network's arcs, judged one beside another.
ghost use Rattle.std.specs.Prelude.{◌≡◌, ◌⊎◌, ◌≤◌, ◌<◌, ◌++◌, ◌∷◌, [], ℕ, MatchResult, length, slice_index_or};
ghost use Rattle.ea_fork_join.specs.declared.TheConstants.{MOST_THREADS};
ghost use Rattle.ea_check.specs.Parts.{AreGathered, AreParts, IsLowest};
ghost use Rattle.ea_check.specs.Supported.{IsMarked};
ghost use Rattle.ea_check.specs.declared.fault.CheckFault.TheVariants.{OutOfMemory};
ghost use Rattle.ea_check.specs.declared.judge.part.Part.{Part as PartType};

use crate::fault::CheckFault;
use crate::judge::support::unmarked;
use ea_road::NumberedArcs;
use std::alloc::Global;

/// Arcs, from one number up to another, which is not among them.
#[derive(Clone, Copy)]
pub(crate) struct ArcRange {
    pub from: u32,
    pub to: u32,
}

/// A part of the arcs, and what they say of a problem's reported times.
#[derive(Drop)]
pub(crate) struct Part {
    pub arcs: ArcRange,
    /// The lowest node whose reported time one of them improves, or a node that is not lower.
    pub lowest: u32,
    /// A mark for each node; those are marked whose times one of them supports.
    pub marks: Vec<bool>,
}

/// Appends a part with these arcs.
fn push_part(
    alloc: Global,
    network: &NumberedArcs,
    arcs: ArcRange,
    parts: &mut Vec<Part>,
) -> Result<(), CheckFault>
    ensures { MatchResult result
        (λ _. (part : PartType) × (parts.new.items ≡ parts.old.items ++ part ∷ [])
        × (part.arcs ≡ arcs) × (length part.marks.items ≡ network.now.nodes))
        (λ fault. fault ≡ OutOfMemory) }
{
    let marks = unmarked(alloc, network.nodes() as usize)?;
    parts.push(Part {
        arcs,
        lowest: 0,
        marks,
    })?;
    Ok(())
}

/// Fewer arcs are one part.
const MANY_ARCS: usize = 65_536;

/// The number of parts of this many arcs.
fn parts_of(arcs: usize, most: usize) -> usize
    requires { 1 ≤ most }
    ensures { (1 ≤ result) × (result ≤ most) }
{
    if arcs < MANY_ARCS { 1 } else { most }
}

/// Cuts a network's arcs into at most this number of parts of about the same size.
pub(crate) fn cut_arcs(
    alloc: Global,
    network: &NumberedArcs,
    most: usize,
) -> Result<Vec<Part>, CheckFault>
    requires { (1 ≤ most) × (most ≤ MOST_THREADS) }
    ensures { MatchResult result
        (λ parts. AreParts network.now parts.items × (length parts.items ≤ most))
        (λ fault. fault ≡ OutOfMemory) }
{
    let mut parts = Vec::new(alloc);
    let arcs = network.arcs().len();
    let count = parts_of(arcs, most);
    let end = arcs as u32 + 1;
    let size = end / (count as u32) + 1;
    let mut from: u32 = 1;
    for _ in 1..count {
        let to = from.saturating_add(size).min(end);
        push_part(alloc, network, ArcRange { from, to }, &mut parts)?;
        from = to;
    }
    push_part(alloc, network, ArcRange { from, to: end }, &mut parts)?;
    Ok(parts)
}

/// The lowest node of parts, or `above` if no lower one is.
pub(crate) fn lowest_of(parts: &[Part], above: u32) -> u32
    ensures { IsLowest parts.now above result }
{
    let mut lowest = above;
    for part in parts {
        lowest = lowest.min(part.lowest);
    }
    lowest
}

/// Adds marks.
fn add_marks(marks: &mut [bool], more: &[bool])
    requires { length more.now ≡ length marks.old }
    ensures places { length marks.new ≡ length marks.old }
    ensures only { (node : ℕ) → IsMarked marks.new node
        → IsMarked marks.old node ⊎ IsMarked more.now node }
{
    for place in 0..more.len() {
        marks[place] = marks[place] | more[place];
    }
}

/// Adds the marks of parts.
pub(crate) fn gather_marks(parts: &[Part], marks: &mut [bool])
    requires { (place : ℕ) (part : PartType) → place < length parts.now
        → length (slice_index_or parts.now place part).marks.items ≡ length marks.old }
    ensures { AreGathered parts.now marks.old marks.new }
{
    for part in parts {
        add_marks(marks, &part.marks);
    }
}
