//! The fault of a report of one problem whose form is right.
ghost use Rattle.std.specs.Prelude.{◌≡◌, ◌+◌, ◌≤◌, ◌<◌, ℕ, MatchOption, OnOk, false, length, replicate};
ghost use Rattle.std.specs.List.{IsAmong};
ghost use Rattle.ea_base.specs.declared.limits.TheConstants.{HORIZON};
ghost use Rattle.ea_road.specs.declared.arc.Arc.{Arc};
ghost use Rattle.ea_road.specs.Roads.{IsArc, IsNode};
ghost use Rattle.ea_check.specs.Nodes.{IsFirstOther, IsOtherAt};
ghost use Rattle.ea_check.specs.Supported.{AreSupported, FindsLower, MayMark};
ghost use Rattle.ea_check.specs.Judges.{JudgesBy};
ghost use Rattle.ea_check.specs.Lazy.{IsIndexed, roads_in};
ghost use Rattle.ea_check.specs.Parts.{AreFewParts, AreJudged, IsJudged, IsPart, IsRange, PassedIn};
ghost use Rattle.ea_check.specs.Passing.{ComparesFrom, MayCompare};
ghost use Rattle.ea_check.specs.Verdicts.{AreUnimproved, IsFirst, IsNotLeast, IsVerdict, MayJudge, reported_time};

use crate::fault::CheckFault;
use crate::form::reported::Reported;
use crate::judge::canonical_walk::{Compared, Path};
use crate::judge::part::{ArcRange, Part, gather_marks, lowest_of};
use crate::judge::support::{are_all_marked, mark, unmarked};
use crate::judge::walk_sources::{attains, ordered_sources};
use crate::lazy_network::LazyNetwork;
use ea_base::HORIZON;
use ea_fork_join::for_each_mut;
use ea_paths::find_links;
use ea_road::{NONE, Network, NumberedArcs, Query, Source};
use ea_search::{Link, NO_LEVEL, Open};
use ea_travel_times::TravelTimes;
use std::alloc::Global;
use std::mem;
use std::thread::Threads;

/// The number of a node's `w` line that is not the canonical walk, if the node's lines are attained.
/// Otherwise the first that is not attained.
fn other_at<T: TravelTimes>(
    network: &Network,
    times: &T,
    query: &Query,
    ordered: &[Source],
    reported: &Reported,
    links: &[Link],
    node: u32,
    walks: &mut Compared<'_>,
) -> Result<Option<u64>, CheckFault>
    requires problem { MayCompare network.now (T.answers times.now) (T.classes times.now)
        query.now.sources ordered.now reported.now links.now }
    requires node { IsNode network.now.nodes node }
    requires compares { ComparesFrom links.now reported.now node walks.old }
    ensures other { IsOtherAt network.now
        (T.answers times.now) query.now.sources reported.now node result }
    ensures compares { OnOk result (ComparesFrom links.now reported.now (node + 1) walks.new) }
{
    let walk = walks.reader.read_next()?;
    walks.path.keep(walks.reader.shared);
    let time = reported.time(node);
    if time == NONE {
        return Ok(None);
    }
    if links[node as usize - 1].level == NO_LEVEL {
        return Err(CheckFault::NotAttained(reported.line(node)));
    }
    let Some(line) = walk else {
        return Ok(None);
    };
    if walks.path.leads_to(links, node, &walks.reader.arcs)? {
        return Ok(None);
    }
    if attains(
        network,
        times,
        query,
        ordered,
        node,
        time,
        &walks.reader.arcs,
    ) {
        Ok(Some(line))
    } else {
        Err(CheckFault::NotAttained(line))
    }
}

/// The first `w` line that is not the canonical walk, if all lines are attained. Otherwise the first that is
/// not attained.
fn first_other<T: TravelTimes>(
    alloc: Global,
    network: &Network,
    times: &T,
    query: &Query,
    ordered: &[Source],
    reported: &Reported,
    links: &[Link],
) -> Result<Option<u64>, CheckFault>
    requires { MayCompare network.now (T.answers times.now) (T.classes times.now)
        query.now.sources ordered.now reported.now links.now }
    ensures { IsFirstOther network.now (T.answers times.now) query.now.sources reported.now result }
{
    let mut walks = Compared {
        reader: reported.reader(alloc),
        path: Path::new(alloc),
    };
    let mut first = None;
    for node in 1..network.nodes() + 1 {
        let other = other_at(
            network, times, query, ordered, reported, links, node, &mut walks,
        )?;
        first = first.or(other);
    }
    Ok(first)
}

/// The lower of a node and the head of an arc, if the arc improves the head's reported time. Marks the head if
/// the arc supports its time.
fn lower_by_arc<T: TravelTimes>(
    network: &NumberedArcs,
    times: &T,
    query: &Query,
    reported: &Reported,
    number: u32,
    lowest: u32,
    marks: &mut [bool],
) -> u32
    requires problem { MayMark network.now (T.answers times.now) (T.classes times.now)
        query.now.sources reported.now marks.old }
    requires arc { (0 < number) × (number ≤ length network.now.arcs) }
    ensures finds { FindsLower network.now (T.answers times.now) query.now.sources
        reported.now lowest result marks.new }
    ensures passed { (arc : Arc) (arrival : ℕ) → IsArc network.now number arc
        → reported_time reported.now arc.tail ≤ HORIZON
        → T.answers times.now arc.class arc.weight (reported_time reported.now arc.tail) arrival
        → arrival ≤ HORIZON → arrival < reported_time reported.now arc.head → result ≤ arc.head }
{
    let arc = network.arc(number);
    let departure = reported.time(arc.tail);
    if departure == NONE {
        return lowest;
    }
    let arrival = times.arrive(arc.class, u64::from(arc.weight), departure);
    let time = reported.time(arc.head);
    if arrival > HORIZON || arrival > time {
        return lowest;
    }
    if arrival < time {
        return lowest.min(arc.head);
    }
    if departure < time {
        mark(marks, arc.head);
    }
    lowest
}

/// The lowest node whose reported time an arc of a range improves, or `above` if no lower one is. Marks the nodes
/// whose times such an arc supports.
fn lowest_in_range<T: TravelTimes>(
    network: &NumberedArcs,
    times: &T,
    query: &Query,
    reported: &Reported,
    arcs: ArcRange,
    above: u32,
    marks: &mut [bool],
) -> u32
    requires problem { MayMark network.now (T.answers times.now) (T.classes times.now)
        query.now.sources reported.now marks.old }
    requires range { IsRange network.now arcs }
    ensures finds { FindsLower network.now (T.answers times.now) query.now.sources
        reported.now above result marks.new }
    ensures passed { PassedIn network.now (T.answers times.now) reported.now arcs result }
{
    let mut lowest = above;
    for number in arcs.from..arcs.to {
        lowest = lower_by_arc(network, times, query, reported, number, lowest, marks);
    }
    lowest
}

/// Takes marks away.
fn unmark(marks: &mut [bool])
    ensures { marks.new ≡ replicate (length marks.old) false }
{
    marks.fill(false);
}

/// Judges a part of the arcs, given a node above all that are looked for.
pub(crate) fn judge_part<T: TravelTimes>(
    network: &NumberedArcs,
    times: &T,
    query: &Query,
    reported: &Reported,
    above: u32,
    part: &mut Part,
)
    requires problem { MayJudge network.now (T.classes times.now) query.now.sources reported.now }
    requires part { IsPart network.now part.old }
    ensures { IsJudged network.now (T.answers times.now) query.now.sources reported.now above
        part.old part.new }
{
    unmark(&mut part.marks);
    let marks = part.marks.as_mut_slice();
    part.lowest = lowest_in_range(network, times, query, reported, part.arcs, above, marks);
}

/// Judges each part of the arcs.
pub(crate) fn judge_parts<T: TravelTimes>(
    network: &NumberedArcs,
    times: &T,
    query: &Query,
    reported: &Reported,
    above: u32,
    parts: &mut [Part],
)
    requires problem { MayJudge network.now (T.classes times.now) query.now.sources reported.now }
    requires parts { AreFewParts network.now parts.old }
    ensures { AreJudged network.now (T.answers times.now) query.now.sources reported.now above
        parts.old parts.new }
{
    for part in parts.iter_mut() {
        judge_part(network, times, query, reported, above, part);
    }
}

/// Judges each part of the arcs in a separate thread if one can be started.
pub(crate) fn judge_parts_by<H: Threads + Sync, T: TravelTimes + Sync>(
    rt: &H,
    network: &NumberedArcs,
    times: &T,
    query: &Query,
    reported: &Reported,
    above: u32,
    parts: &mut [Part],
)
    requires problem { MayJudge network.now (T.classes times.now) query.now.sources reported.now }
    requires parts { AreFewParts network.now parts.old }
    ensures { AreJudged network.now (T.answers times.now) query.now.sources reported.now above
        parts.old parts.new }
{
    let judging = |_place: usize, part: &mut Part|
        requires { MayJudge network.now (T.classes times.now) query.now.sources reported.now
            × IsPart network.now part.now }
        ensures { IsJudged network.entry.now (T.answers times.entry.now) query.entry.now.sources
            reported.entry.now above part.entry.now part.exit.now }
    { judge_part(network, times, query, reported, above, part) };
    for_each_mut(rt, parts, &judging);
}

/// The lowest node whose reported time an arc improves, or `above` if no lower one is. Marks the nodes whose
/// times an arc supports.
fn lowest_by_arcs<J: Fn(&NumberedArcs, &Query, &Reported, u32, &mut [Part]), T: TravelTimes>(
    judging: &J,
    network: &NumberedArcs,
    times: &T,
    query: &Query,
    reported: &Reported,
    above: u32,
    marks: &mut [bool],
    parts: &mut [Part],
) -> u32
    requires judging { JudgesBy J.Fn judging.now (T.answers times.now) (T.classes times.now) }
    requires problem { MayMark network.now (T.answers times.now) (T.classes times.now)
        query.now.sources reported.now marks.old }
    requires parts { AreFewParts network.now parts.old }
    ensures finds { FindsLower network.now (T.answers times.now) query.now.sources
        reported.now above result marks.new }
    ensures passed { (number : ℕ) (arc : Arc) (arrival : ℕ) → IsArc network.now number arc
        → reported_time reported.now arc.tail ≤ HORIZON
        → T.answers times.now arc.class arc.weight (reported_time reported.now arc.tail) arrival
        → arrival ≤ HORIZON → arrival < reported_time reported.now arc.head → result ≤ arc.head }
    ensures parts { AreFewParts network.now parts.new }
{
    judging(network, query, reported, above, parts);
    gather_marks(parts, marks);
    lowest_of(parts, above)
}

/// The lower of a node and a source's node, if the source improves the node's reported time. Marks the node if
/// the source departs at its time.
fn lower_by_source<T: TravelTimes>(
    network: &NumberedArcs,
    times: &T,
    query: &Query,
    reported: &Reported,
    source: Source,
    lowest: u32,
    marks: &mut [bool],
) -> u32
    requires problem { MayMark network.now (T.answers times.now) (T.classes times.now)
        query.now.sources reported.now marks.old }
    requires source { IsAmong query.now.sources source }
    ensures finds { FindsLower network.now (T.answers times.now) query.now.sources
        reported.now lowest result marks.new }
    ensures passed { source.departure < reported_time reported.now source.node
        → result ≤ source.node }
{
    let time = reported.time(source.node);
    if source.departure < time {
        return lowest.min(source.node);
    }
    if source.departure == time {
        mark(marks, source.node);
    }
    lowest
}

/// The lowest node whose reported time a source improves, or `above` if no lower one is. Marks the nodes at
/// whose times a source departs.
fn lowest_by_sources<T: TravelTimes>(
    network: &NumberedArcs,
    times: &T,
    query: &Query,
    reported: &Reported,
    above: u32,
    marks: &mut [bool],
) -> u32
    requires { MayMark network.now (T.answers times.now) (T.classes times.now)
        query.now.sources reported.now marks.old }
    ensures finds { FindsLower network.now (T.answers times.now) query.now.sources
        reported.now above result marks.new }
    ensures passed { (source : Source) → IsAmong query.now.sources source
        → source.departure < reported_time reported.now source.node → result ≤ source.node }
{
    let mut lowest = above;
    for source in query.sources() {
        lowest = lower_by_source(network, times, query, reported, *source, lowest, marks);
    }
    lowest
}

/// The first `d` line that a source or an arc improves. Marks nodes whose times are supported.
fn first_not_least<J: Fn(&NumberedArcs, &Query, &Reported, u32, &mut [Part]), T: TravelTimes>(
    judging: &J,
    network: &NumberedArcs,
    times: &T,
    query: &Query,
    reported: &Reported,
    marks: &mut [bool],
    parts: &mut [Part],
) -> Option<u64>
    requires judging { JudgesBy J.Fn judging.now (T.answers times.now) (T.classes times.now) }
    requires problem { MayMark network.now (T.answers times.now) (T.classes times.now)
        query.now.sources reported.now marks.old }
    requires parts { AreFewParts network.now parts.old }
    ensures least { MatchOption result
        (AreUnimproved network.now (T.answers times.now) query.now.sources reported.now)
        (λ line. IsFirst (IsNotLeast network.now
        (T.answers times.now) query.now.sources reported.now) line) }
    ensures marks { AreSupported network.now
        (T.answers times.now) query.now.sources reported.now marks.new }
    ensures parts { AreFewParts network.now parts.new }
{
    let above = network.nodes() + 1;
    let by_sources = lowest_by_sources(network, times, query, reported, above, marks);
    let lowest = lowest_by_arcs(
        judging, network, times, query, reported, by_sources, marks, parts,
    );
    if lowest == above {
        None
    } else {
        Some(reported.line(lowest))
    }
}

/// The first `w` line that is not the canonical walk, if all lines are attained. Otherwise the first that is
/// not attained.
fn first_by_links<T: TravelTimes>(
    alloc: Global,
    network: &Network,
    times: &T,
    query: &Query,
    reported: &Reported,
) -> Result<Option<u64>, CheckFault>
    requires { MayJudge network.now (T.classes times.now) query.now.sources reported.now }
    ensures { IsFirstOther network.now (T.answers times.now) query.now.sources reported.now result }
{
    let todo = Open::reserve(alloc, network.nodes())?;
    let links = find_links(network, times, query.sources(), reported.table(), todo);
    let ordered = ordered_sources(alloc, query.sources())?;
    first_other(alloc, network, times, query, &ordered, reported, &links)
}

/// Like `first_by_links`. Makes the network's index if there is none yet, and keeps it.
fn first_by_index<T: TravelTimes>(
    alloc: Global,
    network: &mut LazyNetwork<'_>,
    times: &T,
    query: &Query,
    reported: &Reported,
) -> Result<Option<u64>, CheckFault>
    requires { MayJudge (roads_in network.old) (T.classes times.now)
        query.now.sources reported.now }
    ensures other { IsFirstOther (roads_in network.old) (T.answers times.now)
        query.now.sources reported.now result }
    ensures network { roads_in network.new ≡ roads_in network.old }
    ensures indexed { OnOk result (IsIndexed network.new) }
{
    match network {
        LazyNetwork::Given(network) => first_by_links(alloc, network, times, query, reported),
        LazyNetwork::Indexed(network) => first_by_links(alloc, network, times, query, reported),
        LazyNetwork::Unindexed(arcs) => {
            match Network::or_arcs(alloc, mem::replace(arcs, NumberedArcs::least(alloc))) {
                Ok(indexed) => {
                    let other = first_by_links(alloc, &indexed, times, query, reported);
                    *network = LazyNetwork::Indexed(indexed);
                    other
                }
                Err(back) => {
                    *network = LazyNetwork::Unindexed(back);
                    Err(CheckFault::OutOfMemory)
                }
            }
        }
    }
}

/// Like `first_by_index`. Without walks, and with all nodes marked, no line has to be looked at.
fn first_by_marks<T: TravelTimes>(
    alloc: Global,
    network: &mut LazyNetwork<'_>,
    times: &T,
    query: &Query,
    reported: &Reported,
    marks: &[bool],
) -> Result<Option<u64>, CheckFault>
    requires { MayMark (roads_in network.old) (T.answers times.now) (T.classes times.now)
        query.now.sources reported.now marks.now }
    ensures other { IsFirstOther (roads_in network.old) (T.answers times.now)
        query.now.sources reported.now result }
    ensures network { roads_in network.new ≡ roads_in network.old }
{
    if reported.has_no_walks() && are_all_marked(reported, marks) {
        return Ok(None);
    }
    first_by_index(alloc, network, times, query, reported)
}

/// The fault of a report's lines on one problem.
pub(crate) fn judge<J: Fn(&NumberedArcs, &Query, &Reported, u32, &mut [Part]), T: TravelTimes>(
    alloc: Global,
    judging: &J,
    network: &mut LazyNetwork<'_>,
    times: &T,
    query: &Query,
    reported: &Reported,
    parts: &mut [Part],
) -> Result<(), CheckFault>
    requires judging { JudgesBy J.Fn judging.now (T.answers times.now) (T.classes times.now) }
    requires problem { MayJudge (roads_in network.old) (T.classes times.now)
        query.now.sources reported.now }
    requires parts { AreFewParts (roads_in network.old) parts.old }
    ensures verdict { IsVerdict (roads_in network.old)
        (T.answers times.now) query.now.sources reported.now result }
    ensures network { roads_in network.new ≡ roads_in network.old }
    ensures parts { AreFewParts (roads_in network.old) parts.new }
{
    let arcs = network.arcs();
    let mut marks = unmarked(alloc, arcs.nodes() as usize)?;
    let not_least = first_not_least(judging, arcs, times, query, reported, &mut marks, parts);
    if let Some(line) = first_by_marks(alloc, network, times, query, reported, &marks)? {
        return Err(CheckFault::NotCanonical(line));
    }
    match not_least {
        Some(line) => Err(CheckFault::NotLeast(line)),
        None => Ok(()),
    }
}
