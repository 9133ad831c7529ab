ghost use Rattle.std.specs.Prelude.{◌≡◌, ℕ, ◌+◌, ◌<◌, ◌≤◌, [], true, false, length};
ghost use Rattle.ea_road.specs.Labels.{IsLabel, label_of};
ghost use Rattle.ea_road.specs.Queries.{IsProblem};
ghost use Rattle.ea_road.specs.Roads.{top_class};
ghost use Rattle.ea_search.specs.Answers.{HasArrivals, IsAnswer};
ghost use Rattle.ea_search.specs.Links.{AreLinks, AreStarts, link, no_link};
ghost use Rattle.ea_road.specs.declared.TheConstants.{NONE};
ghost use Rattle.ea_paths.specs.Linkable.{CanLink, CanOffer, CanSpread, HaveLinks, IsLinkBy};
ghost use Rattle.ea_paths.specs.Offers.{IsAlong, IsOne, IsSpread, LinksSource, OffersEach};
ghost use Rattle.ea_paths.specs.Places.{HasPlace};
ghost use Rattle.ea_search.specs.Underway.{IsFinished, bound_of};

use crate::answer::Answer;
use ea_base::HORIZON;
use ea_road::{Arc, Network, Query, Source};
use ea_search::{AHEAD, Finished, Link, NO_LEVEL, Open, Waiting, touch_heads, touch_nodes};
use ea_travel_times::TravelTimes;

/// Offers a link to a node, which keeps the link of fewer arcs or, at a tie, of the lower arc number.
fn relink(links: &mut [Link], waiting: &mut Waiting, node: u32, new: Link)
    requires place { HasPlace node links.old waiting.old }
    requires level { new.level < NO_LEVEL }
    ensures { OffersEach waiting.old.nodes (IsOne node new)
        links.old waiting.old links.new waiting.new }
{
    let place = node as usize - 1;
    let old = links[place];
    if new.level < old.level {
        links[place] = new;
        waiting.add(node);
    } else if new.level == old.level && new.arc < old.arc {
        links[place] = new;
    }
}

/// Offers the head of an arc a link by it, if the arc is tight.
pub(crate) fn pass<T: TravelTimes>(
    network: &Network,
    times: &T,
    table: &[u64],
    arc: Arc,
    departure: u64,
    new: Link,
    links: &mut [Link],
    waiting: &mut Waiting,
)
    requires can { CanOffer network.now (T.classes times.now) table.now links.old waiting.old }
    requires link { IsLinkBy network.now table.now arc departure new }
    ensures { OffersEach network.now.nodes
        (IsAlong network.now (T.answers times.now) table.now new)
        links.old waiting.old links.new waiting.new }
{
    network.keeps_limits();
    let least = table[arc.head as usize - 1];
    // An arc arrives no earlier than it is left.
    if least < departure {
        return;
    }
    let arrival = times.arrive(arc.class, u64::from(arc.weight), departure);
    if arrival <= HORIZON && arrival == least {
        relink(links, waiting, arc.head, new);
    }
}

/// Offers each head a link by the tight arcs from a node. The arcs are contiguous in memory.
pub(crate) fn spread<T: TravelTimes>(
    network: &Network,
    times: &T,
    table: &[u64],
    node: u32,
    links: &mut [Link],
    waiting: &mut Waiting,
)
    requires can { CanOffer network.now (T.classes times.now) table.now links.old waiting.old }
    requires node { CanSpread network.now.nodes table.now links.old node }
    ensures { OffersEach network.now.nodes
        (IsSpread network.now (T.answers times.now) table.now node
        ((link links.old node).level + 1))
        links.old waiting.old links.new waiting.new }
{
    let departure = table[node as usize - 1];
    let level = links[node as usize - 1].level + 1;
    let leaving = network.leaving(node);
    let numbers = leaving.numbers;
    let arcs = leaving.arcs;
    for place in 0..arcs.len() {
        let new = Link {
            level,
            arc: numbers[place],
            from: node,
        };
        pass(
            network,
            times,
            table,
            arcs[place].with_tail(node),
            departure,
            new,
            links,
            waiting,
        );
    }
}

/// Links a source that departs at its node's label.
pub(crate) fn sow(table: &[u64], source: Source, links: &mut [Link], waiting: &mut Waiting)
    requires place { HasPlace source.node links.old waiting.old }
    requires labels { length table.now ≡ waiting.old.nodes }
    ensures { LinksSource table.now source links.old waiting.old links.new waiting.new }
{
    if table[source.node as usize - 1] == source.departure {
        let seed = Link {
            level: 0,
            arc: 0,
            from: 0,
        };
        relink(links, waiting, source.node, seed);
    }
}

/// How far the prefetch of waiting nodes has come.
#[derive(Drop)]
struct Ahead {
    /// How many nodes are taken before the next prefetch.
    left: usize,
    /// Consumed so that the compiler keeps the prefetch loads.
    seen: u64,
}

impl Ahead {
    /// Prefetches what the waiting nodes will need, if it is time.
    fn look(&mut self, network: &Network, table: &[u64], links: &[Link], waiting: &Waiting) {
        if self.left > 0 && self.seen != u64::MAX {
            self.left -= 1;
            return;
        }
        self.left = AHEAD;
        let nodes = waiting.next();
        let near = touch_nodes(network, table, &nodes);
        let heads = touch_heads(network, table, links, &nodes);
        self.seen ^= near ^ heads;
    }
}

/// Finds the links of nodes, which must be reset. Then no node waits, and no node without a label has a link.
pub fn link_all<T: TravelTimes>(
    network: &Network,
    times: &T,
    sources: &[Source],
    table: &[u64],
    links: &mut [Link],
    waiting: &mut Waiting,
)
    requires { CanLink network.now (T.classes times.now) sources.now table.now
        links.old waiting.old }
    ensures linked { HaveLinks network.now (T.answers times.now) sources.now table.now
        links.new waiting.new }
    ensures labelled { (node : ℕ) → bound_of table.now node ≡ NONE
        → link links.new node ≡ no_link }
{
    network.keeps_limits();
    for source in sources {
        sow(table, *source, links, waiting);
    }
    let mut ahead = Ahead { left: 0, seen: 0 };
    while let Some(node) = waiting.take() {
        spread(network, times, table, node, links, waiting);
        ahead.look(network, table, links, waiting);
    }
}

/// Finds the levels of nodes and the ends of their canonical walks, over the times of any table, even if they
/// are not least. Takes no memory.
pub fn find_links<T: TravelTimes>(
    network: &Network,
    times: &T,
    sources: &[Source],
    table: &[u64],
    todo: Open,
) -> Vec<Link>
    requires classes { top_class network.now.arcs ≤ T.classes times.now }
    requires sources { AreStarts network.now.nodes sources.now }
    requires places { length table.now ≡ network.now.nodes }
    requires nobody { todo.waiting ≡ [] }
    requires room { (todo.nodes ≡ network.now.nodes) × (todo.walks ≡ true) }
    ensures { AreLinks network.now (T.answers times.now) sources.now
        (IsLabel (label_of table.now)) result.items }
{
    let (mut waiting, mut links) = todo.into_parts();
    link_all(network, times, sources, table, &mut links, &mut waiting);
    links
}

/// The answer with its canonical walks. Takes no memory.
pub fn unwind<T: TravelTimes>(
    network: &Network,
    times: &T,
    query: &Query,
    finished: Finished,
) -> Answer
    requires problem { IsProblem network.now (T.classes times.now) query.now }
    requires finished { IsFinished network.now (T.answers times.now) query.now
        finished.table.items finished.todo }
    requires walks { finished.todo.walks ≡ true }
    ensures { IsAnswer network.now (T.answers times.now) query.now result }
{
    let nodes = network.nodes();
    let Finished { table, todo } = finished;
    let links = find_links(network, times, query.sources(), &table, todo);
    Answer::new(nodes, query.target(), table, links, true)
}

/// The answer without walks.
pub fn without_walks<T: TravelTimes>(
    network: &Network,
    times: &T,
    query: &Query,
    finished: Finished,
) -> Answer
    requires problem { IsProblem network.now (T.classes times.now) query.now }
    requires finished { IsFinished network.now (T.answers times.now) query.now
        finished.table.items finished.todo }
    ensures arrivals { HasArrivals network.now (T.answers times.now) query.now result }
    ensures none { result.walks ≡ false }
{
    let nodes = network.nodes();
    let Finished { table, todo } = finished;
    let (_, links) = todo.into_parts();
    Answer::new(nodes, query.target(), table, links, false)
}
