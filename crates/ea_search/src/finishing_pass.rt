ghost use Rattle.std.specs.Prelude.{◌≡◌, ℕ, ◌<◌, ◌≤◌, [], ◌∷◌, List, length, Contains, IfSome};
ghost use Rattle.ea_road.specs.declared.TheConstants.{NONE};
ghost use Rattle.ea_road.specs.Arrivals.{IsLeast, IsLeastAt};
ghost use Rattle.ea_road.specs.Labels.{label_of, limit, time_of};
ghost use Rattle.ea_road.specs.Queries.{IsAsked};
ghost use Rattle.ea_road.specs.Roads.{IsNode, leaving};
ghost use Rattle.ea_search.specs.Notes.{AreHad};
ghost use Rattle.ea_search.specs.Scans.{AwaitsScans, KeepsLess, KeepsMet, Scanned, number_at};
ghost use Rattle.ea_search.specs.Searching.{CanBeOffered, CanFinish, CanRelax, CanRelaxFrom, CanSearchOn};
ghost use Rattle.ea_search.specs.Searching.{FinishesFrom, KeepsSearch, OfferedBy, SearchesOn};
ghost use Rattle.ea_search.specs.Underway.{IsFinished, bound_of};

use crate::labels::table::{Bare, Table};
use crate::queue::open::Open;
use crate::queue::open_list::Opens;
use ea_base::HORIZON;
use ea_road::{Arc, NONE, Network, Query};
use ea_travel_times::TravelTimes;

/// A table of labels, the first that of node 1, and an empty list of waiting nodes.
#[derive(Drop)]
pub struct Finished {
    /// The label of each node, the first that of node 1; NONE if it has none.
    pub table: Vec<u64>,
    /// The waiting nodes, with the storage for walks if walks are asked for.
    pub todo: Open,
}

/// Offers a source's node its departure: if its label is above it, the label falls and the node is opened.
pub fn start<L: Table, W: Opens>(table: &mut L, todo: &mut W, node: u32, departure: u64)
    requires { CanBeOffered (W.room todo.old).nodes (L.labels table.old) node departure }
    ensures lowers { KeepsLess node departure
        (L.labels table.old) (W.waits todo.old (bound_of (L.labels table.old)))
        (L.labels table.new) (W.waits todo.new (bound_of (L.labels table.new))) }
    ensures still { KeepsMet (L.labels table.old) (L.met table.old)
        (L.labels table.new) (L.met table.new) }
    ensures adds { (v u k : ℕ) → L.had table.new v u k → L.had table.old v u k }
    ensures keeps { KeepsSearch
        (L.labels table.old) (L.lists table.old) (W.room todo.old) (W.size todo.old)
        (L.labels table.new) (L.lists table.new) (W.room todo.new) (W.size todo.new) }
{
    if departure < table.label(node) {
        table.start(node, departure);
        todo.open(node, departure);
    }
}

/// Offers a node the arrival by an arc: if its label is above it, the label falls and the node is opened.
/// `place` is the arc's place among the arcs that leave its tail.
pub fn lower<L: Table, W: Opens>(
    table: &mut L,
    todo: &mut W,
    node: u32,
    time: u64,
    from: u32,
    place: usize,
)
    requires { CanBeOffered (W.room todo.old).nodes (L.labels table.old) node time }
    ensures offered { OfferedBy node time from place
        (L.labels table.old) (W.waits todo.old (bound_of (L.labels table.old)))
        (L.met table.old) (L.had table.old)
        (L.labels table.new) (W.waits todo.new (bound_of (L.labels table.new)))
        (L.met table.new) (L.had table.new) }
    ensures keeps { KeepsSearch
        (L.labels table.old) (L.lists table.old) (W.room todo.old) (W.size todo.old)
        (L.labels table.new) (L.lists table.new) (W.room todo.new) (W.size todo.new) }
{
    let before = table.label(node);
    if time < before {
        table.fall(node, time, from, place);
        todo.open(node, time);
    } else if time == before {
        table.meet(node, from, place);
    }
}

/// Relaxes one arc. `place` is its place among the arcs that leave its tail.
fn follow<T: TravelTimes, L: Table, W: Opens>(
    network: &Network,
    times: &T,
    place: usize,
    arc: Arc,
    departure: u64,
    table: &mut L,
    todo: &mut W,
)
    requires can { CanRelax network.now (T.classes times.now) (L.labels table.old) place arc departure }
    requires room { (W.room todo.old).nodes ≡ network.now.nodes }
    ensures scanned { Scanned network.now (T.answers times.now) arc.tail departure
        (number_at network.now arc.tail place ∷ [])
        (L.labels table.old) (W.waits todo.old (bound_of (L.labels table.old))) (L.met table.old)
        (L.labels table.new) (W.waits todo.new (bound_of (L.labels table.new))) (L.met table.new) }
    ensures had { bound_of (L.labels table.old) arc.tail ≤ departure
        → AreHad network.now (T.answers times.now) (L.labels table.old) (L.had table.old)
        → AreHad network.now (T.answers times.now) (L.labels table.new) (L.had table.new) }
    ensures keeps { KeepsSearch
        (L.labels table.old) (L.lists table.old) (W.room todo.old) (W.size todo.old)
        (L.labels table.new) (L.lists table.new) (W.room todo.new) (W.size todo.new) }
{
    network.keeps_limits();
    // An arc arrives no earlier than it is left. If all arcs are plain, computing the arrival costs less than
    // this test.
    if network.top_class() > 0 {
        if table.label(arc.head) < departure {
            return;
        }
    }
    let arrival = times.arrive(arc.class, u64::from(arc.weight), departure);
    if arrival <= HORIZON {
        lower(table, todo, arc.head, arrival, arc.tail, place);
    }
}

/// Relaxes the arcs that leave a node, left at its label. They are contiguous in memory.
pub fn scan<T: TravelTimes, L: Table, W: Opens>(
    network: &Network,
    times: &T,
    node: u32,
    departure: u64,
    table: &mut L,
    todo: &mut W,
)
    requires can { CanRelaxFrom network.now (T.classes times.now) (L.labels table.old) node departure }
    requires room { (W.room todo.old).nodes ≡ network.now.nodes }
    ensures scanned { Scanned network.now (T.answers times.now) node departure
        (leaving network.now node)
        (L.labels table.old) (W.waits todo.old (bound_of (L.labels table.old))) (L.met table.old)
        (L.labels table.new) (W.waits todo.new (bound_of (L.labels table.new))) (L.met table.new) }
    ensures had { bound_of (L.labels table.old) node ≤ departure
        → AreHad network.now (T.answers times.now) (L.labels table.old) (L.had table.old)
        → AreHad network.now (T.answers times.now) (L.labels table.new) (L.had table.new) }
    ensures keeps { KeepsSearch
        (L.labels table.old) (L.lists table.old) (W.room todo.old) (W.size todo.old)
        (L.labels table.new) (L.lists table.new) (W.room todo.new) (W.size todo.new) }
{
    let arcs = network.leaving(node).arcs;
    for place in 0..arcs.len() {
        follow(
            network,
            times,
            place,
            arcs[place].with_tail(node),
            departure,
            table,
            todo,
        );
    }
}

/// The bound above which labels need not be least: the target's label, or NONE if all nodes are asked.
pub fn latest<L: Table>(target: Option<u32>, table: &L) -> u64
    requires { IfSome target (λ node. (0 < node) × (node ≤ length (L.labels table.now))) }
    ensures { result ≡ limit target (label_of (L.labels table.now)) }
{
    match target {
        Some(node) => table.label(node),
        None => NONE,
    }
}

/// Scans waiting nodes in the order in which they were opened, until no node waits.
pub fn finish_noted<T: TravelTimes, L: Table>(
    network: &Network,
    times: &T,
    query: &Query,
    table: &mut L,
    mut todo: Open,
) -> Open
    requires { CanSearchOn network.now (T.answers times.now) (T.classes times.now) query.now
        (L.labels table.old) (L.met table.old) (Contains todo.waiting) todo.nodes }
    ensures finished { IsFinished network.now (T.answers times.now) query.now
        (L.labels table.new) result }
    ensures met { AwaitsScans network.now (T.answers times.now) query.now
        (L.labels table.new) (L.met table.new) (Contains []) }
    ensures walks { result.walks ≡ todo.walks }
    ensures onward { SearchesOn network.now (T.answers times.now) query.now.target
        (L.labels table.old) (L.lists table.old) (L.had table.old)
        (L.labels table.new) (L.lists table.new) (L.had table.new) }
{
    network.keeps_limits();
    let target = query.target();
    while let Some(node) = todo.take() {
        let departure = table.label(node);
        let last = latest(target, table).min(HORIZON);
        if departure <= last {
            scan(network, times, node, departure, table, &mut todo);
        }
    }
    todo
}

/// Scans waiting nodes in the order in which they were opened, until no node waits. Then each label is the
/// least arrival; in a pair query, each label up to the target's is, and no arc is left later than the
/// target's label at the start. Takes no memory.
///
/// A label-correcting method after Dreyfus, An Appraisal of Some Shortest-Path Algorithms (Operations
/// Research 17, 1969).
pub fn finish<T: TravelTimes>(
    network: &Network,
    times: &T,
    query: &Query,
    table: Vec<u64>,
    todo: Open,
) -> Finished
    requires { CanFinish network.now (T.answers times.now) (T.classes times.now) query.now
        table.items todo }
    ensures finishes { FinishesFrom network.now (T.answers times.now) query.now
        table.items todo result.table.items result.todo }
    ensures least { (node : ℕ) → IsNode network.now.nodes node → IsAsked query.now node
        → IsLeast network.now (T.answers times.now) query.now.sources node
        (time_of (label_of result.table.items node)) }
    ensures exact { (node time : ℕ) → IsNode network.now.nodes node
        → IsLeastAt network.now (T.answers times.now) query.now.sources node time
        → time ≤ limit query.now.target (label_of result.table.items)
        → label_of result.table.items node ≡ time }
{
    network.keeps_limits();
    let mut bare = Bare { labels: table };
    let todo = finish_noted(network, times, query, &mut bare, todo);
    Finished {
        table: bare.labels,
        todo,
    }
}
