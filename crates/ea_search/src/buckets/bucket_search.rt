//! A search from the sources, nearly in the order of times.
ghost use Rattle.std.specs.Prelude.{◌≡◌, ℕ, ◌≤◌, [], Contains, IfSome, IsTrue, None, true};
ghost use Rattle.ea_road.specs.Labels.{limit};
ghost use Rattle.ea_road.specs.Roads.{IsNode};
ghost use Rattle.ea_search.specs.Candidates.{Empties, TakesUp};
ghost use Rattle.ea_search.specs.Frontiers.{HaveNone, WaitsAt};
ghost use Rattle.ea_search.specs.Listings.{AreLabelsListed};
ghost use Rattle.ea_search.specs.Notes.{AreHad};
ghost use Rattle.ea_search.specs.Scans.{AwaitsScans, FallsBy};
ghost use Rattle.ea_search.specs.Searching.{CanRelaxFrom, CanSearchOn, CanStartAnew, KeepsRoom, SearchesOn};
ghost use Rattle.ea_search.specs.Underway.{bound_of};

use crate::buckets::candidates::Candidates;
use crate::buckets::frontier::Frontier;
use crate::finishing_pass::{latest, scan, start};
use crate::labels::table::Table;
use ea_base::HORIZON;
use ea_road::{Network, Query};
use ea_travel_times::TravelTimes;

/// Offers each source's node its departure, and pushes the nodes whose labels fell.
fn begin<T: TravelTimes, L: Table>(
    network: &Network,
    times: &T,
    query: &Query,
    table: &mut L,
    frontier: &mut Frontier,
)
    requires { CanStartAnew network.now (T.classes times.now) query.now
        (L.labels table.old) frontier.old.todo.nodes }
    ensures underway { AwaitsScans network.now (T.answers times.now) query.now
        (L.labels table.new) (L.met table.new)
        (WaitsAt frontier.new (bound_of (L.labels table.new))) }
    ensures adds { (v u k : ℕ) → L.had table.new v u k → L.had table.old v u k }
    ensures room { KeepsRoom frontier.old.todo frontier.new.todo }
    ensures listed { AreLabelsListed (L.labels table.new) (L.lists table.new) }
{
    for source in query.sources() {
        start(table, frontier, source.node, source.departure);
    }
}

/// Gathers the candidates of an entry's node, unless the entry is stale or later than `last`. Returns false,
/// and gathers nothing, if the candidates might not fit.
fn take_up<T: TravelTimes, L: Table>(
    network: &Network,
    times: &T,
    table: &L,
    last: u64,
    entry: (u64, u32),
    candidates: &mut Candidates,
) -> bool
    requires { CanRelaxFrom network.now (T.classes times.now) (L.labels table.now) entry.1 last }
    ensures taken { IsTrue result → TakesUp network.now (T.answers times.now) (L.labels table.now) last entry
        candidates.old candidates.new }
    ensures crowded { (IsTrue result → ⊥) → (entry.0 ≡ bound_of (L.labels table.now) entry.1)
        × (entry.0 ≤ last) × (candidates.new ≡ candidates.old) }
{
    let (time, node) = entry;
    if table.label(node) == time {
        if time <= last {
            return candidates.gather(network, times, table, node, time);
        }
    }
    true
}

/// Takes up `first` and the rest of the hand. If the candidates of a node might not fit, returns that node;
/// later entries stay in the hand.
fn take_hand_up<T: TravelTimes, L: Table>(
    network: &Network,
    times: &T,
    table: &L,
    last: u64,
    first: (u64, u32),
    frontier: &mut Frontier,
    candidates: &mut Candidates,
) -> Option<u32>
    requires can { CanRelaxFrom network.now (T.classes times.now) (L.labels table.now) first.1 last }
    requires room { frontier.old.todo.nodes ≡ network.now.nodes }
    requires none { candidates.old ≡ [] }
    ensures emptied { Empties network.now (T.answers times.now) (L.labels table.now) last first
        frontier.old frontier.new candidates.new result }
    ensures crowded { IfSome result (λ node. IsNode network.now.nodes node
        × (bound_of (L.labels table.now) node ≤ last)) }
{
    let mut next = Some(first);
    while let Some(entry) = next {
        if !take_up(network, times, table, last, entry, candidates) {
            return Some(entry.1);
        }
        next = frontier.take_drawn();
    }
    None
}

/// Whether more entries may be taken; any number, if there is no bound of it.
fn may_take(left: Option<u64>) -> bool
    ensures { left ≡ None → result ≡ true }
{
    match left {
        Some(count) => 0 < count,
        None => true,
    }
}

/// What is left of a bound when an entry and the hand behind it were taken.
fn without_hand(left: Option<u64>, hand: usize) -> Option<u64>
    ensures { left ≡ None → result ≡ None }
{
    let count = left?;
    Some(count.saturating_sub(1).saturating_sub(hand as u64))
}

/// Scans until the frontier is empty, or about as many entries were taken as `most` says. The candidates of one hand are gathered first and
/// then offered. Returns whether the frontier is empty.
fn exhaust<T: TravelTimes, L: Table>(
    network: &Network,
    times: &T,
    query: &Query,
    table: &mut L,
    frontier: &mut Frontier,
    most: Option<u64>,
) -> bool
    requires { CanSearchOn network.now (T.answers times.now) (T.classes times.now) query.now
        (L.labels table.old) (L.met table.old)
        (WaitsAt frontier.old (bound_of (L.labels table.old))) frontier.old.todo.nodes }
    ensures underway { AwaitsScans network.now (T.answers times.now) query.now
        (L.labels table.new) (L.met table.new)
        (WaitsAt frontier.new (bound_of (L.labels table.new))) }
    ensures onward { SearchesOn network.now (T.answers times.now) query.now.target
        (L.labels table.old) (L.lists table.old) (L.had table.old)
        (L.labels table.new) (L.lists table.new) (L.had table.new) }
    ensures room { KeepsRoom frontier.old.todo frontier.new.todo }
    ensures whole { most ≡ None → result ≡ true }
    ensures none { result ≡ true → HaveNone frontier.new.lists }
{
    network.keeps_limits();
    let target = query.target();
    let mut candidates = Candidates::none();
    let mut left = most;
    'scanning: while may_take(left) {
        let Some(entry) = frontier.take(network, table) else {
            return true;
        };
        left = without_hand(left, frontier.in_hand());
        let last = latest(target, table).min(HORIZON);
        let crowded = take_hand_up(
            network,
            times,
            table,
            last,
            entry,
            frontier,
            &mut candidates,
        );
        candidates.offer(table, frontier);
        if let Some(node) = crowded {
            let time = table.label(node);
            scan(network, times, node, time, table, frontier);
        }
    }
    false
}

/// Searches from the sources; the frontier has no entry at first. The nodes that still wait afterwards are
/// those for which memory was refused.
pub fn search<T: TravelTimes, L: Table>(
    network: &Network,
    times: &T,
    query: &Query,
    table: &mut L,
    frontier: &mut Frontier,
)
    requires can { CanStartAnew network.now (T.classes times.now) query.now
        (L.labels table.old) frontier.old.todo.nodes }
    requires had { (v u k : ℕ) → L.had table.old v u k → ⊥ }
    ensures underway { AwaitsScans network.now (T.answers times.now) query.now
        (L.labels table.new) (L.met table.new) (Contains frontier.new.todo.waiting) }
    ensures had { AreHad network.now (T.answers times.now) (L.labels table.new) (L.had table.new) }
    ensures room { KeepsRoom frontier.old.todo frontier.new.todo }
    ensures none { HaveNone frontier.new.lists }
    ensures listed { AreLabelsListed (L.labels table.new) (L.lists table.new) }
{
    network.keeps_limits();
    begin(network, times, query, table, frontier);
    exhaust(network, times, query, table, frontier, None);
}

/// Continues a search, and gives up once about as many more nodes were scanned as `most` says. Returns whether it ended.
pub fn search_farther<T: TravelTimes, L: Table>(
    network: &Network,
    times: &T,
    query: &Query,
    table: &mut L,
    frontier: &mut Frontier,
    most: u64,
) -> bool
    requires can { CanSearchOn network.now (T.answers times.now) (T.classes times.now) query.now
        (L.labels table.old) (L.met table.old)
        (WaitsAt frontier.old (bound_of (L.labels table.old))) frontier.old.todo.nodes }
    requires listed { AreLabelsListed (L.labels table.old) (L.lists table.old) }
    ensures underway { AwaitsScans network.now (T.answers times.now) query.now
        (L.labels table.new) (L.met table.new)
        (WaitsAt frontier.new (bound_of (L.labels table.new))) }
    ensures room { KeepsRoom frontier.old.todo frontier.new.todo }
    ensures none { result ≡ true → HaveNone frontier.new.lists }
    ensures listed { AreLabelsListed (L.labels table.new) (L.lists table.new) }
{
    network.keeps_limits();
    exhaust(network, times, query, table, frontier, Some(most))
}

/// Searches like `search`, and gives up once about as many nodes were scanned as `most` says. Returns whether it ended.
pub fn search_near<T: TravelTimes, L: Table>(
    network: &Network,
    times: &T,
    query: &Query,
    table: &mut L,
    frontier: &mut Frontier,
    most: u64,
) -> bool
    requires can { CanStartAnew network.now (T.classes times.now) query.now
        (L.labels table.old) frontier.old.todo.nodes }
    ensures underway { AwaitsScans network.now (T.answers times.now) query.now
        (L.labels table.new) (L.met table.new)
        (WaitsAt frontier.new (bound_of (L.labels table.new))) }
    ensures room { KeepsRoom frontier.old.todo frontier.new.todo }
    ensures none { result ≡ true → HaveNone frontier.new.lists }
    ensures listed { AreLabelsListed (L.labels table.new) (L.lists table.new) }
{
    network.keeps_limits();
    begin(network, times, query, table, frontier);
    search_farther(network, times, query, table, frontier, most)
}

/// Continues from the labels in the table; the open nodes wait in the frontier's list. The nodes that still
/// wait afterwards are those for which memory was refused.
pub fn search_on<T: TravelTimes, L: Table>(
    network: &Network,
    times: &T,
    query: &Query,
    table: &mut L,
    frontier: &mut Frontier,
)
    requires { CanSearchOn network.now (T.answers times.now) (T.classes times.now) query.now
        (L.labels table.old) (L.met table.old)
        (Contains frontier.old.todo.waiting) frontier.old.todo.nodes }
    ensures underway { AwaitsScans network.now (T.answers times.now) query.now
        (L.labels table.new) (L.met table.new) (Contains frontier.new.todo.waiting) }
    ensures room { KeepsRoom frontier.old.todo frontier.new.todo }
    ensures beyond { FallsBy network.now (T.answers times.now)
        (limit query.now.target (bound_of (L.labels table.old)))
        (bound_of (L.labels table.old)) (bound_of (L.labels table.new)) }
{
    network.keeps_limits();
    frontier.move_in(table);
    exhaust(network, times, query, table, frontier, None);
}
