//! Searches of pairs over a prepared road: near the sources without bounds, then anew, led by bounds.
ghost use Rattle.std.specs.Prelude.{◌≡◌, true, IfSome, None, length, map, replicate};
ghost use Rattle.ea_road.specs.declared.TheConstants.{NONE};
ghost use Rattle.ea_road.specs.Labels.{label_of};
ghost use Rattle.ea_hierarchy.specs.Preparations.{IsPreparedFor};
ghost use Rattle.ea_goal.specs.Led.{IsLedTo};
ghost use Rattle.ea_road.specs.Queries.{IsProblem};
ghost use Rattle.ea_search.specs.Frontiers.{HaveNone, WaitsAt};
ghost use Rattle.ea_search.specs.Listings.{AreLabelsListed, Searched};
ghost use Rattle.ea_search.specs.Scans.{AwaitsScans};
ghost use Rattle.ea_search.specs.Searching.{CanStartAnew, KeepsRoom};
ghost use Rattle.ea_search.specs.Underway.{IsFinished, bound_of};
ghost use Rattle.ea_paths.specs.Searches.{AreLabelled, AreReset, AsksPair, CanBegin, CanFind, CanLead, EndsNear, GetLabels, HasFound, HasFoundWalks, IsUnlinked};

use crate::answer::Answer;
use crate::link_search::link_all;
use crate::search::{Arrays, Search, width_without_walks};
use ea_goal::{Guide, Led, lead};
use ea_hierarchy::{FIRST_NEAR, Prepared};
use ea_road::{Network, Query};
use ea_search::{Frontier, Open, Reached, Table, finish_noted, search_farther, search_near};
use ea_travel_times::TravelTimes;
use std::alloc::Global;

/// The search with the labels of its arrays as an answer without walks.
fn unlinked(arrays: Arrays, nodes: u32, target: Option<u32>, walks: bool) -> Search
    requires { AreLabelled nodes walks arrays }
    ensures { IsUnlinked nodes target walks arrays.table.items result }
{
    let Arrays {
        table,
        todo,
        lists,
        listed,
        notes,
        ties,
        guide,
    } = arrays;
    let (waiting, links) = todo.into_parts();
    Search {
        answer: Answer::new(nodes, target, table, links, false),
        walks,
        waiting,
        lists,
        listed,
        notes,
        ties,
        guide,
    }
}

/// The search with the labels of its arrays, which were led to the target, as an answer with its walk.
fn linked<T: TravelTimes>(
    arrays: Arrays,
    network: &Network,
    times: &T,
    query: &Query,
    target: u32,
) -> Search
    requires pair { AsksPair network.now (T.classes times.now) query.now target }
    requires labelled { AreLabelled network.now.nodes true arrays }
    requires led { IsLedTo network.now (T.answers times.now) query.now.sources target
        (label_of arrays.table.items) }
    ensures { HasFoundWalks network.now (T.answers times.now) query.now network.now.nodes result }
{
    let Arrays {
        table,
        todo,
        lists,
        listed,
        notes,
        ties,
        guide,
    } = arrays;
    let (mut waiting, mut links) = todo.into_parts();
    let sources = query.sources();
    link_all(network, times, sources, &table, &mut links, &mut waiting);
    Search {
        answer: Answer::new(network.nodes(), Some(target), table, links, true),
        walks: true,
        waiting,
        lists,
        listed,
        notes,
        ties,
        guide,
    }
}

/// Arrays for led searches: the last ones, else new ones; none if memory is refused.
fn guide_over(alloc: Global, prepared: &Prepared, last: Option<Guide>) -> Option<Guide>
    requires { IfSome last (λ guide. guide ≡ length prepared.now.ranks) }
    ensures { IfSome result (λ guide. guide ≡ length prepared.now.ranks) }
{
    match last {
        Some(guide) => Some(guide),
        None => Guide::over(alloc, prepared).ok(),
    }
}

/// The arrays with labels that were led to a target, and whether the search ended; it doesn't if memory is
/// refused.
fn lead_arrays<T: TravelTimes>(
    arrays: Arrays,
    guide: Guide,
    network: &Network,
    times: &T,
    prepared: &Prepared,
    query: &Query,
    target: u32,
    until: u64,
) -> (Arrays, bool)
    requires can { CanLead network.now (T.answers times.now) (T.classes times.now)
        prepared.now query.now target }
    requires guide { guide ≡ network.now.nodes }
    requires labels { arrays.table.items ≡ replicate network.now.nodes NONE }
    ensures labels { GetLabels network.now.nodes arrays result.0 }
    ensures led { result.1 ≡ true → IsLedTo network.now (T.answers times.now)
        query.now.sources target (label_of result.0.table.items) }
{
    let Arrays {
        table,
        todo,
        lists,
        listed,
        notes,
        ties,
        ..
    } = arrays;
    let reached = Reached {
        labels: table,
        listed,
    };
    let Led {
        guide,
        table: Reached { labels, listed },
        is_found,
    } = lead(
        network, times, prepared, query, target, guide, reached, until,
    );
    let arrays = Arrays {
        table: labels,
        todo,
        lists,
        listed,
        notes,
        ties,
        guide: Some(guide),
    };
    (arrays, is_found)
}

/// How many more nodes near the first source may be scanned before bounds are begun, after a search up to a time.
fn near_of(prepared: &Prepared, query: &Query, until: u64) -> u32 {
    let Some(target) = query.target() else {
        return 0;
    };
    let Some(source) = query.sources().first() else {
        return 0;
    };
    prepared.near(source.node, target, until.saturating_sub(source.departure))
}

/// Searches some nodes near the sources, and more of them if the target seems to be near. Returns whether the search ended.
fn search_around<T: TravelTimes, L: Table>(
    network: &Network,
    times: &T,
    prepared: &Prepared,
    query: &Query,
    table: &mut L,
    frontier: &mut Frontier,
) -> bool
    requires can { CanStartAnew network.now (T.classes times.now) query.now
        (L.labels table.old) frontier.old.todo.nodes }
    ensures underway { AwaitsScans network.now (T.answers times.now) query.now
        (L.labels table.new) (L.met table.new)
        (WaitsAt frontier.new (bound_of (L.labels table.new))) }
    ensures room { KeepsRoom frontier.old.todo frontier.new.todo }
    ensures none { result ≡ true → HaveNone frontier.new.lists }
    ensures listed { AreLabelsListed (L.labels table.new) (L.lists table.new) }
{
    let first = u64::from(FIRST_NEAR);
    if search_near(network, times, query, table, frontier, first) {
        return true;
    }
    let most = near_of(prepared, query, frontier.low());
    search_farther(network, times, query, table, frontier, u64::from(most))
}

/// Searches near the sources on a reset table and empty lists until each label is least, unless that takes more nodes than those around: then
/// returns up to which time it searched.
fn find_near<T: TravelTimes, L: Table>(
    network: &Network,
    times: &T,
    prepared: &Prepared,
    query: &Query,
    lists: Vec<Vec<(u64, u32)>>,
    todo: Open,
    table: &mut L,
) -> (Vec<Vec<(u64, u32)>>, Open, Option<u64>)
    requires problem { IsProblem network.now (T.classes times.now) query.now }
    requires begins { CanBegin network.now.nodes (L.labels table.old) (L.had table.old)
        (map (λ l. l.items) lists.items) todo }
    ensures ends { EndsNear network.now todo (L.labels table.new) (L.lists table.new)
        (map (λ l. l.items) result.0.items) result.1 }
    ensures finished { result.2 ≡ None → IsFinished network.now (T.answers times.now) query.now
        (L.labels table.new) result.1 }
{
    let mut frontier = Frontier::over(lists, todo, width_without_walks(network));
    if search_around(network, times, prepared, query, table, &mut frontier) {
        let (lists, todo) = frontier.into_parts();
        let todo = finish_noted(network, times, query, table, todo);
        return (lists, todo, None);
    }
    let until = frontier.low();
    frontier.clear();
    let (lists, todo) = frontier.into_parts();
    (lists, todo, Some(until))
}

/// The arrays after a search near the sources; if it didn't end, returns up to which time it went.
fn search_arrays<T: TravelTimes>(
    arrays: Arrays,
    network: &Network,
    times: &T,
    prepared: &Prepared,
    query: &Query,
    target: u32,
) -> (Arrays, Option<u64>)
    requires pair { AsksPair network.now (T.classes times.now) query.now target }
    requires reset { AreReset network.now.nodes arrays.todo.walks arrays }
    ensures labelled { AreLabelled network.now.nodes arrays.todo.walks result.0 }
    ensures led { result.1 ≡ None → IsLedTo network.now (T.answers times.now)
        query.now.sources target (label_of result.0.table.items) }
{
    network.keeps_limits();
    let Arrays {
        table,
        todo,
        lists,
        listed,
        notes,
        ties,
        guide,
    } = arrays;
    let mut reached = Reached {
        labels: table,
        listed,
    };
    let (lists, todo, until) = find_near(
        network,
        times,
        prepared,
        query,
        lists,
        todo,
        &mut reached,
    );
    let Reached { labels, listed } = reached;
    let arrays = Arrays {
        table: labels,
        todo,
        lists,
        listed,
        notes,
        ties,
        guide,
    };
    (arrays, until)
}

/// The search with labels that were led to the target as an answer, with its walk if there is room for walks.
fn answered<T: TravelTimes>(
    arrays: Arrays,
    walks: bool,
    network: &Network,
    times: &T,
    query: &Query,
    target: u32,
) -> Search
    requires pair { AsksPair network.now (T.classes times.now) query.now target }
    requires labelled { AreLabelled network.now.nodes walks arrays }
    requires led { IsLedTo network.now (T.answers times.now) query.now.sources target
        (label_of arrays.table.items) }
    ensures { (before : Searched) → before.nodes ≡ network.now.nodes → before.walks ≡ walks
        → HasFound network.now (T.answers times.now) query.now before result }
{
    if walks {
        linked(arrays, network, times, query, target)
    } else {
        unlinked(arrays, network.nodes(), Some(target), walks)
    }
}

impl Search {
    /// Answers a query, with its canonical walks if there is room for walks. Else like `find_arrivals`.
    pub fn find<T: TravelTimes>(self, network: &Network, times: &T, query: &Query) -> Search
        requires { CanFind network.now (T.classes times.now) query.now self }
        ensures { HasFound network.now (T.answers times.now) query.now self result }
    {
        if self.walks {
            self.find_walks(network, times, query)
        } else {
            self.find_arrivals(network, times, query)
        }
    }

    /// Answers a query, with its canonical walks if there is room for walks. The search of a pair looks at some nodes near the sources, and
    /// if that isn't enough is led by bounds over a prepared road; one for all nodes is as without it. Else like `find_arrivals`, but it takes
    /// memory for the bounds of the first led search, and for open nodes; if that is refused, it does without bounds.
    pub fn find_led<T: TravelTimes>(
        self,
        alloc: Global,
        network: &Network,
        times: &T,
        prepared: &Prepared,
        query: &Query,
    ) -> Search
        requires can { CanFind network.now (T.classes times.now) query.now self }
        requires prepared { IsPreparedFor network.now (T.answers times.now) prepared.now }
        ensures { HasFound network.now (T.answers times.now) query.now self result }
    {
        match query.target() {
            Some(target) => self.find_target(alloc, network, times, prepared, query, target),
            None => self.find(network, times, query),
        }
    }

    /// Answers the query of a pair, near the sources without bounds.
    fn find_target<T: TravelTimes>(
        self,
        alloc: Global,
        network: &Network,
        times: &T,
        prepared: &Prepared,
        query: &Query,
        target: u32,
    ) -> Search
        requires can { CanLead network.now (T.answers times.now) (T.classes times.now)
            prepared.now query.now target }
        requires nodes { self.nodes ≡ network.now.nodes }
        ensures { HasFound network.now (T.answers times.now) query.now self result }
    {
        let walks = self.walks;
        let (arrays, until) = search_arrays(
            self.into_arrays(),
            network,
            times,
            prepared,
            query,
            target,
        );
        let Some(until) = until else {
            return answered(arrays, walks, network, times, query, target);
        };
        let search = unlinked(arrays, network.nodes(), None, walks);
        search.find_by_bounds(alloc, network, times, prepared, query, target, until)
    }

    /// Answers the query of a pair by a led search. Near the sources it was searched up to a time.
    fn find_by_bounds<T: TravelTimes>(
        self,
        alloc: Global,
        network: &Network,
        times: &T,
        prepared: &Prepared,
        query: &Query,
        target: u32,
        until: u64,
    ) -> Search
        requires can { CanLead network.now (T.answers times.now) (T.classes times.now)
            prepared.now query.now target }
        requires nodes { self.nodes ≡ network.now.nodes }
        ensures { HasFound network.now (T.answers times.now) query.now self result }
    {
        let walks = self.walks;
        let nodes = network.nodes();
        let mut arrays = self.into_arrays();
        let Some(guide) = guide_over(alloc, prepared, arrays.guide.take()) else {
            return unlinked(arrays, nodes, None, walks).find(network, times, query);
        };
        let (arrays, is_found) = lead_arrays(
            arrays, guide, network, times, prepared, query, target, until,
        );
        if !is_found {
            return unlinked(arrays, nodes, None, walks).find(network, times, query);
        }
        answered(arrays, walks, network, times, query, target)
    }
}
