//! The arrays of searches by one thread, reused from query to query.
ghost use Rattle.std.specs.Prelude.{◌≡◌, true, false, None, map, if◌then◌else◌, IfOk};
ghost use Rattle.ea_road.specs.Queries.{IsProblem};
ghost use Rattle.ea_paths.specs.Searches.{AreReset, CanBegin, CanFind, CanFindWalks, HasEnded, HasFoundArrivals, HasFoundWalks};

mod led;

use crate::answer::Answer;
use crate::link_search::link_all;
use crate::log_links::link_noted;
use crate::ties::Ties;
use ea_goal::Guide;
use ea_road::{NONE, Network, Query};
use ea_search::{
    Frontier, Listed, NO_LINK, Noted, Open, Reached, Table, Waiting, Words, empty_lists,
    finish_noted, search,
};
use ea_travel_times::TravelTimes;
use std::alloc::{AllocError, Global};
use std::marker::Model;

/// The arrays of a search by one thread, and its last answer. They are reserved once and reused. A query
/// costs as much as the nodes that it and the query before reach, whatever the size of the network.
#[derive(Drop)]
pub struct Search {
    answer: Answer,
    walks: bool,
    waiting: Waiting,
    lists: Vec<Vec<(u64, u32)>>,
    listed: Listed,
    notes: Words,
    ties: Ties,
    /// Arrays for led searches, once there was one.
    guide: Option<Guide>,
}

impl Model for Search {
    ghost use Rattle.std.specs.Prelude.{map};
    ghost use Rattle.ea_search.specs.Listings.{Searched};
    ghost use Rattle.ea_paths.specs.Searches.{IsSearch};

    ghost Value = { Searched };

    ghost view = { λ s.
        record { nodes = s.waiting.nodes; walks = s.walks; answer = s.answer } };

    ghost invariant = { λ s. IsSearch s.waiting s.walks s.answer s.listed
        (map (λ l. l.items) s.lists.items) s.guide };
}

/// The number of links with or without walks.
fn room_of(nodes: u32, walks: bool) -> usize
    ensures { result ≡ (if walks then nodes else 0) }
{
    if walks { nodes as usize } else { 0 }
}

/// The width of windows in a search without a log. In wider windows more nodes are scanned twice, in narrower
/// ones lists are spread more often.
pub(crate) fn width_without_walks(network: &Network) -> u64 {
    network.mean_weight().saturating_mul(2)
}

/// The least mean weight at which a search with a log has wide windows. Below it, nodes are often met at the
/// same time from nodes of different levels.
const LARGE_MEAN: u64 = 8;

/// The width of windows in a search with a log. A node that is scanned too early in its window gives its
/// heads levels that change later. With a small mean weight that happens to many nodes, and repairing their
/// levels costs more than windows of single times.
fn width_with_notes(network: &Network) -> u64 {
    let mean = network.mean_weight();
    if mean < LARGE_MEAN {
        return mean / 8;
    }
    width_without_walks(network)
}

/// The arrays on which a search runs.
#[derive(Drop)]
struct Arrays {
    table: Vec<u64>,
    todo: Open,
    lists: Vec<Vec<(u64, u32)>>,
    listed: Listed,
    notes: Words,
    ties: Ties,
    guide: Option<Guide>,
}

/// Searches from the sources until each label is least, on a reset table and empty lists.
fn find<T: TravelTimes, L: Table>(
    network: &Network,
    times: &T,
    query: &Query,
    width: u64,
    lists: Vec<Vec<(u64, u32)>>,
    todo: Open,
    table: &mut L,
) -> (Vec<Vec<(u64, u32)>>, Open)
    requires problem { IsProblem network.now (T.classes times.now) query.now }
    requires begins { CanBegin network.now.nodes (L.labels table.old) (L.had table.old)
        (map (λ l. l.items) lists.items) todo }
    ensures ended { HasEnded network.now (T.answers times.now) query.now
        (L.labels table.new) (L.met table.new) (L.had table.new) (L.lists table.new)
        (map (λ l. l.items) result.0.items) result.1 }
    ensures walks { result.1.walks ≡ todo.walks }
{
    let mut frontier = Frontier::over(lists, todo, width);
    search(network, times, query, table, &mut frontier);
    let (lists, todo) = frontier.into_parts();
    let todo = finish_noted(network, times, query, table, todo);
    (lists, todo)
}

impl Search {
    /// Arrays for this number of nodes, with room for walks or without.
    fn with_room(alloc: Global, nodes: u32, walks: bool) -> Result<Search, AllocError>
        ensures { IfOk result (λ search. (search.nodes ≡ nodes) × (search.walks ≡ walks)) }
    {
        let waiting = Waiting::reserve(alloc, nodes)?;
        let lists = empty_lists(alloc)?;
        let table = vec![in alloc; NONE; nodes as usize]?;
        let room = room_of(nodes, walks);
        let links = vec![in alloc; NO_LINK; room]?;
        Ok(Search {
            answer: Answer::new(nodes, None, table, links, false),
            walks,
            waiting,
            lists,
            listed: Listed::new(alloc, nodes),
            notes: Words::none(alloc),
            ties: Ties::none(alloc),
            guide: None,
        })
    }

    /// Arrays for searches in networks of this number of nodes, and for their walks. Fails only if memory is
    /// refused.
    pub fn reserve(alloc: Global, nodes: u32) -> Result<Search, AllocError>
        ensures { IfOk result (λ search. (search.nodes ≡ nodes) × (search.walks ≡ true)) }
    {
        Search::with_room(alloc, nodes, true)
    }

    /// Arrays for searches in networks of this number of nodes, without walks. Fails only if memory is
    /// refused.
    pub fn reserve_without_walks(alloc: Global, nodes: u32) -> Result<Search, AllocError>
        ensures { IfOk result (λ search. (search.nodes ≡ nodes) × (search.walks ≡ false)) }
    {
        Search::with_room(alloc, nodes, false)
    }

    /// The last answer; before the first query, one in which no node is reached.
    pub fn answer(&self) -> &Answer
        ensures { result.now ≡ self.now.answer }
    {
        &self.answer
    }

    /// The last answer. Frees the other arrays.
    pub fn into_answer(self) -> Answer
        ensures { result ≡ self.answer }
    {
        self.answer
    }

    /// The arrays, reset.
    fn into_arrays(self) -> Arrays
        ensures { AreReset self.nodes self.walks result }
    {
        let Search {
            answer,
            walks,
            waiting,
            lists,
            mut listed,
            mut notes,
            ties,
            guide,
        } = self;
        let (mut table, mut links) = answer.into_arrays();
        listed.put_back(&mut table, &mut links);
        notes.clear();
        Arrays {
            table,
            todo: Open::of(waiting, links, walks),
            lists,
            listed,
            notes,
            ties,
            guide,
        }
    }

    /// Answers a query without walks. The search is consumed and returned with its answer. Takes no memory
    /// beyond what the reached nodes need; if that is refused, the search takes longer.
    pub fn find_arrivals<T: TravelTimes>(
        self,
        network: &Network,
        times: &T,
        query: &Query,
    ) -> Search
        requires { CanFind network.now (T.classes times.now) query.now self }
        ensures { HasFoundArrivals network.now (T.answers times.now) query.now self result }
    {
        let walks = self.walks;
        let Arrays {
            table,
            todo,
            lists,
            listed,
            notes,
            ties,
            guide,
        } = self.into_arrays();
        let mut reached = Reached {
            labels: table,
            listed,
        };
        let width = width_without_walks(network);
        let (lists, todo) = find(network, times, query, width, lists, todo, &mut reached);
        let Reached { labels, listed } = reached;
        let (waiting, links) = todo.into_parts();
        Search {
            answer: Answer::new(network.nodes(), query.target(), labels, links, false),
            walks,
            waiting,
            lists,
            listed,
            notes,
            ties,
            guide,
        }
    }

    /// Answers a query with its canonical walks. Else like `find_arrivals`.
    pub fn find_walks<T: TravelTimes>(self, network: &Network, times: &T, query: &Query) -> Search
        requires { CanFindWalks network.now (T.classes times.now) query.now self }
        ensures { HasFoundWalks network.now (T.answers times.now) query.now self.nodes result }
    {
        if query.target().is_none() {
            self.find_all_walks(network, times, query)
        } else {
            self.find_pair_walk(network, times, query)
        }
    }

    /// The walks to all nodes, from the log of the search.
    fn find_all_walks<T: TravelTimes>(self, network: &Network, times: &T, query: &Query) -> Search
        requires can { CanFindWalks network.now (T.classes times.now) query.now self }
        requires all { query.now.target ≡ None }
        ensures { HasFoundWalks network.now (T.answers times.now) query.now self.nodes result }
    {
        let Arrays {
            table,
            todo,
            lists,
            mut listed,
            notes,
            mut ties,
            guide,
        } = self.into_arrays();
        let mut noted = Noted::new(table, notes);
        let width = width_with_notes(network);
        let (lists, todo) = find(network, times, query, width, lists, todo, &mut noted);
        let (mut waiting, mut links) = todo.into_parts();
        link_noted(
            network,
            times,
            query,
            &noted,
            &mut links,
            &mut waiting,
            &mut ties,
        );
        // Resetting all costs about as much as reading the answer does.
        listed.add_all();
        let Noted { labels, notes, .. } = noted;
        Search {
            answer: Answer::new(network.nodes(), query.target(), labels, links, true),
            walks: true,
            waiting,
            lists,
            listed,
            notes,
            ties,
            guide,
        }
    }

    /// The walk to the target of a pair.
    fn find_pair_walk<T: TravelTimes>(self, network: &Network, times: &T, query: &Query) -> Search
        requires { CanFindWalks network.now (T.classes times.now) query.now self }
        ensures { HasFoundWalks network.now (T.answers times.now) query.now self.nodes result }
    {
        let Arrays {
            table,
            todo,
            lists,
            listed,
            notes,
            ties,
            guide,
        } = self.into_arrays();
        let mut reached = Reached {
            labels: table,
            listed,
        };
        let width = width_without_walks(network);
        let (lists, todo) = find(network, times, query, width, lists, todo, &mut reached);
        let Reached { labels, listed } = reached;
        let (mut waiting, mut links) = todo.into_parts();
        let sources = query.sources();
        link_all(network, times, sources, &labels, &mut links, &mut waiting);
        let answer = Answer::new(network.nodes(), query.target(), labels, links, true);
        Search {
            answer,
            walks: true,
            waiting,
            lists,
            listed,
            notes,
            ties,
            guide,
        }
    }
}
