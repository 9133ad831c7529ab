//! Searches for some nodes, one after another on the same arrays.
ghost use Rattle.std.specs.Prelude.{◌≡◌, Contains, None, IfOk, false, length, replicate, true};
ghost use Rattle.ea_road.specs.Queries.{IsAsked};
ghost use Rattle.ea_road.specs.Labels.{label_of};
ghost use Rattle.ea_road.specs.declared.TheConstants.{NONE};
ghost use Rattle.ea_paths.specs.Searches.{AsksAll, IsUnlinked};
ghost use Rattle.ea_asked.specs.Asked.{CanFindAsked, HasFoundAsked, IsReservedFor};
ghost use Rattle.ea_asked.specs.Blank.{CanAnswer, CanShow, IsBlank};
ghost use Rattle.ea_asked.specs.Seeking.{AreLedTo};
ghost use Rattle.ea_asked.specs.Stores.{Shows, room};

use crate::arrays::{Arrays, show};
use crate::frontier::Frontier;
use ea_paths::{Answer, arrivals_alone, link_all, solve_alone};
use ea_road::{NONE, Network, Query};
use ea_search::{Link, Listed, NO_LINK, Waiting};
use ea_travel_times::TravelTimes;
use std::alloc::{AllocError, Global};
use std::marker::Model;

/// The arrays of searches by one thread, each for some nodes, and the last answer, which is right at these nodes
/// and says nothing of others. They are reserved once and reused. A search costs as much as the nodes that it
/// and the search before reach, whatever the size of the network.
#[derive(Drop)]
pub struct AskedSearch {
    /// The labels of the last search.
    table: Vec<u64>,
    /// The nodes that it reached.
    listed: Listed,
    frontier: Frontier,
    waiting: Waiting,
    walks: bool,
    answer: Answer,
    /// The nodes that have labels in the answer.
    shown: Listed,
}

impl Model for AskedSearch {
    ghost use Rattle.ea_search.specs.Listings.{Searched};
    ghost use Rattle.ea_asked.specs.Stores.{IsAskedSearch};

    ghost Value = { Searched };

    ghost view = { λ s. record { nodes = s.answer.nodes; walks = s.walks; answer = s.answer } };

    ghost invariant = { λ s. IsAskedSearch s.table.items s.listed s.waiting s.walks s.answer s.shown };
}

/// The number of nodes with walks, 0 without.
fn room_for(nodes: u32, walks: bool) -> u32
    ensures { result ≡ room nodes walks }
{
    if walks { nodes } else { 0 }
}

/// The search with the labels of its arrays at the asked nodes as an answer without walks.
fn unlinked(arrays: Arrays, nodes: u32, asked: &[u32]) -> AskedSearch
    requires { CanShow nodes false asked.now arrays }
    ensures shows { Shows arrays.table.items asked.now (length asked.now) result.answer.labels }
    ensures unlinked { IsUnlinked nodes None false result.answer.labels result }
{
    let Arrays {
        table,
        listed,
        frontier,
        waiting,
        mut labels,
        links,
        mut shown,
    } = arrays;
    show(&table, asked, &mut labels, &mut shown);
    AskedSearch {
        table,
        listed,
        frontier,
        waiting,
        walks: false,
        answer: Answer::new(nodes, None, labels, links, false),
        shown,
    }
}

/// The search with the labels of its arrays at the asked nodes, which were led to them, as an answer with their
/// walks.
fn linked<T: TravelTimes>(
    arrays: Arrays,
    network: &Network,
    times: &T,
    query: &Query,
    asked: &[u32],
) -> AskedSearch
    requires asks { AsksAll network.now (T.classes times.now) query.now }
    requires show { CanShow network.now.nodes true asked.now arrays }
    requires led { AreLedTo network.now (T.answers times.now) query.now.sources asked.now
        (label_of arrays.table.items) }
    ensures { HasFoundAsked network.now (T.answers times.now) query.now (Contains asked.now)
        true result }
{
    let Arrays {
        table,
        listed,
        frontier,
        mut waiting,
        mut labels,
        mut links,
        mut shown,
    } = arrays;
    let sources = query.sources();
    link_all(network, times, sources, &table, &mut links, &mut waiting);
    show(&table, asked, &mut labels, &mut shown);
    AskedSearch {
        table,
        listed,
        frontier,
        waiting,
        walks: true,
        answer: Answer::new(network.nodes(), None, labels, links, true),
        shown,
    }
}

/// The search with an answer without walks that is right at all nodes. Its links are of no use.
fn with_labels(arrays: Arrays, answer: Answer) -> AskedSearch
    requires { CanAnswer answer.nodes false arrays }
    ensures { IsUnlinked answer.nodes None false answer.labels result }
{
    let nodes = answer.nodes();
    let (labels, _) = answer.into_arrays();
    let Arrays {
        table,
        mut listed,
        frontier,
        waiting,
        links,
        mut shown,
        ..
    } = arrays;
    listed.add_all();
    shown.add_all();
    AskedSearch {
        table,
        listed,
        frontier,
        waiting,
        walks: false,
        answer: Answer::new(nodes, None, labels, links, false),
        shown,
    }
}

/// The search with an answer with walks that is right at all nodes.
fn with_answer(arrays: Arrays, answer: Answer) -> AskedSearch
    requires can { CanAnswer answer.nodes true arrays }
    requires walks { answer.walks ≡ true }
    ensures { result ≡ record { nodes = answer.nodes; walks = true; answer = answer } }
{
    let Arrays {
        table,
        mut listed,
        frontier,
        waiting,
        mut shown,
        ..
    } = arrays;
    listed.add_all();
    shown.add_all();
    AskedSearch {
        table,
        listed,
        frontier,
        waiting,
        walks: true,
        answer,
        shown,
    }
}

/// Searches all nodes, since memory was refused to a search for some.
fn whole<T: TravelTimes>(
    alloc: Global,
    arrays: Arrays,
    network: &Network,
    times: &T,
    query: &Query,
    walks: bool,
) -> Result<AskedSearch, AllocError>
    requires asks { AsksAll network.now (T.classes times.now) query.now }
    requires can { CanAnswer network.now.nodes walks arrays }
    ensures { IfOk result (HasFoundAsked network.now (T.answers times.now) query.now
        (IsAsked query.now) walks) }
{
    if walks {
        let answer = solve_alone(alloc, network, times, query)?;
        Ok(with_answer(arrays, answer))
    } else {
        let answer = arrivals_alone(alloc, network, times, query)?;
        Ok(with_labels(arrays, answer))
    }
}

impl AskedSearch {
    /// Arrays for this number of nodes, with room for walks or without.
    fn with_room(alloc: Global, nodes: u32, walks: bool) -> Result<AskedSearch, AllocError>
        ensures { IfOk result (IsReservedFor nodes walks) }
    {
        let room = room_for(nodes, walks);
        let waiting = Waiting::reserve(alloc, room)?;
        let table = vec![in alloc; NONE; nodes as usize]?;
        let labels = vec![in alloc; NONE; nodes as usize]?;
        let links = vec![in alloc; NO_LINK; room as usize]?;
        Ok(AskedSearch {
            table,
            listed: Listed::new(alloc, nodes),
            frontier: Frontier::new(alloc),
            waiting,
            walks,
            answer: Answer::new(nodes, None, labels, links, false),
            shown: Listed::new(alloc, nodes),
        })
    }

    /// Arrays for searches in networks of this number of nodes, and for their walks. Fails only if memory is
    /// refused.
    pub fn reserve(alloc: Global, nodes: u32) -> Result<AskedSearch, AllocError>
        ensures { IfOk result (IsReservedFor nodes true) }
    {
        AskedSearch::with_room(alloc, nodes, true)
    }

    /// Arrays for searches in networks of this number of nodes, without walks. Fails only if memory is
    /// refused.
    pub fn reserve_without_walks(alloc: Global, nodes: u32) -> Result<AskedSearch, AllocError>
        ensures { IfOk result (IsReservedFor nodes false) }
    {
        AskedSearch::with_room(alloc, nodes, false)
    }

    /// The last answer; before the first search, one in which no node is reached.
    pub fn answer(&self) -> &Answer
        ensures { result.now ≡ self.now.answer }
    {
        &self.answer
    }

    /// The arrays, reset.
    fn into_arrays(self) -> Arrays
        ensures table { result.table.items ≡ replicate self.nodes NONE }
        ensures blank { IsBlank self.nodes self.walks result }
    {
        let AskedSearch {
            mut table,
            mut listed,
            frontier,
            waiting,
            answer,
            mut shown,
            ..
        } = self;
        let (mut labels, mut links) = answer.into_arrays();
        let mut none: [Link; 0] = [];
        listed.put_back(&mut table, &mut links);
        shown.put_back(&mut labels, &mut none);
        Arrays {
            table,
            listed,
            frontier,
            waiting,
            labels,
            links,
            shown,
        }
    }

    /// Answers a query for all nodes at the asked nodes alone, with their canonical walks if there is room for
    /// walks. The search is consumed and returned with its answer. It takes memory for open nodes and for the
    /// reached nodes; if that is refused, all nodes are searched by `solve_alone` or `arrivals_alone`. An error
    /// comes only if that takes memory that is refused.
    pub fn find<T: TravelTimes>(
        self,
        alloc: Global,
        network: &Network,
        times: &T,
        query: &Query,
        asked: &[u32],
    ) -> Result<AskedSearch, AllocError>
        requires { CanFindAsked network.now (T.classes times.now) query.now asked.now self }
        ensures { IfOk result (HasFoundAsked network.now (T.answers times.now) query.now
            (Contains asked.now) self.walks) }
    {
        let walks = self.walks;
        let (arrays, is_found) = self.into_arrays().seek(network, times, query, asked);
        if !is_found {
            return whole(alloc, arrays, network, times, query, walks);
        }
        if walks {
            Ok(linked(arrays, network, times, query, asked))
        } else {
            Ok(unlinked(arrays, network.nodes(), asked))
        }
    }
}
