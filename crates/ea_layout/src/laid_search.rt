//! Searches on a layout, whose answers have the numbers of the network.
ghost use Rattle.std.specs.Prelude.{◌≡◌, IfOk, length, true, false, if◌then◌else◌};
ghost use Rattle.ea_layout.specs.Copied.{AsksFor};
ghost use Rattle.ea_layout.specs.Laid.{CanFindLaid, IsPreparedLaid};
ghost use Rattle.ea_layout.specs.Orders.{file_roads};
ghost use Rattle.ea_paths.specs.Searches.{CanFind, HasFound, HasFoundArrivals, HasFoundWalks};
ghost use Rattle.ea_search.specs.Answers.{HasArrivals, IsAnswer};

use crate::laid_query::{laid_pair, laid_query};
use crate::layout::Layout;
use crate::written::Written;
use ea_paths::{Answer, Search};
use ea_road::{NONE, Network, Query};
use ea_search::{Listed, NO_LINK};
use ea_travel_times::TravelTimes;
use std::alloc::{AllocError, Global};
use std::marker::Model;

/// The arrays of searches by one thread on a layout, and the last answer, in which nodes and arcs have the
/// numbers of the network. They are reserved once and reused. A query for all nodes writes the answer once
/// over; one for a target costs as much as the nodes that it and the query before reach.
#[derive(Drop)]
pub struct LaidSearch {
    search: Search,
    /// What the last search on the layout found.
    answer: Answer,
    /// The nodes at which that answer has something.
    listed: Listed,
    /// Whether there is room for walks.
    has_walks: bool,
    /// Whether the last query was answered on the layout; otherwise its answer is the search's own.
    is_laid: bool,
}

impl Model for LaidSearch {
    ghost use Rattle.std.specs.Prelude.{◌≡◌, length, if◌then◌else◌};
    ghost use Rattle.ea_layout.specs.Copied.{CanRewrite};
    ghost use Rattle.ea_search.specs.Listings.{Searched};

    ghost Value = { Searched };

    ghost view = { λ s. record {
      nodes = s.search.nodes;
      walks = s.search.walks;
      answer = if s.is_laid then s.answer else s.search.answer;
    } };

    ghost invariant = { λ s. CanRewrite s.search.nodes s.answer.labels s.answer.links s.listed
        × (length s.answer.links ≡ (if s.search.walks then s.search.nodes else 0))
        × (s.has_walks ≡ s.search.walks) };
}

/// The number of links with or without walks.
fn room_of(nodes: u32, walks: bool) -> usize
    ensures { result ≡ (if walks then nodes else 0) }
{
    if walks { nodes as usize } else { 0 }
}

/// Searches on a layout; for a target led by its preparation, if it has one.
fn search_on<T: TravelTimes>(
    search: Search,
    alloc: Global,
    layout: &Layout,
    times: &T,
    laid: &Query,
) -> Search
    requires can { CanFind layout.now.network (T.classes times.now) laid.now search }
    requires prepared { IsPreparedLaid (T.answers times.now) layout.now }
    ensures { HasFound layout.now.network (T.answers times.now) laid.now search result }
{
    match &layout.prepared {
        Some(prepared) => search.find_led(alloc, &layout.network, times, prepared, laid),
        None => search.find(&layout.network, times, laid),
    }
}

impl LaidSearch {
    /// Arrays for this number of nodes beside those of a search.
    fn with_search(
        alloc: Global,
        nodes: u32,
        walks: bool,
        search: Search,
    ) -> Result<LaidSearch, AllocError>
        requires { (search.nodes ≡ nodes) × (search.walks ≡ walks) }
        ensures { IfOk result (λ laid. (laid.nodes ≡ nodes) × (laid.walks ≡ walks)) }
    {
        let labels = vec![in alloc; NONE; nodes as usize]?;
        let room = room_of(nodes, walks);
        let links = vec![in alloc; NO_LINK; room]?;
        Ok(LaidSearch {
            search,
            answer: Answer::new(nodes, None, labels, links, false),
            listed: Listed::new(alloc, nodes),
            has_walks: walks,
            is_laid: true,
        })
    }

    /// Arrays for searches in networks of this number of nodes, and for their walks. Fails only if memory is
    /// refused.
    pub fn reserve(alloc: Global, nodes: u32) -> Result<LaidSearch, AllocError>
        ensures { IfOk result (λ laid. (laid.nodes ≡ nodes) × (laid.walks ≡ true)) }
    {
        let search = Search::reserve(alloc, nodes)?;
        LaidSearch::with_search(alloc, nodes, true, search)
    }

    /// Arrays for searches in networks of this number of nodes, without walks. Fails only if memory is
    /// refused.
    pub fn reserve_without_walks(alloc: Global, nodes: u32) -> Result<LaidSearch, AllocError>
        ensures { IfOk result (λ laid. (laid.nodes ≡ nodes) × (laid.walks ≡ false)) }
    {
        let search = Search::reserve_without_walks(alloc, nodes)?;
        LaidSearch::with_search(alloc, nodes, false, search)
    }

    /// The last answer; before the first query, one in which no node is reached.
    pub fn answer(&self) -> &Answer
        ensures { result.now ≡ self.now.answer }
    {
        if self.is_laid {
            &self.answer
        } else {
            self.search.answer()
        }
    }

    /// Answers a query without walks.
    fn arrivals<T: TravelTimes>(
        self,
        alloc: Global,
        layout: &Layout,
        times: &T,
        query: &Query,
        laid: &Query,
    ) -> LaidSearch
        requires can { CanFindLaid (file_roads layout.now) (T.answers times.now) layout.now
            (T.classes times.now) query.now self }
        requires asks { AsksFor layout.now.places.items query.now laid.now }
        ensures { HasFoundArrivals (file_roads layout.now) (T.answers times.now) query.now self result }
    {
        layout.network.keeps_limits();
        let LaidSearch {
            search,
            answer,
            listed,
            has_walks,
            ..
        } = self;
        let (labels, links) = answer.into_arrays();
        let mut written = Written {
            labels,
            links,
            listed,
        };
        let search = search_on(search, alloc, layout, times, laid);
        written.write_labels(&layout.places, query.target(), search.answer().labels());
        let Written {
            labels,
            links,
            listed,
        } = written;
        LaidSearch {
            search,
            answer: Answer::new(layout.network.nodes(), query.target(), labels, links, false),
            listed,
            has_walks,
            is_laid: true,
        }
    }

    /// Answers a query with its canonical walks.
    fn walks<T: TravelTimes>(
        self,
        alloc: Global,
        layout: &Layout,
        times: &T,
        query: &Query,
        laid: &Query,
    ) -> LaidSearch
        requires can { CanFindLaid (file_roads layout.now) (T.answers times.now) layout.now
            (T.classes times.now) query.now self }
        requires asks { AsksFor layout.now.places.items query.now laid.now }
        requires walks { self.walks ≡ true }
        ensures { HasFoundWalks (file_roads layout.now) (T.answers times.now) query.now self.nodes result }
    {
        layout.network.keeps_limits();
        let LaidSearch {
            search,
            answer,
            listed,
            has_walks,
            ..
        } = self;
        let (labels, links) = answer.into_arrays();
        let mut written = Written {
            labels,
            links,
            listed,
        };
        let search = search_on(search, alloc, layout, times, laid);
        written.write_labels(&layout.places, query.target(), search.answer().labels());
        written.write_links(layout, query.target(), search.answer().links());
        let Written {
            labels,
            links,
            listed,
        } = written;
        LaidSearch {
            search,
            answer: Answer::new(layout.network.nodes(), query.target(), labels, links, true),
            listed,
            has_walks,
            is_laid: true,
        }
    }

    /// Answers a query on the network as it is, with its canonical walks if there is room for walks. The search is consumed and returned with
    /// its answer.
    pub fn find_unlaid<T: TravelTimes>(
        self,
        network: &Network,
        times: &T,
        query: &Query,
    ) -> LaidSearch
        requires { CanFind network.now (T.classes times.now) query.now self }
        ensures { HasFound network.now (T.answers times.now) query.now self result }
    {
        let LaidSearch {
            search,
            answer,
            listed,
            has_walks,
            ..
        } = self;
        LaidSearch {
            search: search.find(network, times, query),
            answer,
            listed,
            has_walks,
            is_laid: false,
        }
    }

    /// Answers a query under the numbers of a layout, with its canonical walks if there is room for walks.
    fn find_laid<T: TravelTimes>(
        self,
        alloc: Global,
        network: &Network,
        layout: &Layout,
        times: &T,
        query: &Query,
        laid: &Query,
    ) -> LaidSearch
        requires can { CanFindLaid network.now (T.answers times.now) layout.now (T.classes times.now)
            query.now self }
        requires asks { AsksFor layout.now.places.items query.now laid.now }
        ensures { HasFound network.now (T.answers times.now) query.now self result }
    {
        network.keeps_limits();
        if self.has_walks {
            self.walks(alloc, layout, times, query, laid)
        } else {
            self.arrivals(alloc, layout, times, query, laid)
        }
    }

    /// Answers a query for all nodes, or for a target from several sources, with its canonical walks if there is room for walks: for all nodes on
    /// the layout if that is likely to be faster, else on the network as it is.
    fn find_all<T: TravelTimes>(
        self,
        alloc: Global,
        network: &Network,
        layout: &Layout,
        times: &T,
        query: &Query,
    ) -> LaidSearch
        requires { CanFindLaid network.now (T.answers times.now) layout.now (T.classes times.now)
            query.now self }
        ensures { HasFound network.now (T.answers times.now) query.now self result }
    {
        if !layout.is_for_all || query.target().is_some() {
            return self.find_unlaid(network, times, query);
        }
        match laid_query(alloc, &layout.places, query) {
            Ok(laid) => self.find_laid(alloc, network, layout, times, query, &laid),
            Err(_) => self.find_unlaid(network, times, query),
        }
    }

    /// Answers a query, with its canonical walks if there is room for walks: that of a pair on the layout, led by its preparation if it has
    /// one; one for all nodes there if that is likely to be faster; and others on the network as it is. The search is consumed and returned
    /// with its answer.
    pub fn find<T: TravelTimes>(
        self,
        alloc: Global,
        network: &Network,
        layout: &Layout,
        times: &T,
        query: &Query,
    ) -> LaidSearch
        requires { CanFindLaid network.now (T.answers times.now) layout.now (T.classes times.now)
            query.now self }
        ensures { HasFound network.now (T.answers times.now) query.now self result }
    {
        match laid_pair(&layout.places, query) {
            Some(laid) => self.find_laid(alloc, network, layout, times, query, &laid),
            None => self.find_all(alloc, network, layout, times, query),
        }
    }

    /// Answers a query on the network of a layout, in its own numbers and without walks; for a target it is led by the layout's preparation, if
    /// it has one. The search is consumed and returned with its answer. An error comes only if memory for the sources of a query with
    /// several was refused.
    pub fn find_arrivals<T: TravelTimes>(
        self,
        alloc: Global,
        layout: &Layout,
        times: &T,
        query: &Query,
    ) -> Result<LaidSearch, AllocError>
        requires { CanFindLaid (file_roads layout.now) (T.answers times.now) layout.now
            (T.classes times.now) query.now self }
        ensures arrivals { IfOk result (λ laid.
            HasArrivals (file_roads layout.now) (T.answers times.now) query.now laid.answer) }
        ensures none { IfOk result (λ laid. laid.answer.walks ≡ false) }
        ensures room { IfOk result (λ laid.
            (laid.nodes ≡ self.nodes) × (laid.walks ≡ self.walks)) }
    {
        let laid = laid_query(alloc, &layout.places, query)?;
        Ok(self.arrivals(alloc, layout, times, query, &laid))
    }

    /// Answers a query with its canonical walks. Else like `find_arrivals`.
    pub fn find_walks<T: TravelTimes>(
        self,
        alloc: Global,
        layout: &Layout,
        times: &T,
        query: &Query,
    ) -> Result<LaidSearch, AllocError>
        requires can { CanFindLaid (file_roads layout.now) (T.answers times.now) layout.now
            (T.classes times.now) query.now self }
        requires walks { self.walks ≡ true }
        ensures answer { IfOk result (λ laid.
            IsAnswer (file_roads layout.now) (T.answers times.now) query.now laid.answer) }
        ensures room { IfOk result (λ laid. (laid.nodes ≡ self.nodes) × (laid.walks ≡ true)) }
    {
        let laid = laid_query(alloc, &layout.places, query)?;
        Ok(self.walks(alloc, layout, times, query, &laid))
    }
}
