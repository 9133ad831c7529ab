//! The arrays of a search on a road, which may have a layout.
ghost use Rattle.std.specs.Prelude.{◌≡◌, IfOk, IfSome};
ghost use Rattle.ea_capi.specs.Shared.{IsLaidOn};
ghost use Rattle.ea_paths.specs.Searches.{CanFind, HasFound};

use ea_layout::{LaidSearch, Layout};
use ea_paths::{Answer, Search};
use ea_road::{Network, Query};
use ea_travel_times::TravelTimes;
use std::alloc::{AllocError, Global};
use std::marker::Model;

/// The arrays of searches on the road as it is, or of those on its layout, too.
#[derive(Drop)]
pub enum Arrays {
    Plain(Search),
    Laid(LaidSearch),
}

/// The arrays of searches by one thread on a road, and the last answer. Questions that a layout serves are searched on it.
#[derive(Drop)]
pub struct RoadSearch {
    arrays: Arrays,
}

impl Model for RoadSearch {
    ghost use Rattle.ea_capi.specs.Searching.{searched_by};
    ghost use Rattle.ea_search.specs.Listings.{Searched};

    ghost Value = { Searched };

    ghost view = { λ s. searched_by s.arrays };
}

/// Arrays for searches on a road of this number of nodes as it is.
fn room(alloc: Global, nodes: u32, walks: bool) -> Result<Search, AllocError>
    ensures nodes { IfOk result (λ search. search.nodes ≡ nodes) }
    ensures walks { IfOk result (λ search. search.walks ≡ walks) }
{
    if walks {
        Search::reserve(alloc, nodes)
    } else {
        Search::reserve_without_walks(alloc, nodes)
    }
}

/// Arrays for searches on a layout, too.
fn laid_room(alloc: Global, nodes: u32, walks: bool) -> Result<LaidSearch, AllocError>
    ensures nodes { IfOk result (λ search. search.nodes ≡ nodes) }
    ensures walks { IfOk result (λ search. search.walks ≡ walks) }
{
    if walks {
        LaidSearch::reserve(alloc, nodes)
    } else {
        LaidSearch::reserve_without_walks(alloc, nodes)
    }
}

/// Answers a query: on a layout, if there is one and it serves.
fn find_laid<T: TravelTimes>(
    search: LaidSearch,
    alloc: Global,
    network: &Network,
    times: &T,
    layout: Option<&Layout>,
    query: &Query,
) -> LaidSearch
    requires can { CanFind network.now (T.classes times.now) query.now search }
    requires layout { IfSome layout (λ it. IsLaidOn network.now (T.answers times.now) it.now) }
    ensures { HasFound network.now (T.answers times.now) query.now search result }
{
    match layout {
        Some(layout) => search.find(alloc, network, layout, times, query),
        None => search.find_unlaid(network, times, query),
    }
}

impl RoadSearch {
    /// Arrays for searches on a road of this number of nodes, with room for walks or without, and for those on a layout if it has one.
    pub fn reserve(
        alloc: Global,
        nodes: u32,
        walks: bool,
        is_laid: bool,
    ) -> Result<RoadSearch, AllocError>
        ensures nodes { IfOk result (λ search. search.nodes ≡ nodes) }
        ensures walks { IfOk result (λ search. search.walks ≡ walks) }
    {
        let arrays = if is_laid {
            Arrays::Laid(laid_room(alloc, nodes, walks)?)
        } else {
            Arrays::Plain(room(alloc, nodes, walks)?)
        };
        Ok(RoadSearch { arrays })
    }

    /// The last answer; before the first query, one in which no node is reached.
    pub fn answer(&self) -> &Answer
        ensures { result.now ≡ self.now.answer }
    {
        match &self.arrays {
            Arrays::Plain(search) => search.answer(),
            Arrays::Laid(search) => search.answer(),
        }
    }

    /// Answers a query, with its canonical walks if there is room for walks: on the layout, if there is one and it serves. The search is consumed
    /// and returned with its answer.
    pub fn find<T: TravelTimes>(
        self,
        alloc: Global,
        network: &Network,
        times: &T,
        layout: Option<&Layout>,
        query: &Query,
    ) -> RoadSearch
        requires can { CanFind network.now (T.classes times.now) query.now self }
        requires layout { IfSome layout (λ it. IsLaidOn network.now (T.answers times.now) it.now) }
        ensures { HasFound network.now (T.answers times.now) query.now self result }
    {
        let arrays = match self.arrays {
            Arrays::Plain(search) => Arrays::Plain(search.find(network, times, query)),
            Arrays::Laid(search) => {
                Arrays::Laid(find_laid(search, alloc, network, times, layout, query))
            }
        };
        RoadSearch { arrays }
    }
}
