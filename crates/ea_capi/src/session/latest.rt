//! Searches for latest departures: made on a road turned round, and queried.
ghost use Rattle.std.specs.Prelude.{◌≡◌, ◌≤◌, IfErr, IfOk, None, Some, length, nat_lt, true};
ghost use Rattle.std.specs.Arc.{arc_value};
ghost use Rattle.ea_road.specs.LatestDepartures.{AreTargets, turned_targets};
ghost use Rattle.ea_road.specs.Queries.{IsProblem};
ghost use Rattle.ea_capi.specs.Calls.{IsThere};
ghost use Rattle.ea_capi.specs.Latest.{IsSameLatest, IsTimely};
ghost use Rattle.ea_capi.specs.LatestCalls.{IsLatestBegun, IsLatestHeld, IsNewLatest};
ghost use Rattle.ea_capi.specs.Sessions.{answers_on};
ghost use Rattle.ea_capi.specs.States.{road_behind, turned_in};

use crate::fault_numbers::{DONE, NO_ROAD, OUT_OF_MEMORY};
use crate::handle::content::{Content, LatestSearch};
use crate::handle::handle::Handle;
use crate::handle::road_search::RoadSearch;
use crate::handle::turned_share::TurnedShare;
use ea_road::latest_laws::{canonical_walks_turn_round, latest_departures_are_turned_arrivals};
use ea_road::{Query, Target};
use std::alloc::{AllocError, Global};

impl LatestSearch {
    /// A search on a road turned round, with a share of it.
    fn on(alloc: Global, share: &TurnedShare, walks: bool) -> Result<LatestSearch, AllocError>
        ensures road { IfOk result (λ it.
            road_behind it ≡ (arc_value share.now.turned.terrain).road) }
        ensures walks { IfOk result (λ it. it.walks ≡ walks) }
    {
        let share = share.again()?;
        let is_laid = share.layout().is_some();
        let nodes = share.turned().network.nodes();
        let search = RoadSearch::reserve(alloc, nodes, walks, is_laid)?;
        Ok(LatestSearch {
            share,
            search,
            walks,
        })
    }

    /// The number of nodes of its road.
    pub fn nodes(&self) -> u32
        ensures { result ≡ (road_behind self.now).network.nodes }
    {
        self.share.turned().terrain.road.network.nodes()
    }

    /// Answers a query for targets, which is the turned question's.
    pub fn find(self, alloc: Global, query: &Query, targets: &[Target]) -> LatestSearch
        requires problem { IsProblem self.share.turned.network
            (length (road_behind self).times.tables.list.items) query.now }
        requires sources { query.now.sources ≡ turned_targets targets.now }
        requires targets { AreTargets targets.now }
        ensures answer { IsTimely targets.now query.now.target result }
        ensures same { IsSameLatest self result }
    {
        let LatestSearch {
            share,
            search,
            walks,
        } = self;
        let road = &share.turned().terrain.road;
        latest_departures_are_turned_arrivals(&road.network, &road.times, targets);
        canonical_walks_turn_round(&road.network, &road.times, targets);
        let search = share.find(alloc, search, query);
        LatestSearch {
            share,
            search,
            walks,
        }
    }
}

/// A search on the turned road of a content: none if it holds no such road, an error if memory is refused.
fn search_on(
    alloc: Global,
    content: &Content,
    walks: bool,
) -> Result<Option<LatestSearch>, AllocError>
    ensures made { IfOk result (IsNewLatest (turned_in (Some content.now)) walks) }
    ensures refused { IfErr result (λ _. IsThere (turned_in (Some content.now))) }
{
    match content {
        Content::Turned(share) => Ok(Some(LatestSearch::on(alloc, share, walks)?)),
        _ => Ok(None),
    }
}

/// Puts a search into a handle.
fn keep(alloc: Global, search: LatestSearch, handle: &mut Handle) -> u32
    ensures { IsLatestHeld search handle.old.value handle.new.value result }
{
    match Box::new(alloc, Content::Latest(search)) {
        Ok(content) => {
            handle.put(content);
            DONE
        }
        Err(_) => OUT_OF_MEMORY,
    }
}

/// Makes a search for latest departures on a road turned round. Else like `earliest_search_new`.
#[unsafe(no_mangle)]
pub extern "C" fn earliest_search_new_until(
    alloc: Global,
    turned: &mut Handle,
    walks: u32,
    search: &mut Handle,
) -> u32
    ensures same { turned.new.value ≡ turned.old.value }
    ensures begun { IsLatestBegun (turned_in turned.old.value) (nat_lt 0 walks)
        search.old.value search.new.value result }
{
    let Some(content) = turned.take(alloc) else {
        return NO_ROAD;
    };
    let made = search_on(alloc, &content, walks > 0);
    turned.put(content);
    match made {
        Ok(Some(found)) => keep(alloc, found, search),
        Ok(None) => NO_ROAD,
        Err(_) => OUT_OF_MEMORY,
    }
}
