//! Searches: made on a road, and queried.
ghost use Rattle.std.specs.Prelude.{◌≡◌, IfOk, None, length};
ghost use Rattle.ea_road.specs.Queries.{IsProblem};
ghost use Rattle.ea_capi.specs.Sessions.{IsAnswered, IsSame, IsStart};
ghost use Rattle.ea_capi.specs.States.{road_of};

use crate::fault_numbers::{BEYOND_HORIZON, NO_SUCH_NODE};
use crate::handle::content::Session;
use crate::handle::road_search::RoadSearch;
use crate::handle::share::Share;
use ea_base::HORIZON;
use ea_road::{Query, Source};
use std::alloc::{AllocError, Global};

impl Session {
    /// A search on a road, with a share of it.
    pub fn on(alloc: Global, share: &Share, walks: bool) -> Result<Session, AllocError>
        ensures road { IfOk result (λ it. road_of it ≡ share.now.road) }
        ensures walks { IfOk result (λ it. it.walks ≡ walks) }
        ensures layout { IfOk result (λ it. it.share.layout ≡ share.now.layout) }
        ensures unasked { IfOk result (λ it. it.asked ≡ None) }
    {
        let share = share.again()?;
        let is_laid = share.layout().is_some();
        let search = RoadSearch::reserve(alloc, share.road().network.nodes(), walks, is_laid)?;
        Ok(Session {
            share,
            search,
            walks,
            asked: None,
        })
    }

    /// The number of nodes of its road.
    pub fn nodes(&self) -> u32
        ensures { result ≡ (road_of self.now).network.nodes }
    {
        self.share.road().network.nodes()
    }

    /// Answers a query.
    pub fn find(self, alloc: Global, query: &Query) -> Session
        requires { IsProblem (road_of self).network
            (length (road_of self).times.tables.list.items) query.now }
        ensures answer { IsAnswered query.now result }
        ensures same { IsSame self result }
    {
        let Session {
            share,
            search,
            walks,
            asked,
        } = self;
        let search = share.find(alloc, search, query);
        Session {
            share,
            search,
            walks,
            asked,
        }
    }

    /// 0 if a node and a departure make a source of its road, else the refusal's number.
    pub fn refusal(&self, node: u32, departure: u64) -> u32
        ensures done { result ≡ 0 → IsStart (road_of self.now).network.nodes
            (record { node = node; departure = departure }) }
        ensures refused { IsStart (road_of self.now).network.nodes
            (record { node = node; departure = departure }) → result ≡ 0 }
    {
        if node == 0 || node > self.nodes() {
            return NO_SUCH_NODE;
        }
        if departure > HORIZON {
            return BEYOND_HORIZON;
        }
        0
    }
}
