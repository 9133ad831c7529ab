//! A share of a road, and of its layout if it has one.
ghost use Rattle.std.specs.Prelude.{◌≡◌, ◌≤◌, IfOk, IfSome, None, Some, length, option_map};
ghost use Rattle.std.specs.Arc.{arc_value};
ghost use Rattle.ea_capi.specs.Shared.{IsLaidFor};
ghost use Rattle.ea_load.specs.Posed.{times_on};
ghost use Rattle.ea_paths.specs.Searches.{HasFound};
ghost use Rattle.ea_road.specs.Queries.{IsProblem};
ghost use Rattle.ea_road.specs.Roads.{top_class};

use crate::handle::road_search::RoadSearch;
use crate::handle::terrain::Terrain;
use ea_layout::Layout;
use ea_load::Road;
use ea_road::Query;
use std::alloc::{AllocError, Global};
use std::marker::Model;
use std::sync::Arc;

/// A share of a road, and of its layout if it has one. In contracts it is the road and the layout.
#[derive(Drop)]
pub struct Share {
    terrain: Arc<Terrain, Global>,
    layout: Option<Arc<Layout, Global>>,
}

impl Model for Share {
    ghost use Rattle.std.specs.Prelude.{option_map};
    ghost use Rattle.std.specs.Arc.{arc_value};
    ghost use Rattle.ea_capi.specs.Shared.{Shared, IsShared};

    ghost Value = { Shared };

    ghost view = { λ s. record {
      road = (arc_value s.terrain).road;
      layout = option_map arc_value s.layout;
    } };

    ghost invariant = { λ s. IsShared (record {
      road = (arc_value s.terrain).road;
      layout = option_map arc_value s.layout;
    }) };
}

impl Share {
    /// A share of a road without a layout.
    pub fn of(terrain: Arc<Terrain, Global>) -> Share
        ensures { result ≡ record { road = (arc_value terrain).road; layout = None } }
    {
        Share {
            terrain,
            layout: None,
        }
    }

    /// A share of a road with its layout.
    pub fn with(terrain: Arc<Terrain, Global>, layout: Arc<Layout, Global>) -> Share
        requires { IsLaidFor (arc_value terrain).road (arc_value layout) }
        ensures { result ≡ record {
          road = (arc_value terrain).road;
          layout = Some (arc_value layout);
        } }
    {
        Share {
            terrain,
            layout: Some(layout),
        }
    }

    /// One more share.
    pub fn again(&self) -> Result<Share, AllocError>
        ensures { IfOk result (λ it. it ≡ self.now) }
    {
        let terrain = Arc::try_clone(&self.terrain)?;
        match &self.layout {
            Some(layout) => {
                let layout = Arc::try_clone(layout)?;
                Ok(Share::with(terrain, layout))
            }
            None => Ok(Share::of(terrain)),
        }
    }

    /// Its road, which handles share.
    pub fn terrain(&self) -> &Arc<Terrain, Global>
        ensures { (arc_value result.now).road ≡ self.now.road }
    {
        &self.terrain
    }

    /// Its road.
    pub fn road(&self) -> &Road
        ensures { result.now ≡ self.now.road }
    {
        &self.terrain.road
    }

    /// For proofs: the road has travel times for the class of each arc. Does nothing at run time.
    pub fn keeps_classes(&self)
        ensures { top_class self.now.road.network.arcs
            ≤ length self.now.road.times.tables.list.items }
    {
        let _ = &self.terrain.road;
    }

    /// Answers a query on the road, with walks if there is room for them: on the layout, if there is one and it
    /// serves.
    pub fn find(&self, alloc: Global, search: RoadSearch, query: &Query) -> RoadSearch
        requires problem { IsProblem self.now.road.network
            (length self.now.road.times.tables.list.items) query.now }
        requires nodes { search.nodes ≡ self.now.road.network.nodes }
        ensures { HasFound self.now.road.network (times_on self.now.road) query.now search result }
    {
        let road = self.road();
        search.find(alloc, &road.network, &road.times, self.layout(), query)
    }

    /// Its layout, if it has one.
    pub fn layout(&self) -> Option<&Layout>
        ensures same { option_map (λ it. it.now) result ≡ self.now.layout }
        ensures fits { IfSome result (λ it. IsLaidFor self.now.road it.now) }
    {
        match &self.layout {
            Some(layout) => Some(layout),
            None => None,
        }
    }

    /// One more share of its layout, if it has one.
    pub fn layout_again(&self) -> Result<Option<Arc<Layout, Global>>, AllocError>
        ensures { IfOk result (λ it. option_map arc_value it ≡ self.now.layout) }
    {
        match &self.layout {
            Some(layout) => Ok(Some(Arc::try_clone(layout)?)),
            None => Ok(None),
        }
    }
}
