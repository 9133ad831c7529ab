//! A share of a road turned round, and of the layout of its turned network if it has one.
ghost use Rattle.std.specs.Prelude.{◌≡◌, IfOk, IfSome, None, Some, length, option_map};
ghost use Rattle.std.specs.Arc.{arc_value};
ghost use Rattle.ea_capi.specs.Shared.{IsLaidTurned};
ghost use Rattle.ea_load.specs.Posed.{times_on};
ghost use Rattle.ea_paths.specs.Searches.{HasFound};
ghost use Rattle.ea_road.specs.Queries.{IsProblem};
ghost use Rattle.ea_travel_times.specs.TurnedTimes.{IsTurned};

use crate::handle::content::TurnedRoad;
use crate::handle::road_search::RoadSearch;
use ea_layout::Layout;
use ea_road::{Query, Turned};
use std::alloc::{AllocError, Global};
use std::marker::Model;
use std::sync::Arc;

/// A share of a road turned round, and of its layout if it has one. In contracts it is the turned road and the layout.
#[derive(Drop)]
pub struct TurnedShare {
    turned: Arc<TurnedRoad, Global>,
    layout: Option<Arc<Layout, Global>>,
}

impl Model for TurnedShare {
    ghost use Rattle.std.specs.Prelude.{option_map};
    ghost use Rattle.std.specs.Arc.{arc_value};
    ghost use Rattle.ea_capi.specs.Shared.{IsSharedTurned, SharedTurned};

    ghost Value = { SharedTurned };

    ghost view = { λ s. record {
      turned = arc_value s.turned;
      layout = option_map arc_value s.layout;
    } };

    ghost invariant = { λ s. IsSharedTurned (record {
      turned = arc_value s.turned;
      layout = option_map arc_value s.layout;
    }) };
}

impl TurnedShare {
    /// A share of a road turned round, and of its layout if there is one.
    pub fn of(
        alloc: Global,
        turned: TurnedRoad,
        layout: Option<Layout>,
    ) -> Result<TurnedShare, AllocError>
        requires { IfSome layout (IsLaidTurned turned) }
        ensures { IfOk result (λ it. it.turned ≡ turned) }
    {
        let turned = Arc::new(alloc, turned)?;
        match layout {
            Some(layout) => {
                let layout = Some(Arc::new(alloc, layout)?);
                Ok(TurnedShare { turned, layout })
            }
            None => Ok(TurnedShare {
                turned,
                layout: None,
            }),
        }
    }

    /// One more share.
    pub fn again(&self) -> Result<TurnedShare, AllocError>
        ensures { IfOk result (λ it. it ≡ self.now) }
    {
        let turned = Arc::try_clone(&self.turned)?;
        match &self.layout {
            Some(layout) => {
                let layout = Some(Arc::try_clone(layout)?);
                Ok(TurnedShare { turned, layout })
            }
            None => Ok(TurnedShare {
                turned,
                layout: None,
            }),
        }
    }

    /// The road turned round.
    pub fn turned(&self) -> &TurnedRoad
        ensures { result.now ≡ self.now.turned }
    {
        &self.turned
    }

    /// The layout of its network, if it has one.
    pub fn layout(&self) -> Option<&Layout>
        ensures same { option_map (λ it. it.now) result ≡ self.now.layout }
        ensures fits { IfSome result (λ it. IsLaidTurned self.now.turned it.now) }
    {
        match &self.layout {
            Some(layout) => Some(layout),
            None => None,
        }
    }

    /// Answers a turned question, with walks if there is room for them: on the layout, if there is one and it serves.
    pub fn find(&self, alloc: Global, search: RoadSearch, query: &Query) -> RoadSearch
        requires problem { IsProblem self.now.turned.network
            (length (arc_value self.now.turned.terrain).road.times.tables.list.items) query.now }
        requires nodes { search.nodes ≡ self.now.turned.network.nodes }
        ensures { HasFound self.now.turned.network
            (IsTurned (times_on (arc_value self.now.turned.terrain).road)) query.now search result }
    {
        let turned = self.turned();
        let times = Turned::of(&turned.terrain.road.times);
        search.find(alloc, &turned.network, &times, self.layout(), query)
    }
}
