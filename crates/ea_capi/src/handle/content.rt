//! The content of a handle: a road, or a search on a road.
ghost use Rattle.std.specs.Prelude.{◌≡◌, All, None};
ghost use Rattle.std.specs.Option.{ForSome};
ghost use Rattle.std.specs.Arc.{arc_value};
ghost use Rattle.ea_road.specs.Roads.{IsNode};
ghost use Rattle.ea_road.specs.Turned.{turned_roads};

use crate::handle::road_search::RoadSearch;
use crate::handle::share::Share;
use crate::handle::terrain::Terrain;
use crate::handle::turned_share::TurnedShare;
use ea_asked::AskedSearch;
use ea_road::Network;
use std::alloc::Global;
use std::sync::Arc;

/// The nodes that a search was last asked for, and the search that answered at them.
#[derive(Drop)]
pub struct AskedNodes {
    pub list: Vec<u32>,
    pub search: AskedSearch,
    pub ghost inside: { All (IsNode search.answer.nodes) list.items },
    pub ghost whole: { search.answer.target ≡ None },
}

/// A search by one thread, with its share of its road.
#[derive(Drop)]
pub struct Session {
    pub share: Share,
    pub search: RoadSearch,
    /// Whether the search finds walks and has room for them.
    pub walks: bool,
    /// The last query for some nodes, if there was one.
    pub asked: Option<AskedNodes>,
    pub ghost nodes: { search.nodes ≡ share.road.network.nodes },
    pub ghost room: { search.walks ≡ walks },
    pub ghost fits: { ForSome asked (λ it. it.search.nodes ≡ share.road.network.nodes) },
}

/// A road with its network turned round, for latest departures.
#[derive(Drop)]
pub struct TurnedRoad {
    pub terrain: Arc<Terrain, Global>,
    pub network: Network,
    pub ghost turned: { network ≡ turned_roads (arc_value terrain).road.network },
}

/// A search for latest departures by one thread, with its share of its road turned round.
#[derive(Drop)]
pub struct LatestSearch {
    pub share: TurnedShare,
    pub search: RoadSearch,
    /// Whether the search finds walks and has room for them.
    pub walks: bool,
    pub ghost nodes: { search.nodes ≡ share.turned.network.nodes },
    pub ghost room: { search.walks ≡ walks },
}

/// The content of a handle.
#[derive(Drop)]
pub enum Content {
    /// A share of a road.
    Road(Share),
    /// A search.
    Search(Session),
    /// A share of a road turned round.
    Turned(TurnedShare),
    /// A search for latest departures.
    Latest(LatestSearch),
    /// Nothing, while a call uses the search.
    Away,
}
