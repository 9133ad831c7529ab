//! A road as handles share it.
ghost use Rattle.std.specs.Prelude.{◌≤◌, length};
ghost use Rattle.ea_road.specs.Roads.{top_class};

use ea_load::Road;

/// A road with travel times for the class of each of its arcs.
#[derive(Drop)]
pub struct Terrain {
    pub road: Road,
    pub ghost classed: { top_class road.network.arcs ≤ length road.times.tables.list.items },
}
