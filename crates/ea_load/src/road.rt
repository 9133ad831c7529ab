//! A network and its timetables, from what files denote.
ghost use Rattle.std.specs.Prelude.{◌≡◌, ℕ, List, Option, IfOk, IfErr, length};
ghost use Rattle.ea_input.specs.Graph.{DenotesGraph};
ghost use Rattle.ea_input.specs.Table.{DenotesTable, Table};
ghost use Rattle.ea_input.specs.Views.{graph as graph_of};
ghost use Rattle.ea_load.specs.Files.{IsTextIfThere, tables};
ghost use Rattle.ea_load.specs.Given.{IsRoadOf, IsTableOf, as_road, given_by, roads_of};
ghost use Rattle.ea_road.specs.Turned.{arcs_in};
ghost use Rattle.ea_load.specs.Sound.{IsSound};
ghost use Rattle.ea_travel_times.specs.Timetables.{AreFit};

use crate::file_fault::FileFault;
use crate::file_readers::read_table;
use ea_base::{Direction, RawGraph, RawTable};
use ea_bytes::ByteIn;
use ea_road::{ArcList, Network, NumberedArcs};
use ea_travel_times::{RoadTimes, Timetables};
use std::alloc::{AllocError, Global};

/// A network and its travel times, both as their files have them or both turned round.
#[derive(Drop)]
pub struct Road {
    pub network: Network,
    pub times: RoadTimes,
}

/// The same; the network has no index by tail yet.
#[derive(Drop)]
pub struct UnindexedRoad {
    pub arcs: NumberedArcs,
    pub times: RoadTimes,
}

/// The arcs in a direction.
pub(crate) fn directed_arcs(arcs: ArcList, direction: Direction) -> ArcList
    ensures { result ≡ arcs_in direction arcs }
{
    match direction {
        Direction::Forward => arcs,
        Direction::Turned => arcs.turned(),
    }
}

/// The road of a graph and a table, in a direction, without an index.
pub(crate) fn unindexed_road_of(
    alloc: Global,
    graph: RawGraph,
    table: RawTable,
    direction: Direction,
) -> Result<UnindexedRoad, AllocError>
    requires { IsSound (given_by graph table) }
    ensures { IfOk result (λ road. IsRoadOf direction (given_by graph table) (as_road road)) }
{
    let RawTable {
        kinds,
        assigned,
        steps,
    } = table;
    let tables = Timetables::with_steps(alloc, kinds, steps)?;
    let nodes = graph.nodes;
    let list = ArcList::with_classes(alloc, graph.arcs, &assigned)?;
    Ok(UnindexedRoad {
        arcs: NumberedArcs::new(nodes, directed_arcs(list, direction)),
        times: RoadTimes { tables, direction },
    })
}

/// The road of a graph and a table, in a direction.
pub(crate) fn road_of(
    alloc: Global,
    graph: RawGraph,
    table: RawTable,
    direction: Direction,
) -> Result<Road, AllocError>
    requires { IsSound (given_by graph table) }
    ensures { IfOk result (IsRoadOf direction (given_by graph table)) }
{
    let UnindexedRoad { arcs, times } = unindexed_road_of(alloc, graph, table, direction)?;
    let network = Network::of_arcs(alloc, arcs)?;
    Ok(Road { network, times })
}

/// The road of a graph and an optional file of timetables.
pub(crate) fn read_road<T: ByteIn>(
    alloc: Global,
    graph: RawGraph,
    tp: &mut Option<T>,
    direction: Direction,
) -> Result<Road, FileFault>
    requires denoted { (lines : List (List (List ℕ))) × DenotesGraph lines (graph_of graph) }
    ensures road { IfOk result (λ road. (text : Option (List ℕ)) × (table : Table)
        × IsTextIfThere T.seen tp.old tp.new text
        × IsTableOf (length (graph_of graph).arcs) text table
        × IsRoadOf direction (record { graph = graph_of graph; table = table }) road) }
    ensures fault { IfErr result
        ((tables T.seen tp.old tp.new).IsFault (length (graph_of graph).arcs)) }
{
    let table = read_table(alloc, tp, graph.arcs.len() as u32)?;
    let road = road_of(alloc, graph, table, direction)?;
    Ok(road)
}

/// A law on the texts of timetables: their kinds and steps fit travel times. Computes nothing.
pub fn timetables_law(_arcs: u32)
    ensures { (lines : List (List (List ℕ))) (table : Table) → DenotesTable _arcs lines table
        → AreFit table.kinds table.steps }
{}
