//! A road from texts in memory.
ghost use Rattle.std.specs.Prelude.{◌≡◌, ◌≤◌, ℕ, List, IfOk, IfErr, length};
ghost use Rattle.ea_bytes.specs.Text.{field_lines};
ghost use Rattle.ea_input.specs.Graph.{DenotesGraph};
ghost use Rattle.ea_input.specs.Table.{Table};
ghost use Rattle.ea_input.specs.Views.{graph as graph_of};
ghost use Rattle.ea_input.specs.TableViews.{table as table_of};
ghost use Rattle.ea_road.specs.Roads.{top_class};
ghost use Rattle.ea_load.specs.Given.{Denotes, Given, IsRoadOf, IsTableOf};
ghost use Rattle.ea_load.specs.Texts.{IsGraphFault, IsTableFault, IsTextFault, text_if_any};

use crate::file_fault::{FileFault, FileWord};
use crate::file_readers::{fault_of, no_table};
use crate::road::{Road, road_of};
use ea_base::{Direction, RawGraph, RawTable};
use ea_input::{read_gr, read_tp};
use std::alloc::Global;

/// The graph of a text.
fn graph_in(alloc: Global, gr: &[u8]) -> Result<RawGraph, FileFault>
    ensures denoted { IfOk result (λ found. DenotesGraph (field_lines gr.now) (graph_of found)) }
    ensures fault { IfErr result (IsGraphFault gr.now) }
{
    match read_gr(alloc, gr) {
        Ok(graph) => Ok(graph),
        Err(fault) => Err(fault_of(FileWord::Gr, fault)),
    }
}

/// The timetables of a text; an empty text has none.
fn table_in(alloc: Global, tp: &[u8], arcs: u32) -> Result<RawTable, FileFault>
    ensures denoted { IfOk result (λ found. IsTableOf arcs (text_if_any tp.now) (table_of found)) }
    ensures fault { IfErr result (IsTableFault arcs tp.now) }
{
    if tp.len() == 0 {
        return Ok(no_table(alloc));
    }
    match read_tp(alloc, tp, arcs) {
        Ok(table) => Ok(table),
        Err(fault) => Err(fault_of(FileWord::Tp, fault)),
    }
}

/// The road of a graph and a text of timetables.
fn road_with(alloc: Global, graph: RawGraph, tp: &[u8]) -> Result<Road, FileFault>
    requires denoted { (lines : List (List (List ℕ))) × DenotesGraph lines (graph_of graph) }
    ensures road { IfOk result (λ road. (table : Table)
        × IsTableOf (length (graph_of graph).arcs) (text_if_any tp.now) table
        × IsRoadOf Direction.Forward (record { graph = graph_of graph; table = table }) road) }
    ensures classed { IfOk result (λ road.
        top_class road.network.arcs ≤ length road.times.tables.list.items) }
    ensures fault { IfErr result (IsTableFault (length (graph_of graph).arcs) tp.now) }
{
    let table = table_in(alloc, tp, graph.arcs.len() as u32)?;
    let road = road_of(alloc, graph, table, Direction::Forward)?;
    Ok(road)
}

/// The road of a network's text and its timetables' text; an empty text has no timetables. The texts are not
/// copied. Fails with the first fault, the network's before the timetables', or with `OutOfMemory` at any
/// point.
pub fn road_of_texts(alloc: Global, gr: &[u8], tp: &[u8]) -> Result<Road, FileFault>
    ensures road { IfOk result (λ road. (given : Given)
        × Denotes gr.now (text_if_any tp.now) given × IsRoadOf Direction.Forward given road) }
    ensures classed { IfOk result (λ road.
        top_class road.network.arcs ≤ length road.times.tables.list.items) }
    ensures fault { IfErr result (IsTextFault gr.now tp.now) }
{
    let graph = graph_in(alloc, gr)?;
    let road = road_with(alloc, graph, tp)?;
    Ok(road)
}
