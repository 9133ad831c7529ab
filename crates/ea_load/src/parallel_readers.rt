//! Reading files in blocks, by several threads.
ghost use Rattle.std.specs.Prelude.{◌≡◌, ℕ, List, IfOk, IfErr, OnOk, Option, Some, length};
ghost use Rattle.ea_bytes.specs.Device.{BearsOn};
ghost use Rattle.ea_bytes.specs.Text.{field_lines};
ghost use Rattle.ea_input.specs.Formats.{graph_format, pair_format, source_format, table_format};
ghost use Rattle.ea_input.specs.Graph.{DenotesGraph};
ghost use Rattle.ea_input.specs.Pairs.{DenotesPairs};
ghost use Rattle.ea_input.specs.Sources.{DenotesSources};
ghost use Rattle.ea_input.specs.Table.{Table};
ghost use Rattle.ea_input.specs.Views.{graph as graph_of};
ghost use Rattle.ea_input.specs.TableViews.{table};
ghost use Rattle.ea_load.specs.Files.{bytes_there, IsBorneIfThere, IsFaultIfThere, IsFaultIn, IsFileText, IsFirstFault, IsStreamFaultAs, IsTextIfThere, reading, tables};
ghost use Rattle.ea_load.specs.Given.{AreGiven, Given, IsRoadOf, IsTableOf, as_road};

use crate::file_fault::{FileFault, FileWord};
use crate::file_readers::{fault_of, no_table, read_fault_of};
use crate::files::{CheckFiles, RunFiles};
use crate::road::{Road, UnindexedRoad, unindexed_road_of};
use ea_base::{Direction, MOST_BYTES, RawGraph, RawTable};
use ea_blocks::StreamFault;
use ea_bytes::ByteIn;
use ea_input::{read_gr_from, read_p2p_from, read_ss_from, read_tp_from};
use ea_road::Network;
use std::alloc::{AllocError, Global};
use std::thread::{Threads, available_parallelism};

/// The most threads that read a text.
const MOST_READERS: usize = 16;

/// The number of threads that may read a text: one for each processor, or one if the processors can't be
/// counted.
fn readers<H: Threads>(rt: &H) -> usize {
    match available_parallelism(rt) {
        Ok(processors) => processors.get().min(MOST_READERS),
        Err(_) => 1,
    }
}

/// The fault of a file whose device or text has a fault.
fn fault_from(file: FileWord, fault: StreamFault) -> FileFault
    ensures { IsStreamFaultAs file fault result }
{
    match fault {
        StreamFault::Read(fault) => read_fault_of(file, fault),
        StreamFault::Input(fault) => fault_of(file, fault),
    }
}

/// Like `read_graph`, in blocks and by several threads.
pub(crate) fn read_graph_by<H: Threads + Sync, R: ByteIn>(
    alloc: Global,
    rt: &H,
    gr: &mut R,
) -> Result<RawGraph, FileFault>
    ensures denoted { IfOk result
        (λ found. (text : List ℕ) × IsFileText (reading R.seen gr.old gr.new) text
        × DenotesGraph (field_lines text) (graph_of found)) }
    ensures fault { IfErr result
        (IsFaultIn FileWord.Gr graph_format (reading R.seen gr.old gr.new)) }
{
    match read_gr_from(alloc, rt, readers(rt), MOST_BYTES, gr) {
        Ok(graph) => Ok(graph),
        Err(fault) => Err(fault_from(FileWord::Gr, fault)),
    }
}

/// Like `read_sources`, in blocks.
fn read_sources_by<H: Threads + Sync, R: ByteIn>(
    alloc: Global,
    rt: &H,
    ss: &mut R,
    nodes: u32,
) -> Result<Vec<u32>, FileFault>
    ensures denoted { IfOk result
        (λ found. (text : List ℕ) × IsFileText (reading R.seen ss.old ss.new) text
        × DenotesSources nodes (field_lines text) found.items) }
    ensures fault { IfErr result
        (IsFaultIn FileWord.Ss (source_format nodes) (reading R.seen ss.old ss.new)) }
{
    match read_ss_from(alloc, rt, readers(rt), MOST_BYTES, ss, nodes) {
        Ok(sources) => Ok(sources),
        Err(fault) => Err(fault_from(FileWord::Ss, fault)),
    }
}

/// Like `read_pairs`, in blocks.
pub(crate) fn read_pairs_by<H: Threads + Sync, R: ByteIn>(
    alloc: Global,
    rt: &H,
    p2p: &mut R,
    nodes: u32,
) -> Result<Vec<(u32, u32)>, FileFault>
    ensures denoted { IfOk result
        (λ found. (text : List ℕ) × IsFileText (reading R.seen p2p.old p2p.new) text
        × DenotesPairs nodes (field_lines text) found.items) }
    ensures fault { IfErr result
        (IsFaultIn FileWord.P2p (pair_format nodes) (reading R.seen p2p.old p2p.new)) }
{
    match read_p2p_from(alloc, rt, readers(rt), MOST_BYTES, p2p, nodes) {
        Ok(pairs) => Ok(pairs),
        Err(fault) => Err(fault_from(FileWord::P2p, fault)),
    }
}

/// The timetables of a file, in blocks.
fn read_timetables_by<H: Threads + Sync, R: ByteIn>(
    alloc: Global,
    rt: &H,
    tp: &mut R,
    arcs: u32,
) -> Result<RawTable, FileFault>
    ensures denoted { IfOk result
        (λ found. (text : List ℕ) × IsFileText (reading R.seen tp.old tp.new) text
        × IsTableOf arcs (Some text) (table found)) }
    ensures fault { IfErr result
        (IsFaultIn FileWord.Tp (table_format arcs) (reading R.seen tp.old tp.new)) }
{
    match read_tp_from(alloc, rt, readers(rt), MOST_BYTES, tp, arcs) {
        Ok(table) => Ok(table),
        Err(fault) => Err(fault_from(FileWord::Tp, fault)),
    }
}

/// Like `read_table`, in blocks.
fn read_table_by<H: Threads + Sync, R: ByteIn>(
    alloc: Global,
    rt: &H,
    tp: &mut Option<R>,
    arcs: u32,
) -> Result<RawTable, FileFault>
    ensures denoted { IfOk result
        (λ found. (text : Option (List ℕ)) × IsTextIfThere R.seen tp.old tp.new text
        × IsTableOf arcs text (table found)) }
    ensures fault { IfErr result
        (IsFaultIfThere R.seen FileWord.Tp (table_format arcs) tp.old tp.new) }
{
    match tp {
        None => Ok(no_table(alloc)),
        Some(tp) => read_timetables_by(alloc, rt, tp, arcs),
    }
}

/// A road with an index, which two threads make.
fn indexed_by<H: Threads + Sync>(
    alloc: Global,
    rt: &H,
    road: UnindexedRoad,
) -> Result<Road, AllocError>
    ensures { IfOk result (λ indexed. indexed ≡ as_road road) }
{
    let UnindexedRoad { arcs, times } = road;
    let network = Network::of_arcs_by(alloc, rt, arcs)?;
    Ok(Road { network, times })
}

/// Like `read_road_by`, without an index.
fn read_unindexed_by<H: Threads + Sync, T: ByteIn>(
    alloc: Global,
    rt: &H,
    graph: RawGraph,
    tp: &mut Option<T>,
    direction: Direction,
) -> Result<UnindexedRoad, FileFault>
    requires denoted { (lines : List (List (List ℕ))) × DenotesGraph lines (graph_of graph) }
    ensures road { IfOk result (λ road. (text : Option (List ℕ)) × (table : Table)
        × IsTextIfThere T.seen tp.old tp.new text
        × IsTableOf (length (graph_of graph).arcs) text table
        × IsRoadOf direction (record { graph = graph_of graph; table = table }) (as_road road)) }
    ensures fault { IfErr result
        ((tables T.seen tp.old tp.new).IsFault (length (graph_of graph).arcs)) }
{
    let table = read_table_by(alloc, rt, tp, graph.arcs.len() as u32)?;
    let road = unindexed_road_of(alloc, graph, table, direction)?;
    Ok(road)
}

/// Like `read_road`, by several threads.
pub(crate) fn read_road_by<H: Threads + Sync, T: ByteIn>(
    alloc: Global,
    rt: &H,
    graph: RawGraph,
    tp: &mut Option<T>,
    direction: Direction,
) -> Result<Road, FileFault>
    requires denoted { (lines : List (List (List ℕ))) × DenotesGraph lines (graph_of graph) }
    ensures road { IfOk result (λ road. (text : Option (List ℕ)) × (table : Table)
        × IsTextIfThere T.seen tp.old tp.new text
        × IsTableOf (length (graph_of graph).arcs) text table
        × IsRoadOf direction (record { graph = graph_of graph; table = table }) road) }
    ensures fault { IfErr result
        ((tables T.seen tp.old tp.new).IsFault (length (graph_of graph).arcs)) }
{
    let unindexed = read_unindexed_by(alloc, rt, graph, tp, direction)?;
    let road = indexed_by(alloc, rt, unindexed)?;
    Ok(road)
}

/// Like `read_run`, in blocks, and by several threads if there are several processors. The network has no index.
pub fn read_check_by<H: Threads + Sync, G: ByteIn, S: ByteIn, T: ByteIn>(
    alloc: Global,
    rt: &H,
    gr: &mut G,
    ss: &mut S,
    tp: &mut Option<T>,
    direction: Direction,
) -> Result<CheckFiles, FileFault>
    ensures given { IfOk result (λ files. (given : Given)
        × AreGiven DenotesSources (G.seen gr.old).bytes (S.seen ss.old).bytes
        (bytes_there T.seen tp.old)
        given files.sources.items
        × IsRoadOf direction given (as_road files.road)) }
    ensures gr_borne { OnOk result (BearsOn (G.seen gr.old) (G.seen gr.new)) }
    ensures ss_borne { OnOk result (BearsOn (S.seen ss.old) (S.seen ss.new)) }
    ensures tp_borne { OnOk result (IsBorneIfThere T.seen tp.old tp.new) }
    ensures fault { IfErr result (IsFirstFault FileWord.Ss source_format DenotesSources
        (reading G.seen gr.old gr.new) (reading S.seen ss.old ss.new)
        (tables T.seen tp.old tp.new)) }
{
    let graph = read_graph_by(alloc, rt, gr)?;
    let sources = read_sources_by(alloc, rt, ss, graph.nodes)?;
    let road = read_unindexed_by(alloc, rt, graph, tp, direction)?;
    Ok(CheckFiles { road, sources })
}

/// Like `read_run`, in blocks, and by several threads if there are several processors.
pub fn read_run_by<H: Threads + Sync, G: ByteIn, S: ByteIn, T: ByteIn>(
    alloc: Global,
    rt: &H,
    gr: &mut G,
    ss: &mut S,
    tp: &mut Option<T>,
    direction: Direction,
) -> Result<RunFiles, FileFault>
    ensures given { IfOk result (λ files. (given : Given)
        × AreGiven DenotesSources (G.seen gr.old).bytes (S.seen ss.old).bytes
        (bytes_there T.seen tp.old)
        given files.sources.items
        × IsRoadOf direction given files.road) }
    ensures gr_borne { OnOk result (BearsOn (G.seen gr.old) (G.seen gr.new)) }
    ensures ss_borne { OnOk result (BearsOn (S.seen ss.old) (S.seen ss.new)) }
    ensures tp_borne { OnOk result (IsBorneIfThere T.seen tp.old tp.new) }
    ensures fault { IfErr result (IsFirstFault FileWord.Ss source_format DenotesSources
        (reading G.seen gr.old gr.new) (reading S.seen ss.old ss.new)
        (tables T.seen tp.old tp.new)) }
{
    let CheckFiles { road, sources } = read_check_by(alloc, rt, gr, ss, tp, direction)?;
    let road = indexed_by(alloc, rt, road)?;
    Ok(RunFiles { road, sources })
}
