//! Reading and parsing files.
ghost use Rattle.std.specs.Prelude.{◌≡◌, ℕ, List, Option, Some, IfOk, IfErr, OnOk, option_map};
ghost use Rattle.std.specs.Io.KnownBytes.{IsAtEnd};
ghost use Rattle.ea_bytes.specs.Text.{field_lines};
ghost use Rattle.ea_input.specs.Formats.{graph_format, source_format, table_format, time_format};
ghost use Rattle.ea_input.specs.Graph.{DenotesGraph};
ghost use Rattle.ea_input.specs.Sources.{DenotesSources};
ghost use Rattle.ea_input.specs.Times.{DenotesTimes};
ghost use Rattle.ea_input.specs.Views.{graph as graph_of};
ghost use Rattle.ea_input.specs.TableViews.{table};
ghost use Rattle.ea_load.specs.Files.{IsFaultAs, IsFaultIfThere, IsFaultIn, IsFileText, IsFoundIn, IsOptionalFault, IsReadFaultAs, IsTextIfThere, IsUnreadBy, reading};
ghost use Rattle.ea_load.specs.Given.{IsTableOf, no_table as none_given};

use crate::file_fault::{FileFault, FileWord};
use ea_base::{MOST_BYTES, RawGraph, RawTable};
use ea_blocks::{FaultKind, InputFault, ReadFault, read_all};
use ea_bytes::ByteIn;
use ea_input::{read_gr, read_ss, read_times, read_tp};
use std::alloc::Global;

/// All bytes of a file.
fn text_of<R: ByteIn>(alloc: Global, file: FileWord, reader: &mut R) -> Result<Vec<u8>, FileFault>
    ensures text { IfOk result
        (λ bytes. IsFileText (reading R.seen reader.old reader.new) bytes.items) }
    ensures end { OnOk result (IsAtEnd (R.seen reader.new).bytes) }
    ensures fault { IfErr result (IsUnreadBy file (reading R.seen reader.old reader.new)) }
{
    match read_all(alloc, reader, MOST_BYTES) {
        Ok(bytes) => Ok(bytes),
        Err(fault) => Err(read_fault_of(file, fault)),
    }
}

/// The fault of a file that couldn't be read.
pub fn read_fault_of(file: FileWord, fault: ReadFault) -> FileFault
    ensures { IsReadFaultAs file fault result }
{
    match fault {
        ReadFault::OutOfMemory => FileFault::OutOfMemory,
        _ => FileFault::Read { file, fault },
    }
}

/// The fault of a file whose text has a fault.
pub(crate) fn fault_of(file: FileWord, fault: InputFault) -> FileFault
    ensures { IsFaultAs file fault result }
{
    if fault.kind == FaultKind::OutOfMemory {
        FileFault::OutOfMemory
    } else {
        FileFault::Input { file, fault }
    }
}

/// The graph of a file.
pub(crate) fn read_graph<R: ByteIn>(alloc: Global, gr: &mut R) -> Result<RawGraph, FileFault>
    ensures denoted { IfOk result
        (λ found. (text : List ℕ) × IsFileText (reading R.seen gr.old gr.new) text
        × DenotesGraph (field_lines text) (graph_of found)) }
    ensures fault { IfErr result
        (IsFaultIn FileWord.Gr graph_format (reading R.seen gr.old gr.new)) }
{
    let text = text_of(alloc, FileWord::Gr, gr)?;
    match read_gr(alloc, &text) {
        Ok(graph) => Ok(graph),
        Err(fault) => Err(fault_of(FileWord::Gr, fault)),
    }
}

/// The sources of a file.
pub(crate) fn read_sources<R: ByteIn>(
    alloc: Global,
    ss: &mut R,
    nodes: u32,
) -> Result<Vec<u32>, FileFault>
    ensures denoted { IfOk result
        (λ found. (text : List ℕ) × IsFileText (reading R.seen ss.old ss.new) text
        × DenotesSources nodes (field_lines text) found.items) }
    ensures fault { IfErr result
        (IsFaultIn FileWord.Ss (source_format nodes) (reading R.seen ss.old ss.new)) }
{
    let text = text_of(alloc, FileWord::Ss, ss)?;
    match read_ss(alloc, &text, nodes) {
        Ok(sources) => Ok(sources),
        Err(fault) => Err(fault_of(FileWord::Ss, fault)),
    }
}

/// The timetables of a file.
fn read_timetables<R: ByteIn>(alloc: Global, tp: &mut R, arcs: u32) -> Result<RawTable, FileFault>
    ensures denoted { IfOk result
        (λ found. (text : List ℕ) × IsFileText (reading R.seen tp.old tp.new) text
        × IsTableOf arcs (Some text) (table found)) }
    ensures fault { IfErr result
        (IsFaultIn FileWord.Tp (table_format arcs) (reading R.seen tp.old tp.new)) }
{
    let text = text_of(alloc, FileWord::Tp, tp)?;
    match read_tp(alloc, &text, arcs) {
        Ok(table) => Ok(table),
        Err(fault) => Err(fault_of(FileWord::Tp, fault)),
    }
}

/// No timetables.
pub(crate) fn no_table(alloc: Global) -> RawTable
    ensures { table result ≡ none_given }
{
    RawTable {
        kinds: Vec::new(alloc),
        assigned: Vec::new(alloc),
        steps: Vec::new(alloc),
    }
}

/// The timetables of an optional file.
pub(crate) fn read_table<R: ByteIn>(
    alloc: Global,
    tp: &mut Option<R>,
    arcs: u32,
) -> Result<RawTable, FileFault>
    ensures denoted { IfOk result
        (λ found. (text : Option (List ℕ)) × IsTextIfThere R.seen tp.old tp.new text
        × IsTableOf arcs text (table found)) }
    ensures fault { IfErr result
        (IsFaultIfThere R.seen FileWord.Tp (table_format arcs) tp.old tp.new) }
{
    match tp {
        None => Ok(no_table(alloc)),
        Some(tp) => read_timetables(alloc, tp, arcs),
    }
}

/// The times of a file for this many starts.
fn read_times_of<R: ByteIn>(
    alloc: Global,
    times: &mut R,
    starts: u32,
) -> Result<Vec<u64>, FileFault>
    ensures denoted { IfOk result
        (λ found. (text : List ℕ) × IsFileText (reading R.seen times.old times.new) text
        × DenotesTimes starts (field_lines text) found.items) }
    ensures fault { IfErr result
        (IsFaultIn FileWord.Times (time_format starts) (reading R.seen times.old times.new)) }
{
    let text = text_of(alloc, FileWord::Times, times)?;
    match read_times(alloc, &text, starts) {
        Ok(times) => Ok(times),
        Err(fault) => Err(fault_of(FileWord::Times, fault)),
    }
}

/// The nodes of a file that says which nodes are reported.
fn read_nodes_of<R: ByteIn>(alloc: Global, asked: &mut R, nodes: u32) -> Result<Vec<u32>, FileFault>
    ensures denoted { IfOk result
        (λ found. (text : List ℕ) × IsFileText (reading R.seen asked.old asked.new) text
        × DenotesSources nodes (field_lines text) found.items) }
    ensures fault { IfErr result
        (IsFaultIn FileWord.Nodes (source_format nodes) (reading R.seen asked.old asked.new)) }
{
    let text = text_of(alloc, FileWord::Nodes, asked)?;
    match read_ss(alloc, &text, nodes) {
        Ok(asked) => Ok(asked),
        Err(fault) => Err(fault_of(FileWord::Nodes, fault)),
    }
}

/// The times of an optional file for this many starts.
pub(crate) fn read_own_times<R: ByteIn>(
    alloc: Global,
    times: &mut Option<R>,
    starts: u32,
) -> Result<Option<Vec<u64>>, FileFault>
    ensures found { IfOk result (λ found. IsFoundIn (DenotesTimes starts)
        (option_map R.seen times.old) (option_map R.seen times.new)
        (option_map (λ list. list.items) found)) }
    ensures fault { IfErr result (IsOptionalFault FileWord.Times (time_format starts)
        (option_map R.seen times.old) (option_map R.seen times.new)) }
{
    match times {
        None => Ok(None),
        Some(times) => match read_times_of(alloc, times, starts) {
            Ok(times) => Ok(Some(times)),
            Err(fault) => Err(fault),
        },
    }
}

/// The nodes of an optional file.
pub(crate) fn read_chosen<R: ByteIn>(
    alloc: Global,
    asked: &mut Option<R>,
    nodes: u32,
) -> Result<Option<Vec<u32>>, FileFault>
    ensures found { IfOk result (λ found. IsFoundIn (DenotesSources nodes)
        (option_map R.seen asked.old) (option_map R.seen asked.new)
        (option_map (λ list. list.items) found)) }
    ensures fault { IfErr result (IsOptionalFault FileWord.Nodes (source_format nodes)
        (option_map R.seen asked.old) (option_map R.seen asked.new)) }
{
    match asked {
        None => Ok(None),
        Some(asked) => match read_nodes_of(alloc, asked, nodes) {
            Ok(asked) => Ok(Some(asked)),
            Err(fault) => Err(fault),
        },
    }
}
