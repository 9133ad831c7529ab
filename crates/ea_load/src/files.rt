//! All files of a run, or of pairs.
ghost use Rattle.std.specs.Prelude.{◌≡◌, ℕ, List, IfOk, IfErr, None, OnOk, option_map};
ghost use Rattle.ea_bytes.specs.Device.{BearsOn};
ghost use Rattle.ea_input.specs.Formats.{source_format, pair_format};
ghost use Rattle.ea_input.specs.Sources.{DenotesSources};
ghost use Rattle.ea_input.specs.Pairs.{DenotesPairs};
ghost use Rattle.ea_load.specs.Extra.{extras_in};
ghost use Rattle.ea_load.specs.Files.{AreExtras, bytes_there, extra_files, IsBorneIfThere, IsExtraFault, IsFirstFault, reading, tables};
ghost use Rattle.ea_load.specs.Given.{AreGiven, Given, IsRoadOf};

use crate::file_fault::{FileFault, FileWord};
use crate::file_readers::{read_chosen, read_graph, read_own_times, read_sources};
use crate::parallel_readers::{read_graph_by, read_pairs_by, read_road_by};
use crate::road::{Road, UnindexedRoad, read_road};
use ea_base::Direction;
use ea_bytes::ByteIn;
use std::alloc::Global;
use std::thread::Threads;

/// The readers of files that may be left out: timetables, times of the starts, and the nodes that are reported.
#[derive(Drop)]
pub struct OptionalFiles<R: ByteIn> {
    pub tp: Option<R>,
    pub times: Option<R>,
    pub nodes: Option<R>,
}

impl<R: ByteIn> OptionalFiles<R> {
    /// Timetables, if there are any, and no other file.
    pub fn only_tp(tp: Option<R>) -> OptionalFiles<R>
        ensures tp { result.tp ≡ tp }
        ensures times { result.times ≡ None }
        ensures nodes { result.nodes ≡ None }
    {
        OptionalFiles {
            tp,
            times: None,
            nodes: None,
        }
    }
}

/// The times of starts and the nodes that are reported, in the order of their files.
#[derive(Drop)]
pub struct ExtraLists {
    pub times: Option<Vec<u64>>,
    pub nodes: Option<Vec<u32>>,
}

impl ExtraLists {
    /// The times of the starts, if there is a file of them.
    pub fn times(&self) -> Option<&[u64]>
        ensures { option_map (λ times. times.now) result ≡ (extras_in self.now).times }
    {
        match &self.times {
            Some(times) => Some(times.as_slice()),
            None => None,
        }
    }

    /// The nodes that are reported, if there is a file of them.
    pub fn nodes(&self) -> Option<&[u32]>
        ensures { option_map (λ nodes. nodes.now) result ≡ (extras_in self.now).nodes }
    {
        match &self.nodes {
            Some(nodes) => Some(nodes.as_slice()),
            None => None,
        }
    }
}

/// Reads the files of times and of nodes, if they are there: times for this many starts, and some of this many
/// nodes. Each is read to its end and parsed before the next is touched.
///
/// Fails with the first fault in this order, or with `OutOfMemory` at any point.
pub fn read_extras<R: ByteIn>(
    alloc: Global,
    times: &mut Option<R>,
    asked: &mut Option<R>,
    starts: u32,
    nodes: u32,
) -> Result<ExtraLists, FileFault>
    ensures extras { IfOk result (λ extras. AreExtras starts nodes
        (extra_files R.seen times.old times.new asked.old asked.new) (extras_in extras)) }
    ensures fault { IfErr result (IsExtraFault starts nodes
        (extra_files R.seen times.old times.new asked.old asked.new)) }
{
    let times = read_own_times(alloc, times, starts)?;
    let nodes = read_chosen(alloc, asked, nodes)?;
    Ok(ExtraLists { times, nodes })
}

/// A road, and the nodes of sources in the order of their file.
#[derive(Drop)]
pub struct RunFiles {
    pub road: Road,
    pub sources: Vec<u32>,
}

/// The same; the network has no index by tail yet.
#[derive(Drop)]
pub struct CheckFiles {
    pub road: UnindexedRoad,
    pub sources: Vec<u32>,
}

/// A road, and pairs of source and target in the order of their file.
#[derive(Drop)]
pub struct PairFiles {
    pub road: Road,
    pub pairs: Vec<(u32, u32)>,
}

/// Reads the files of a run: network, sources and, if there are any, timetables. Each is read to its end and
/// parsed before the next is touched, and its text is dropped.
///
/// Fails with the first fault in this order, or with `OutOfMemory` at any point.
pub fn read_run<G: ByteIn, S: ByteIn, T: ByteIn>(
    alloc: Global,
    gr: &mut G,
    ss: &mut S,
    tp: &mut Option<T>,
    direction: Direction,
) -> Result<RunFiles, FileFault>
    ensures given { IfOk result (λ files. (given : Given)
        × AreGiven DenotesSources (G.seen gr.old).bytes (S.seen ss.old).bytes
        (bytes_there T.seen tp.old)
        given files.sources.items
        × IsRoadOf direction given files.road) }
    ensures gr_borne { OnOk result (BearsOn (G.seen gr.old) (G.seen gr.new)) }
    ensures ss_borne { OnOk result (BearsOn (S.seen ss.old) (S.seen ss.new)) }
    ensures tp_borne { OnOk result (IsBorneIfThere T.seen tp.old tp.new) }
    ensures fault { IfErr result (IsFirstFault FileWord.Ss source_format DenotesSources
        (reading G.seen gr.old gr.new) (reading S.seen ss.old ss.new)
        (tables T.seen tp.old tp.new)) }
{
    let graph = read_graph(alloc, gr)?;
    let sources = read_sources(alloc, ss, graph.nodes)?;
    let road = read_road(alloc, graph, tp, direction)?;
    Ok(RunFiles { road, sources })
}

/// Reads the files of pairs, like `read_run_by` those of a run.
pub fn read_pairs<H: Threads + Sync, G: ByteIn, P: ByteIn, T: ByteIn>(
    alloc: Global,
    rt: &H,
    gr: &mut G,
    p2p: &mut P,
    tp: &mut Option<T>,
    direction: Direction,
) -> Result<PairFiles, FileFault>
    ensures given { IfOk result (λ files. (given : Given)
        × AreGiven DenotesPairs (G.seen gr.old).bytes (P.seen p2p.old).bytes
        (bytes_there T.seen tp.old)
        given files.pairs.items
        × IsRoadOf direction given files.road) }
    ensures gr_borne { OnOk result (BearsOn (G.seen gr.old) (G.seen gr.new)) }
    ensures p2p_borne { OnOk result (BearsOn (P.seen p2p.old) (P.seen p2p.new)) }
    ensures tp_borne { OnOk result (IsBorneIfThere T.seen tp.old tp.new) }
    ensures fault { IfErr result (IsFirstFault FileWord.P2p pair_format DenotesPairs
        (reading G.seen gr.old gr.new) (reading P.seen p2p.old p2p.new)
        (tables T.seen tp.old tp.new)) }
{
    let graph = read_graph_by(alloc, rt, gr)?;
    let pairs = read_pairs_by(alloc, rt, p2p, graph.nodes)?;
    let road = read_road_by(alloc, rt, graph, tp, direction)?;
    Ok(PairFiles { road, pairs })
}
