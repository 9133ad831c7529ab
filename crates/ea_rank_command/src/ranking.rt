//! The rank errors of recorded runs.
ghost use Rattle.std.specs.Prelude.{◌≡◌, ◌+◌, ◌*◌, ◌^◌, ◌≤◌, ◌++◌, [], All, IfOk, IfErr, OnOk, None, length};
ghost use Rattle.ea_load.specs.Files.{reading};
ghost use Rattle.ea_base.specs.declared.limits.TheConstants.{MOST_STARTS};
ghost use Rattle.ea_road.specs.Queries.{IsProblem};
ghost use Rattle.ea_rank.specs.Summaries.{summary_of};
ghost use Rattle.ea_report.specs.Report.{source_line};
ghost use Rattle.ea_report.specs.Deliverers.{direct_delivery};
ghost use Rattle.ea_report.specs.Writers.{AddsOrGivesUp};
ghost use Rattle.ea_options.specs.Limits.{AreOptions};
ghost use Rattle.ea_load.specs.Asked.{IsAnswered, IsFailed};
ghost use Rattle.ea_load.specs.Posed.{AreProblems, times_on};
ghost use Rattle.ea_rank_command.specs.Ranks.{AddsRanks, AreRanks, HasOneSource, IsRanking, IsRankingCut, StopsRanks, heaps_of, rank_asks, rank_files, rank_line};

use ea_base::{Direction, Silent, Watch};
use ea_bytes::{ByteIn, ByteOut};
use ea_load::{AnswerFault, Road, Schedule, departures_fit, read_run, run_queries};
use ea_options::RunOptions;
use ea_rank::{Summary, ranks, record_run};
use ea_report::{Direct, WriteFault};
use ea_road::{Query, Source};
use itoa::Buffer;
use rand_core::SeedableRng;
use rand_xoshiro::Xoshiro256PlusPlus;
use std::alloc::{AllocError, Global};

/// The number of heaps of a recorded run: those of all workers.
fn heaps_of_run(options: &RunOptions) -> usize
    requires { AreOptions options.now }
    ensures heaps { result ≡ heaps_of options.now }
    ensures few { (2 ≤ result) × (result ≤ 128) }
{
    (options.counted_workers() * options.heaps) as usize
}

/// The rank errors of a recorded run.
fn ranks_of(
    alloc: Global,
    road: &Road,
    query: &Query,
    heaps: usize,
    seed: u64,
) -> Result<Vec<u64>, AllocError>
    requires problem { IsProblem road.now.network (length road.now.times.tables.list.items) query.now }
    requires all { query.now.target ≡ None }
    requires heaps { (2 ≤ heaps) × (heaps ≤ 128) }
    ensures { IfOk result (λ found.
        AreRanks heaps seed road.now.network (times_on road.now) query.now.sources found.items) }
{
    let rng = Xoshiro256PlusPlus::seed_from_u64(seed);
    let recorded = record_run(alloc, &road.network, &road.times, query, heaps, rng)?;
    match ranks(alloc, &recorded) {
        Ok(found) => Ok(found),
        // Each popped key was in the queue, so only memory can be refused.
        Err(_) => Err(AllocError),
    }
}

/// Sends the line of a source and the line of its rank errors.
fn put_ranks<W: ByteOut>(
    direct: &mut Direct,
    source: Source,
    summary: Summary,
    out: &mut W,
) -> Result<(), WriteFault>
    ensures { AddsOrGivesUp (W.seen out.old) (direct_delivery direct.old) (W.seen out.new)
        (direct_delivery direct.new) 11 (source_line source ++ rank_line summary) result }
{
    let mut node = Buffer::new();
    let mut departure = Buffer::new();
    let mut pops = Buffer::new();
    let mut greatest = Buffer::new();
    let mut sum = Buffer::new();
    let pieces = [
        b"s ".as_slice(),
        node.format(source.node).as_bytes(),
        b" ".as_slice(),
        departure.format(source.departure).as_bytes(),
        b"\nr ".as_slice(),
        pops.format(summary.pops).as_bytes(),
        b" ".as_slice(),
        greatest.format(summary.greatest).as_bytes(),
        b" ".as_slice(),
        sum.format(summary.sum).as_bytes(),
        b"\n".as_slice(),
    ];
    direct.put_pieces(pieces.as_slice(), out)
}

/// Records a run from a source, and sends its lines.
fn rank_one<W: ByteOut>(
    alloc: Global,
    road: &Road,
    query: &Query,
    heaps: usize,
    seed: u64,
    direct: &mut Direct,
    out: &mut W,
) -> Result<(), AnswerFault>
    requires problem { IsProblem road.now.network (length road.now.times.tables.list.items) query.now }
    requires one { HasOneSource query.now }
    requires heaps { (2 ≤ heaps) × (heaps ≤ 128) }
    ensures ok { OnOk result (AddsRanks heaps seed road.now.network (times_on road.now) query.now
        (W.seen out.old) (direct_delivery direct.old)
        (W.seen out.new) (direct_delivery direct.new)) }
    ensures err { IfErr result (StopsRanks heaps seed road.now.network (times_on road.now) query.now
        (W.seen out.old) (direct_delivery direct.old)
        (W.seen out.new)) }
{
    let Ok(found) = ranks_of(alloc, road, query, heaps, seed) else {
        return Err(AnswerFault::OutOfMemory {
            written: direct.written,
        });
    };
    let source = query.sources()[0];
    match put_ranks(direct, source, Summary::of(&found), out) {
        Ok(()) => Ok(()),
        Err(fault) => Err(AnswerFault::Write {
            written: fault.written,
        }),
    }
}

/// Records a run from each source, and sends the lines of all as one text. Calls the watch after each.
fn rank_each<W: ByteOut, V: Watch>(
    alloc: Global,
    road: &Road,
    queries: &[Query],
    heaps: usize,
    seed: u64,
    out: &mut W,
    watch: &mut V,
) -> Result<(), AnswerFault>
    requires problems { AreProblems road.now queries.now }
    requires one { All HasOneSource queries.now }
    requires few { length queries.now ≤ MOST_STARTS }
    requires heaps { (2 ≤ heaps) × (heaps ≤ 128) }
    ensures ok { OnOk result (IsRanking heaps seed road.now.network (times_on road.now) queries.now
        (W.seen out.old)
        (W.seen out.new)) }
    ensures err { IfErr result
        (IsRankingCut heaps seed road.now.network (times_on road.now) queries.now
        (W.seen out.old)
        (W.seen out.new)) }
{
    let mut direct = Direct {
        written: 0,
        interruptions: 0,
    };
    let mut done = 0;
    for query in queries {
        rank_one(alloc, road, query, heaps, seed, &mut direct, out)?;
        done += 1;
        watch.did(done, queries.len());
    }
    Ok(())
}

/// Writes how relaxed the queue is: for each source a line `s S D` and a line `r POPS MAX SUM`, with the
/// number of pops in a recorded run of one thread from that source, the greatest of their rank errors (0
/// without pops), and the sum of all. The run has `workers * heaps` heaps and the words of the generator
/// seeded with `seed`, anew for each source.
///
/// Source i, from 0, departs at `depart + i * gap`; `joint`, `walks`, `stats`, `turns` and `direction` have no effect.
/// Files are read as by `answer`, before anything is written. Up to 1,000 interruptions over the whole text
/// are retried.
///
/// Fails with `Read` or `Input` for the first fault of the files in their order, and with `BadOption` for a
/// departure above 2^48 - 1; then nothing was written. After `Write` and `OutOfMemory` the bytes written are
/// the first of the text.
pub fn rank_report<G: ByteIn, S: ByteIn, T: ByteIn, W: ByteOut>(
    alloc: Global,
    gr: &mut G,
    ss: &mut S,
    tp: &mut Option<T>,
    options: &RunOptions,
    out: &mut W,
) -> Result<(), AnswerFault>
    requires options { AreOptions options.now }
    ensures ranked { IfOk result (IsAnswered (rank_asks options.now)
        (rank_files (reading G.seen gr.old gr.new)
        (reading S.seen ss.old ss.new) T.seen tp.old tp.new)
        (W.seen out.old) (W.seen out.new)) }
    ensures unranked { IfErr result (IsFailed (rank_asks options.now)
        (rank_files (reading G.seen gr.old gr.new)
        (reading S.seen ss.old ss.new) T.seen tp.old tp.new)
        (W.seen out.old) (W.seen out.new)) }
{
    rank_watched(alloc, gr, ss, tp, options, out, &mut Silent)
}

/// Like `rank_report`; calls a watch after each source.
pub fn rank_watched<G: ByteIn, S: ByteIn, T: ByteIn, W: ByteOut, V: Watch>(
    alloc: Global,
    gr: &mut G,
    ss: &mut S,
    tp: &mut Option<T>,
    options: &RunOptions,
    out: &mut W,
    watch: &mut V,
) -> Result<(), AnswerFault>
    requires options { AreOptions options.now }
    ensures ranked { IfOk result (IsAnswered (rank_asks options.now)
        (rank_files (reading G.seen gr.old gr.new)
        (reading S.seen ss.old ss.new) T.seen tp.old tp.new)
        (W.seen out.old) (W.seen out.new)) }
    ensures unranked { IfErr result (IsFailed (rank_asks options.now)
        (rank_files (reading G.seen gr.old gr.new)
        (reading S.seen ss.old ss.new) T.seen tp.old tp.new)
        (W.seen out.old) (W.seen out.new)) }
{
    let heaps = heaps_of_run(options);
    let files = read_run(alloc, gr, ss, tp, Direction::Forward)?;
    let schedule = Schedule {
        depart: options.depart,
        gap: options.gap,
        times: None,
        direction: Direction::Forward,
    };
    if !departures_fit(files.sources.len(), schedule) {
        return Err(AnswerFault::BadOption);
    }
    // Each source is a separate problem, for any `joint`.
    let queries = run_queries(alloc, &files.sources, false, schedule)?;
    rank_each(
        alloc,
        &files.road,
        &queries,
        heaps,
        options.seed,
        out,
        watch,
    )
}
