ghost use Rattle.std.specs.Prelude.{◌≡◌, ◌+◌, ◌<◌, ◌≤◌, ◌^◌};
ghost use Rattle.ea_base.specs.declared.limits.TheConstants.{LEAST_HEAPS};
ghost use Rattle.ea_pool.specs.declared.shared.words.TheConstants.{MOST_IN_POOL};

use crate::asserts::{assert_none_wrong, assert_that};
use crate::turning::Turning;
use ea_pool::{Entry, Solo};
use ea_rank::{Event, RankFault, Record, Summary, ranks, record_run, record_run_by};
use ea_road::{Network, Query, Source, is_problem};
use rand_core::{Rng, SeedableRng};
use rand_xoshiro::Xoshiro256PlusPlus;
use std::alloc::{AllocError, Global};
use std::test::Fail;
use test_support::networks::{FOUR_NODES, Given, Row, network_of, pose};

/// The source of a run's words.
#[derive(Clone, Copy)]
enum Words {
    /// 0, 1 and 2 in turn.
    InTurn,
    /// The generator of this seed.
    Seeded(u64),
}

/// The record of a run; none if there is no problem that asks all nodes.
fn recorded_of(
    alloc: Global,
    given: &Given,
    heaps: usize,
    words: Words,
) -> Result<Option<Record>, AllocError>
    requires { (LEAST_HEAPS ≤ heaps) × (heaps ≤ MOST_IN_POOL) }
{
    let (network, times, query) = (&given.network, &given.times, &given.query);
    if query.target().is_some() || !is_problem(network, times.classes(), query) {
        return Ok(None);
    }
    let record = match words {
        Words::InTurn => record_run(alloc, network, times, query, heaps, Turning(0))?,
        Words::Seeded(seed) => {
            let rng = Xoshiro256PlusPlus::seed_from_u64(seed);
            record_run(alloc, network, times, query, heaps, rng)?
        }
    };
    Ok(Some(record))
}

/// The record of a run from these sources; none if the rows or the sources do not fit.
fn recorded(
    alloc: Global,
    nodes: u32,
    rows: &[Row],
    sources: &[(u32, u64)],
    heaps: usize,
    words: Words,
) -> Result<Option<Record>, AllocError>
    requires { (LEAST_HEAPS ≤ heaps) × (heaps ≤ MOST_IN_POOL) }
{
    match pose(alloc, nodes, rows, sources)? {
        Some(given) => recorded_of(alloc, &given, heaps, words),
        None => Ok(None),
    }
}

/// The record of a run from node 1 at 0 with three heaps, by a closure that adds the weight to the departure.
fn recorded_by(alloc: Global, network: &Network) -> Result<Option<Record>, AllocError> {
    let source = Source {
        node: 1,
        departure: 0,
    };
    let query = Query::new(vec![in alloc; source]?);
    if !is_problem(network, 0, &query) {
        return Ok(None);
    }
    let record = record_run_by(
        alloc,
        network,
        |_class: u32, weight: u64, departure: u64| -> u64
            requires { departure + weight < 2 ^ 64 }
            ensures { result ≡ departure + weight }
        { departure + weight },
        0,
        &query,
        3,
        Turning(0),
    )?;
    Ok(Some(record))
}

/// The entry that the first of three heaps gives after entries of node 1 by a word and a key; none if one of
/// them was refused.
fn popped_of(alloc: Global, entries: &[(u64, u64)]) -> Result<Option<Entry>, Fail> {
    let mut solo = Solo::new(alloc, 3)?;
    for (word, key) in entries {
        let entry = Entry { key: *key, node: 1 };
        if solo.push_at(*word, entry).is_err() {
            return Ok(None);
        }
    }
    Ok(solo.pop_at(0, 0))
}

/// Whether a record has these rank errors, or this fault.
fn has_ranks(alloc: Global, record: &Record, wanted: Result<&[u64], RankFault>) -> bool {
    match (ranks(alloc, record), wanted) {
        (Ok(found), Ok(wanted)) => found.as_slice() == wanted,
        (Err(fault), Err(wanted)) => fault == wanted,
        _ => false,
    }
}

/// Events, and their rank errors or their fault.
type Case = (&'static [Event], Result<&'static [u64], RankFault>);

/// The first of the cases whose events have other rank errors or another fault.
fn wrong_ranks(alloc: Global, cases: &[Case]) -> Result<Option<usize>, AllocError> {
    for (place, (events, wanted)) in cases.iter().enumerate() {
        let record = Record {
            events: events.to_vec(alloc)?,
        };
        if !has_ranks(alloc, &record, *wanted) {
            return Ok(Some(place));
        }
    }
    Ok(None)
}

const THREE_KEYS: [Case; 2] = [
    (
        &[
            Event::Push(5),
            Event::Push(9),
            Event::Push(1),
            Event::Pop(5),
            Event::Pop(1),
            Event::Pop(9),
        ],
        Ok(&[1, 0, 0]),
    ),
    (
        &[Event::Push(5), Event::Pop(7)],
        Err(RankFault::NotThere(1)),
    ),
];

#[test]
fn solo_and_ranks(rt: HostRuntime) -> Result<(), Fail> {
    let popped = popped_of(rt.alloc(), &[(0, 5), (1, 9), (2, 1)])?;
    assert_that(
        &rt,
        "what is popped",
        popped == Some(Entry { key: 5, node: 1 }),
    );
    assert_none_wrong(&rt, wrong_ranks(rt.alloc(), &THREE_KEYS)?);
    Ok(())
}

/// A key that is pushed twice, and popped once more than that or as often.
const EQUAL_KEYS: [Case; 2] = [
    (
        &[
            Event::Push(4),
            Event::Push(4),
            Event::Push(3),
            Event::Pop(4),
            Event::Pop(3),
            Event::Pop(4),
            Event::Pop(4),
        ],
        Err(RankFault::NotThere(6)),
    ),
    (
        &[
            Event::Push(4),
            Event::Push(4),
            Event::Push(3),
            Event::Pop(4),
            Event::Pop(3),
            Event::Pop(4),
        ],
        Ok(&[1, 0, 0]),
    ),
];

#[test]
fn equal_keys_are_not_smaller(rt: HostRuntime) -> Result<(), Fail> {
    assert_none_wrong(&rt, wrong_ranks(rt.alloc(), &EQUAL_KEYS)?);
    Ok(())
}

/// The record of a run on the example four-nodes from node 1, with three heaps and three words in turn.
fn recorded_by_turns(alloc: Global) -> Result<Option<Record>, AllocError> {
    recorded(alloc, 4, &FOUR_NODES, &[(1, 0)], 3, Words::InTurn)
}

const RECORDED: [Event; 12] = [
    Event::Push(0),
    Event::Pop(0),
    Event::Push(7),
    Event::Push(2),
    Event::Pop(7),
    Event::Push(8),
    Event::Pop(2),
    Event::Push(5),
    Event::Pop(5),
    Event::Push(6),
    Event::Pop(6),
    Event::Pop(8),
];

/// Whether a run was recorded, with these events and the rank errors of these.
fn is_recorded(alloc: Global, record: &Option<Record>) -> bool {
    match record {
        Some(record) => {
            record.events.as_slice() == RECORDED.as_slice()
                && has_ranks(alloc, record, Ok(&[0, 1, 0, 0, 0, 0]))
        }
        None => false,
    }
}

#[test]
fn recorded_run(rt: HostRuntime) -> Result<(), Fail> {
    let record = recorded_by_turns(rt.alloc())?;
    assert_that(
        &rt,
        "the events and their ranks",
        is_recorded(rt.alloc(), &record),
    );
    Ok(())
}

/// The record by a closure on the example four-nodes.
fn recorded_by_closure(alloc: Global) -> Result<Option<Record>, AllocError> {
    match network_of(alloc, 4, &FOUR_NODES)? {
        Some(network) => recorded_by(alloc, &network),
        None => Ok(None),
    }
}

/// The record by a closure has the events of the run by travel times.
#[test]
fn a_closure_brings_travel_times(rt: HostRuntime) -> Result<(), Fail> {
    let record = recorded_by_closure(rt.alloc())?;
    assert_that(
        &rt,
        "the events and their ranks",
        is_recorded(rt.alloc(), &record),
    );
    Ok(())
}

/// The number of events of a record, and the summary of its rank errors; none if there is a fault.
fn summed(alloc: Global, record: &Record) -> (usize, Option<Summary>) {
    match ranks(alloc, record) {
        Ok(found) => (record.events.len(), Some(Summary::of(&found))),
        Err(_) => (record.events.len(), None),
    }
}

/// The same of a run on these rows.
fn summary_of(
    alloc: Global,
    nodes: u32,
    rows: &[Row],
    sources: &[(u32, u64)],
    heaps: usize,
    words: Words,
) -> Result<(usize, Option<Summary>), Fail>
    requires { (LEAST_HEAPS ≤ heaps) × (heaps ≤ MOST_IN_POOL) }
{
    match recorded(alloc, nodes, rows, sources, heaps, words)? {
        Some(record) => Ok(summed(alloc, &record)),
        None => Err(Fail::from("no run")),
    }
}

const SIX_POPS: Summary = Summary {
    pops: 6,
    greatest: 0,
    sum: 0,
};

#[test]
fn rank_command(rt: HostRuntime) -> Result<(), Fail> {
    let words = Words::Seeded(1);
    let (_, summary) = summary_of(rt.alloc(), 4, &FOUR_NODES, &[(1, 0)], 2, words)?;
    assert_that(&rt, "six pops without errors", summary == Some(SIX_POPS));
    Ok(())
}

const NO_POPS: Summary = Summary {
    pops: 0,
    greatest: 0,
    sum: 0,
};

#[test]
fn no_sources(rt: HostRuntime) -> Result<(), Fail> {
    let words = Words::InTurn;
    let (events, summary) = summary_of(rt.alloc(), 4, &FOUR_NODES, &[], 128, words)?;
    assert_that(&rt, "no events", events == 0 && summary == Some(NO_POPS));
    Ok(())
}

const GREATEST: Summary = Summary {
    pops: 4,
    greatest: u64::MAX,
    sum: 36_893_488_147_419_103_234,
};

#[test]
fn a_summary(rt: HostRuntime) {
    let found = Summary::of(&[3, u64::MAX, 1, u64::MAX]);
    assert_that(&rt, "the greatest errors", found == GREATEST);
}

const KEYS: usize = 200;

const NEVER_PUSHED: u64 = 5;

/// How many of the keys are below the key.
fn below(counts: &[u64], key: usize) -> u64 {
    let mut sum = 0u64;
    for count in counts.iter().take(key) {
        sum = sum.wrapping_add(*count);
    }
    sum
}

/// Adds a random event to a record, and its rank error by counting.
fn add_event(
    record: &mut Record,
    expected: &mut Vec<u64>,
    counts: &mut [u64; KEYS],
    rng: &mut Xoshiro256PlusPlus,
) -> Result<(), AllocError> {
    let place = (rng.next_u64() % KEYS as u64) as usize;
    // Keys far apart, the last of them the greatest possible.
    let key = u64::MAX - (KEYS - 1 - place) as u64 * 1_000_003;
    let pops = counts[place] > 0 && rng.next_u64() % 2 == 0;
    if pops {
        expected.push(below(counts.as_slice(), place))?;
        counts[place] = counts[place].wrapping_sub(1);
    } else {
        counts[place] = counts[place].wrapping_add(1);
    }
    let event = if pops {
        Event::Pop(key)
    } else {
        Event::Push(key)
    };
    record.events.push(event)?;
    Ok(())
}

/// Adds this many of them from a seed.
fn add_events(
    record: &mut Record,
    expected: &mut Vec<u64>,
    events: usize,
    seed: u64,
) -> Result<(), AllocError> {
    let mut rng = Xoshiro256PlusPlus::seed_from_u64(seed);
    let mut counts = [0u64; KEYS];
    for _ in 0..events {
        add_event(record, expected, &mut counts, &mut rng)?;
    }
    Ok(())
}

/// The fault of a record with two more pops of a key that was never pushed.
fn fault_behind(alloc: Global, record: &mut Record) -> Result<Option<RankFault>, AllocError> {
    record.events.push(Event::Pop(NEVER_PUSHED))?;
    record.events.push(Event::Pop(NEVER_PUSHED))?;
    Ok(ranks(alloc, record).err())
}

/// A random record: the number of pops, whether their rank errors are those by counting, and the fault of two
/// more pops of a key that was never pushed.
fn random_record(alloc: Global) -> Result<(usize, bool, Option<RankFault>), AllocError> {
    let mut record = Record {
        events: Vec::new(alloc),
    };
    let mut expected = Vec::new(alloc);
    add_events(&mut record, &mut expected, 100_000, 7)?;
    let is_right = has_ranks(alloc, &record, Ok(&expected));
    Ok((expected.len(), is_right, fault_behind(alloc, &mut record)?))
}

#[test]
fn a_random_record(rt: HostRuntime) -> Result<(), Fail> {
    let (pops, is_right, fault) = random_record(rt.alloc())?;
    assert_that(&rt, "many pops", pops > 40_000);
    assert_that(&rt, "the errors of the plain count", is_right);
    assert_that(
        &rt,
        "the fault",
        fault == Some(RankFault::NotThere(100_000)),
    );
    Ok(())
}

/// Random rows between 30 nodes.
fn random_rows(alloc: Global, seed: u64) -> Result<Vec<Row>, AllocError> {
    let mut rng = Xoshiro256PlusPlus::seed_from_u64(seed);
    let mut rows = Vec::new(alloc);
    for _ in 0..90u32 {
        let tail = (rng.next_u64() % 30) as u32 + 1;
        let head = (rng.next_u64() % 30) as u32 + 1;
        rows.push((tail, head, (rng.next_u64() % 20) as u32, 0))?;
    }
    Ok(rows)
}

/// Whether each second event of a run is a pop, and with two heaps none has a rank error.
fn is_right(alloc: Global, rows: &[Row], heaps: usize, seed: u64) -> Result<bool, Fail>
    requires { (LEAST_HEAPS ≤ heaps) × (heaps ≤ MOST_IN_POOL) }
{
    let words = Words::Seeded(seed);
    match summary_of(alloc, 30, rows, &[(1, 3), (2, 0)], heaps, words)? {
        (events, Some(summary)) => Ok(
            summary.pops > 0
                && summary.pops == events as u64 / 2
                && (heaps > 2 || summary.sum == 0),
        ),
        _ => Ok(false),
    }
}

/// Whether runs on a random network are right, with few and many heaps.
fn are_right(alloc: Global, seed: u64) -> Result<bool, Fail> {
    let rows = random_rows(alloc, seed)?;
    for heaps in [2, 3, 8, 128] {
        if !is_right(alloc, &rows, heaps, seed)? {
            return Ok(false);
        }
    }
    Ok(true)
}

/// The first seed whose runs are not right.
fn wrong_seed(alloc: Global) -> Result<Option<usize>, Fail> {
    for seed in 0..20usize {
        if !are_right(alloc, seed as u64)? {
            return Ok(Some(seed));
        }
    }
    Ok(None)
}

#[test]
fn random_runs(rt: HostRuntime) -> Result<(), Fail> {
    assert_none_wrong(&rt, wrong_seed(rt.alloc())?);
    Ok(())
}

/// Whether a record has twelve events, and its rank errors are right or were refused memory.
fn are_twelve(alloc: Global, record: &Record) -> bool {
    let told = match ranks(alloc, record) {
        Ok(found) => found.as_slice() == [0, 1, 0, 0, 0, 0].as_slice(),
        Err(fault) => fault == RankFault::OutOfMemory,
    };
    told && record.events.len() == 12
}

/// The same for the run by turns; true if the run was refused memory.
fn fares(alloc: Global) -> bool {
    match recorded_by_turns(alloc) {
        Ok(Some(record)) => are_twelve(alloc, &record),
        Ok(None) => false,
        Err(_) => true,
    }
}

#[test]
fn memory_refused(rt: HostRuntime) {
    assert_that(&rt, "right, or refused memory", fares(rt.alloc()));
}

/// Whether a fault has this text.
fn is_told(alloc: Global, fault: RankFault, text: &str) -> Result<bool, AllocError> {
    Ok(format!(in alloc; "{fault}")?.as_str() == text)
}

/// Faults and their texts.
const TOLD: [(RankFault, &str); 2] = [
    (
        RankFault::NotThere(3),
        "event 3 pops a key that is not in the queue",
    ),
    (
        RankFault::OutOfMemory,
        "there is not enough memory (13 OutOfMemory)",
    ),
];

/// The first of the faults with another text.
fn wrong_told(alloc: Global) -> Result<Option<usize>, AllocError> {
    for (place, (fault, text)) in TOLD.iter().enumerate() {
        if !is_told(alloc, *fault, text)? {
            return Ok(Some(place));
        }
    }
    Ok(None)
}

#[test]
fn messages(rt: HostRuntime) -> Result<(), Fail> {
    assert_none_wrong(&rt, wrong_told(rt.alloc())?);
    Ok(())
}
