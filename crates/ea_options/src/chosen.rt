//! The options in words, part by part.
ghost use Rattle.std.specs.Prelude.{◌≡◌, ◌≤◌, IfSome};
ghost use Rattle.clap.specs.Words.{first_of, found_of, rows_of};
ghost use Rattle.ea_options.specs.Chosen.{AreCounts, AreDepartures, IsQueue, counts_of, departures_of, flags_of, queue_of};
ghost use Rattle.ea_options.specs.Limits.{AreOptions};
ghost use Rattle.ea_options.specs.Meaning.{direction_of, options_of};
ghost use Rattle.ea_options.specs.Values;

use crate::defaults::{DEFAULT_DEPARTURE, DEFAULT_GAP, DEFAULT_HEAPS, DEFAULT_SEED, DEFAULT_TURNS};
use crate::options::RunOptions;
use crate::values::{chosen_number, chosen_yes_or_no, has_flag, option_number, text_of};
use clap::ArgMatches;
use ea_base::{
    Direction, HORIZON, LEAST_HEAPS, MOST_AT_ONCE, MOST_BATCH, MOST_HEAPS, MOST_TURNS, MOST_WORKERS,
};

/// The numbers of workers, of problems at once and of entries in a batch; None leaves the choice to the
/// program.
#[derive(Clone, Copy)]
struct Counts {
    workers: Option<u64>,
    at_once: Option<u64>,
    batch: Option<u64>,
}

#[tactic(auto, unfolding(crate::specs::Chosen::counts_of))]
fn counts_in(matches: &ArgMatches<'_>) -> Option<Counts>
    ensures counts { result ≡ counts_of (rows_of (found_of matches.now)) }
    ensures limits { IfSome result AreCounts }
{
    let workers = chosen_number(matches, "workers", 1, u64::from(MOST_WORKERS))?;
    let at_once = chosen_number(matches, "at-once", 1, u64::from(MOST_AT_ONCE))?;
    let batch = chosen_number(matches, "batch", 1, u64::from(MOST_BATCH))?;
    Some(Counts {
        workers,
        at_once,
        batch,
    })
}

/// The size of the shared queue, the budget of turns, and the seed of its random words.
#[derive(Clone, Copy)]
struct Queue {
    heaps: u64,
    turns: u64,
    seed: u64,
}

#[tactic(auto, unfolding(crate::specs::Chosen::queue_of))]
fn queue_in(matches: &ArgMatches<'_>) -> Option<Queue>
    ensures queue { result ≡ queue_of (rows_of (found_of matches.now)) }
    ensures limits { IfSome result IsQueue }
{
    let most_heaps = u64::from(MOST_HEAPS);
    let heaps = option_number(
        matches,
        "heaps",
        DEFAULT_HEAPS,
        u64::from(LEAST_HEAPS),
        most_heaps,
    )?;
    let turns = option_number(matches, "turns", DEFAULT_TURNS, 0, MOST_TURNS)?;
    let seed = option_number(matches, "seed", DEFAULT_SEED, 0, u64::MAX)?;
    Some(Queue { heaps, turns, seed })
}

/// When sources depart, or when targets have to be reached.
#[derive(Clone, Copy)]
struct Departures {
    depart: u64,
    gap: u64,
    direction: Direction,
}

/// 1 if an option is given, else 0.
fn given(matches: &ArgMatches<'_>, name: &str) -> u8
    ensures given { result ≡ Values.given
        (first_of name.now (rows_of (found_of matches.now))) }
    ensures bound { result ≤ 1 }
{
    match text_of(matches, name) {
        None => 0,
        Some(_) => 1,
    }
}

/// The direction, if the options that say when don't exclude each other.
fn direction_in(matches: &ArgMatches<'_>) -> Option<Direction>
    ensures { result ≡ direction_of (rows_of (found_of matches.now)) }
{
    let depart = given(matches, "depart");
    let departs = given(matches, "departs");
    let arrive = given(matches, "arrive");
    let arrives = given(matches, "arrives");
    let gap = given(matches, "gap");
    if depart + departs + arrive + arrives > 1 || departs + arrives + gap > 1 {
        None
    } else if arrive + arrives >= 1 {
        Some(Direction::Turned)
    } else {
        Some(Direction::Forward)
    }
}

#[tactic(auto, unfolding(crate::specs::Chosen::departures_of))]
fn departures_in(matches: &ArgMatches<'_>) -> Option<Departures>
    ensures departures { result ≡ departures_of (rows_of (found_of matches.now)) }
    ensures limits { IfSome result AreDepartures }
{
    let depart = option_number(matches, "depart", DEFAULT_DEPARTURE, 0, HORIZON)?;
    let arrive = chosen_number(matches, "arrive", 0, HORIZON)?;
    let gap = option_number(matches, "gap", DEFAULT_GAP, 0, HORIZON)?;
    let direction = direction_in(matches)?;
    Some(Departures {
        depart: arrive.unwrap_or(depart),
        gap,
        direction,
    })
}

/// Which flags are set.
#[derive(Clone, Copy)]
struct Flags {
    joint: bool,
    walks: bool,
    stats: bool,
    progress: bool,
}

fn flags_in(matches: &ArgMatches<'_>) -> Flags
    ensures { result ≡ flags_of (rows_of (found_of matches.now)) }
{
    Flags {
        joint: has_flag(matches, "joint"),
        walks: has_flag(matches, "walks"),
        stats: has_flag(matches, "stats"),
        progress: has_flag(matches, "progress"),
    }
}

/// The options of a command, if each takes its value and none excludes another.
pub(crate) fn options_in(matches: &ArgMatches<'_>) -> Option<RunOptions>
    ensures options { result ≡ options_of (rows_of (found_of matches.now)) }
    ensures limits { IfSome result AreOptions }
{
    let counts = counts_in(matches)?;
    let queue = queue_in(matches)?;
    let departures = departures_in(matches)?;
    let prepare = chosen_yes_or_no(matches, "prepare")?;
    let flags = flags_in(matches);
    Some(RunOptions {
        joint: flags.joint,
        walks: flags.walks,
        stats: flags.stats,
        progress: flags.progress,
        workers: counts.workers,
        at_once: counts.at_once,
        batch: counts.batch,
        prepare,
        heaps: queue.heaps,
        turns: queue.turns,
        seed: queue.seed,
        depart: departures.depart,
        gap: departures.gap,
        direction: departures.direction,
    })
}
