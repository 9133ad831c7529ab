//! The arguments of the commands, with their help.
ghost use Rattle.std.specs.Prelude.{◌≡◌, codes, false};
ghost use Rattle.clap.specs.Words.{App, Rule, rule_of, with_rule};
ghost use Rattle.ea_options.specs.Building.{Builds};
ghost use Rattle.ea_options.specs.Grammar.{output, with_departures, with_output, with_report, with_telling, with_times, with_workers};

use clap::{Arg, ArgAction, Command};
use std::alloc::{AllocError, Global};

/// An option with a value.
fn valued<'a>(alloc: Global, name: &'a str, value: &'a str, help: &'a str) -> Arg<'a>
    ensures rule { rule_of result ≡ Rattle.ea_options.specs.Grammar.valued name.entry.now }
    ensures local { result.global ≡ false }
{
    Arg::new(alloc, name)
        .long(name)
        .action(ArgAction::Set)
        .value_name(value)
        .help(help)
}

/// A flag.
fn flag<'a>(alloc: Global, name: &'a str, help: &'a str) -> Arg<'a>
    ensures rule { rule_of result ≡ Rattle.ea_options.specs.Grammar.flag name.entry.now }
    ensures local { result.global ≡ false }
{
    Arg::new(alloc, name)
        .long(name)
        .action(ArgAction::SetTrue)
        .help(help)
}

/// The name of a file.
fn file<'a>(alloc: Global, name: &'a str, value: &'a str, help: &'a str) -> Arg<'a>
    ensures rule { rule_of result ≡ Rattle.ea_options.specs.Grammar.file name.entry.now }
    ensures local { result.global ≡ false }
{
    Arg::new(alloc, name)
        .action(ArgAction::Set)
        .required(true)
        .value_name(value)
        .help(help)
}

/// An optional word.
pub(crate) fn optional<'a>(alloc: Global, name: &'a str, value: &'a str, help: &'a str) -> Arg<'a>
    ensures rule { rule_of result ≡ Rattle.ea_options.specs.Grammar.optional name.entry.now }
    ensures local { result.global ≡ false }
{
    Arg::new(alloc, name)
        .action(ArgAction::Set)
        .value_name(value)
        .help(help)
}

/// The option that names the file of a report.
fn output_file<'a>(alloc: Global) -> Arg<'a>
    ensures rule { rule_of result ≡ output }
    ensures local { result.global ≡ false }
{
    valued(
        alloc,
        "output",
        "FILE",
        "Writes into FILE, which is put in its place when it is whole [default: standard output]",
    )
    .short('o')
}

/// Adds an argument to a command, unless memory was refused before.
///
/// If memory was refused, the argument is dropped in a helper: inline drops slow the proof.
pub(crate) fn with_arg<'a>(
    command: Result<Command<'a>, AllocError>,
    arg: Arg<'a>,
) -> Result<Command<'a>, AllocError>
    ensures { (app : App) (rule : Rule) → Builds app command.entry → rule_of arg.entry ≡ rule
        → arg.entry.global ≡ false → Builds (with_rule app rule) result }
{
    match command {
        Ok(command) => command.arg(arg),
        Err(error) => {
            drop(arg);
            Err(error)
        }
    }
}

/// Adds an option with a value to a command.
fn with_valued<'a>(
    alloc: Global,
    command: Result<Command<'a>, AllocError>,
    name: &'a str,
    value: &'a str,
    help: &'a str,
) -> Result<Command<'a>, AllocError>
    ensures { (app : App) → Builds app command.entry
        → Builds (with_rule app (Rattle.ea_options.specs.Grammar.valued name.entry.now)) result }
{
    with_arg(command, valued(alloc, name, value, help))
}

/// Adds a flag to a command.
pub(crate) fn with_flag<'a>(
    alloc: Global,
    command: Result<Command<'a>, AllocError>,
    name: &'a str,
    help: &'a str,
) -> Result<Command<'a>, AllocError>
    ensures { (app : App) → Builds app command.entry
        → Builds (with_rule app (Rattle.ea_options.specs.Grammar.flag name.entry.now)) result }
{
    with_arg(command, flag(alloc, name, help))
}

/// Adds the name of a file to a command.
pub(crate) fn with_file<'a>(
    alloc: Global,
    command: Result<Command<'a>, AllocError>,
    name: &'a str,
    value: &'a str,
    help: &'a str,
) -> Result<Command<'a>, AllocError>
    ensures { (app : App) → Builds app command.entry
        → Builds (with_rule app (Rattle.ea_options.specs.Grammar.file name.entry.now)) result }
{
    with_arg(command, file(alloc, name, value, help))
}

/// Adds the options for departures and timetables.
fn with_departures<'a>(
    alloc: Global,
    command: Result<Command<'a>, AllocError>,
) -> Result<Command<'a>, AllocError>
    ensures { (app : App) → Builds app command.entry → Builds (with_departures app) result }
{
    let command = with_valued(
        alloc,
        command,
        "tp",
        "FILE",
        "Timetables of the arcs (.tp), or - for standard input; without it each arc takes its weight",
    );
    let command = with_valued(
        alloc,
        command,
        "depart",
        "T",
        "Departure of the first source or pair, in units of the weights: 0 to 281474976710655 [default: 0]",
    );
    with_valued(
        alloc,
        command,
        "gap",
        "G",
        "How much later each next source or pair departs: 0 to 281474976710655 [default: 0]",
    )
}

/// Adds the other options that say when: own departures, and times by which targets have to be reached.
fn with_times<'a>(
    alloc: Global,
    command: Result<Command<'a>, AllocError>,
) -> Result<Command<'a>, AllocError>
    ensures { (app : App) → Builds app command.entry → Builds (with_times app) result }
{
    let command = with_valued(
        alloc,
        command,
        "departs",
        "FILE",
        "Departures of the sources or pairs, one each, in place of --depart and --gap",
    );
    let command = with_valued(
        alloc,
        command,
        "arrive",
        "T",
        "Turns the question round: the latest departures by which the first target is reached at T, 0 to 281474976710655; with --gap each next target has as much more time",
    );
    with_valued(
        alloc,
        command,
        "arrives",
        "FILE",
        "The same with a time for each target or pair, in place of --arrive and --gap",
    )
}

/// Adds the options that say when, and the timetables.
pub(crate) fn with_all_times<'a>(
    alloc: Global,
    command: Result<Command<'a>, AllocError>,
) -> Result<Command<'a>, AllocError>
    ensures { (app : App) → Builds app command.entry
        → Builds (with_times (with_departures app)) result }
{
    with_times(alloc, with_departures(alloc, command))
}

/// Adds the option for the nodes that are reported.
pub(crate) fn with_nodes<'a>(
    alloc: Global,
    command: Result<Command<'a>, AllocError>,
) -> Result<Command<'a>, AllocError>
    ensures { (app : App) → Builds app command.entry
        → Builds (with_rule app (Rattle.ea_options.specs.Grammar.valued (codes "nodes"))) result }
{
    with_valued(
        alloc,
        command,
        "nodes",
        "FILE",
        "Writes these nodes alone, in their order: a file as that of the sources [default: all nodes]",
    )
}

/// Adds the options for workers. They change how long `run` and `pairs` take, never their reports.
pub(crate) fn with_workers<'a>(
    alloc: Global,
    command: Result<Command<'a>, AllocError>,
) -> Result<Command<'a>, AllocError>
    ensures { (app : App) → Builds app command.entry → Builds (with_workers app) result }
{
    let command = with_valued(
        alloc,
        command,
        "workers",
        "P",
        "Threads that search one problem together: 1 to 16 [default: 1 with --at-once above 1, else 4 with --stats and for rank, else what is quickest]",
    );
    let command = with_valued(
        alloc,
        command,
        "heaps",
        "C",
        "Heaps of the shared queue for each worker: 2 to 8 [default: 2]",
    );
    with_valued(
        alloc,
        command,
        "seed",
        "X",
        "Seed of the random choices among heaps: 0 to 18446744073709551615 [default: 1]",
    )
}

/// Adds the options for departures and workers.
pub(crate) fn with_search<'a>(
    alloc: Global,
    command: Result<Command<'a>, AllocError>,
) -> Result<Command<'a>, AllocError>
    ensures { (app : App) → Builds app command.entry
        → Builds (with_workers (with_departures app)) result }
{
    with_workers(alloc, with_departures(alloc, command))
}

/// Adds the options for the problems searched at once, the batches and turns of workers, and the contents of
/// a report.
pub(crate) fn with_report<'a>(
    alloc: Global,
    command: Result<Command<'a>, AllocError>,
) -> Result<Command<'a>, AllocError>
    ensures { (app : App) → Builds app command.entry → Builds (with_report app) result }
{
    let command = with_valued(
        alloc,
        command,
        "at-once",
        "N",
        "Problems that are searched at once, each by one thread: 1 to 16 [default: as many as there are processors; 1 with --workers or --stats]",
    );
    let command = with_valued(
        alloc,
        command,
        "batch",
        "K",
        "Entries that a worker takes from a heap, or gives to one, at once: 1 to 64 [default: 1 with one worker, else 32]",
    );
    let command = with_valued(
        alloc,
        command,
        "turns",
        "B",
        "Turns that a worker takes before one thread finishes: 0 to 1000000000 [default: 1000000]",
    );
    let command = with_flag(
        alloc,
        command,
        "walks",
        "Writes the walk to each asked node that is reached",
    );
    with_flag(
        alloc,
        command,
        "stats",
        "Writes totals of what the workers did, as lines that begin with c",
    )
}

/// Adds the option that says whether the road is prepared.
pub(crate) fn with_prepare<'a>(
    alloc: Global,
    command: Result<Command<'a>, AllocError>,
) -> Result<Command<'a>, AllocError>
    ensures { (app : App) → Builds app command.entry
        → Builds (with_rule app (Rattle.ea_options.specs.Grammar.valued (codes "prepare"))) result }
{
    with_valued(
        alloc,
        command,
        "prepare",
        "W",
        "Prepares the road before the pairs are searched, or doesn't: yes or no [default: what is quickest]",
    )
}

/// Adds the option for a report's file.
fn with_output<'a>(
    alloc: Global,
    command: Result<Command<'a>, AllocError>,
) -> Result<Command<'a>, AllocError>
    ensures { (app : App) → Builds app command.entry → Builds (with_output app) result }
{
    with_arg(command, output_file(alloc))
}

/// Adds the options for standard error.
pub(crate) fn with_telling<'a>(
    alloc: Global,
    command: Result<Command<'a>, AllocError>,
) -> Result<Command<'a>, AllocError>
    ensures { (app : App) → Builds app command.entry → Builds (with_telling app) result }
{
    let command = with_flag(
        alloc,
        command,
        "progress",
        "Tells on standard error how many problems are done, at most once a second",
    );
    with_flag(
        alloc,
        command,
        "explain",
        "Says after a fault what it means and what to do, as on a terminal",
    )
}

/// Adds the options for a report's file and for standard error.
pub(crate) fn with_output_and_telling<'a>(
    alloc: Global,
    command: Result<Command<'a>, AllocError>,
) -> Result<Command<'a>, AllocError>
    ensures { (app : App) → Builds app command.entry → Builds (with_telling (with_output app)) result }
{
    with_telling(alloc, with_output(alloc, command))
}
