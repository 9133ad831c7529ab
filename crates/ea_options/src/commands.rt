//! The commands, in clap's terms.
ghost use Rattle.std.specs.Prelude.{◌≡◌, false};
ghost use Rattle.clap.specs.Words.{App, app_of, new_app, with_subcommand};
ghost use Rattle.clap.specs.declared.builder.command.Command.TheViews.{out-Command as fields_of};
ghost use Rattle.ea_options.specs.Building.{Builds, IsBuilt};
ghost use Rattle.ea_options.specs.Grammar.{run_app, pairs_app, rank_app, check_app, explain_app, formats_app, bare_program, program};

use crate::arguments::{
    optional, with_all_times, with_arg, with_file, with_flag, with_nodes, with_output_and_telling,
    with_prepare, with_report, with_search, with_telling, with_workers,
};
use clap::Command;
use std::alloc::{AllocError, Global};

const ABOUT: &str =
    "Computes earliest arrivals in a road network whose travel times depend on the departure";

const MORE: &str =
    "Without any words the program answers a small network that is built in. Try then:\n  earliest run --help\n\nThe formats of the files are told by `earliest formats`, faults by `earliest explain`, and all of it,\nwhere the program is installed, by `man earliest`.";

const NETWORK: &str = "The network (.gr), or - for standard input";

const SOURCES: &str = "The sources (.ss), or - for standard input";

const PAIRS_FILE: &str = "The pairs of source and target (.p2p), or - for standard input";

const RUN: &str = "Writes the earliest arrival at every node from each source";

const RUN_MORE: &str =
    "Example:\n  earliest run roads.gr starts.ss --tp times.tp --depart 28800 --walks\n  zcat roads.gr.gz | earliest run - starts.ss -o report\n  earliest run roads.gr offices.ss --arrive 32400\n\nA problem is a line `s S D` (source, departure), then for each node V a line `d V A`\nwith its earliest arrival A, or `d V inf`. With --walks a line `w V k e1 .. ek` follows,\nthe arcs of a walk that attains it. With --arrive a problem is a line `t T A` (target, time),\nand each `d V D` has the latest departure D that is in time, or `none`.";

const PAIRS: &str = "Writes the earliest arrival at the target of each pair";

const PAIRS_MORE: &str =
    "Example:\n  earliest pairs roads.gr trips.p2p --depart 28800 --gap 60\n\nA pair is a line `q S T D` (source, target, departure), then a line `d T A` with its\nearliest arrival A, or `d T inf`. With --walks a line `w T k e1 .. ek` follows.\nWith --arrive a pair is a line `t S T A`, then `d S D` with its latest departure, or `none`.";

const RANK: &str = "Writes how relaxed the queue was: rank errors of one thread's runs";

const RANK_MORE: &str =
    "Example:\n  earliest rank roads.gr starts.ss --workers 4 --heaps 2\n\nOne thread makes each run, over as many heaps as P workers would share. For each source\na line `s S D` (source, departure), then a line `r POPS MAX SUM`: how many entries were\npopped, and the greatest and the sum of their rank errors. The rank error of a pop is the\nnumber of entries in the queue with a smaller key.";

const CHECK: &str = "Says whether a report of a run is right, or its first fault";

const CHECK_MORE: &str =
    "Example:\n  earliest run roads.gr starts.ss --walks > report\n  earliest check roads.gr starts.ss report\n\nGive --tp, --joint and the options of time with which the report was made. It prints `ok`\nwhere each arrival is the earliest, or each departure the latest, and each walk the\ncanonical one.";

/// Sets the name of a command in its texts.
fn named<'a>(command: Command<'a>, name: &str) -> Result<Command<'a>, AllocError>
    ensures { (app : App) → IsBuilt app command.entry → Builds app result }
{
    command.bin_name(name)
}

/// A command without arguments, with its texts and its name in them.
fn begun<'a>(
    alloc: Global,
    name: &'a str,
    about: &'a str,
    more: &'a str,
    called: &str,
) -> Result<Command<'a>, AllocError>
    ensures { Builds (new_app name.entry.now) result }
{
    let command = Command::new(alloc, name).about(about).after_help(more);
    named(command, called)
}

/// The command `run GR SS`.
pub(crate) fn run_command<'a>(alloc: Global) -> Result<Command<'a>, AllocError>
    ensures { Builds run_app result }
{
    let command = begun(alloc, "run", RUN, RUN_MORE, "earliest run");
    let command = with_file(alloc, command, "gr", "GR", NETWORK);
    let command = with_file(alloc, command, "ss", "SS", SOURCES);
    let command = with_all_times(alloc, command);
    let command = with_workers(alloc, command);
    let command = with_report(alloc, command);
    let command = with_nodes(alloc, command);
    let command = with_flag(alloc, command, "joint", "Takes all sources as one problem");
    with_output_and_telling(alloc, command)
}

/// The command `pairs GR P2P`.
pub(crate) fn pairs_command<'a>(alloc: Global) -> Result<Command<'a>, AllocError>
    ensures { Builds pairs_app result }
{
    let command = begun(alloc, "pairs", PAIRS, PAIRS_MORE, "earliest pairs");
    let command = with_file(alloc, command, "gr", "GR", NETWORK);
    let command = with_file(alloc, command, "p2p", "P2P", PAIRS_FILE);
    let command = with_all_times(alloc, command);
    let command = with_workers(alloc, command);
    let command = with_report(alloc, command);
    let command = with_prepare(alloc, command);
    with_output_and_telling(alloc, command)
}

/// The command `rank GR SS`.
pub(crate) fn rank_command<'a>(alloc: Global) -> Result<Command<'a>, AllocError>
    ensures { Builds rank_app result }
{
    let command = begun(alloc, "rank", RANK, RANK_MORE, "earliest rank");
    let command = with_file(alloc, command, "gr", "GR", NETWORK);
    let command = with_file(alloc, command, "ss", "SS", SOURCES);
    let command = with_search(alloc, command);
    with_output_and_telling(alloc, command)
}

/// The command `check GR SS REPORT`.
pub(crate) fn check_command<'a>(alloc: Global) -> Result<Command<'a>, AllocError>
    ensures { Builds check_app result }
{
    let command = begun(alloc, "check", CHECK, CHECK_MORE, "earliest check");
    let command = with_file(alloc, command, "gr", "GR", NETWORK);
    let command = with_file(alloc, command, "ss", "SS", SOURCES);
    let command = with_file(
        alloc,
        command,
        "report",
        "REPORT",
        "The report of a run on these files, or - for standard input",
    );
    let command = with_all_times(alloc, command);
    let command = with_flag(alloc, command, "joint", "Takes all sources as one problem");
    with_telling(alloc, command)
}

const EXPLAIN: &str = "Says what a fault means, its usual causes, and an example";

const EXPLAIN_MORE: &str =
    "Example:\n  earliest explain 6\n  earliest explain NotLeast\n\nWithout a fault it lists them all.";

const FORMATS: &str = "Says how the files are written, on one page";

/// The command `explain FAULT`.
pub(crate) fn explain_command<'a>(alloc: Global) -> Result<Command<'a>, AllocError>
    ensures { Builds explain_app result }
{
    let command = begun(alloc, "explain", EXPLAIN, EXPLAIN_MORE, "earliest explain");
    with_arg(
        command,
        optional(alloc, "fault", "FAULT", "The number or the name of a fault"),
    )
}

/// The command `formats`.
pub(crate) fn formats_command<'a>(alloc: Global) -> Result<Command<'a>, AllocError>
    ensures { Builds formats_app result }
{
    named(
        Command::new(alloc, "formats").about(FORMATS),
        "earliest formats",
    )
}

/// The program with no command yet.
fn bare_program<'a>(alloc: Global) -> Command<'a>
    ensures app { app_of result ≡ bare_program }
    ensures local { (fields_of result).has_globals ≡ false }
{
    Command::new(alloc, "earliest")
        .version("0.1.0")
        .about(ABOUT)
        .after_help(MORE)
        .no_binary_name(true)
        .subcommand_required(true)
}

/// Adds a subcommand, unless memory was refused before.
///
/// Dropped in a helper: inline drops slow the proof.
fn with_command<'a>(
    command: Result<Command<'a>, AllocError>,
    below: Result<Command<'a>, AllocError>,
) -> Result<Command<'a>, AllocError>
    ensures { (app under : App) → Builds app command.entry → Builds under below.entry
        → Builds (with_subcommand app under.top) result }
{
    match command {
        Ok(command) => match below {
            Ok(below) => command.subcommand(below),
            Err(error) => {
                drop(command);
                Err(error)
            }
        },
        Err(error) => {
            drop(below);
            Err(error)
        }
    }
}

/// The program, for words that begin with no command's name.
pub(crate) fn program<'a>(alloc: Global) -> Result<Command<'a>, AllocError>
    ensures { Builds program result }
{
    let command = named(bare_program(alloc), "earliest");
    let command = with_command(command, run_command(alloc));
    let command = with_command(command, pairs_command(alloc));
    let command = with_command(command, rank_command(alloc));
    let command = with_command(command, check_command(alloc));
    let command = with_command(command, explain_command(alloc));
    with_command(command, formats_command(alloc))
}
