//! Commands and their options.
ghost use Rattle.std.specs.Prelude.{◌≡◌};
ghost use Rattle.ea_options.specs.Limits.{counted_workers};

use crate::defaults::DEFAULT_COUNTED_WORKERS;
use ea_base::Direction;

/// The options of a run and of its report. Each number is within its limits.
#[derive(Clone, Copy, Debug, PartialEq, Eq)]
pub struct RunOptions {
    /// Whether all sources are one problem.
    pub joint: bool,
    /// Whether the report has the walk to each node that is reached.
    pub walks: bool,
    /// Whether the report ends with the totals of the workers.
    pub stats: bool,
    /// Whether progress is written to standard error.
    pub progress: bool,
    /// The workers that search each problem: 1 to 16; None leaves the choice to the program.
    pub workers: Option<u64>,
    /// The problems searched at once: 1 to 16; None leaves the choice to the program.
    pub at_once: Option<u64>,
    /// The most entries that a worker takes from a heap, or gives to one, at once: 1 to 64; None leaves the
    /// choice to the program.
    pub batch: Option<u64>,
    /// Whether pairs are searched over a prepared road; None leaves the choice to the program.
    pub prepare: Option<bool>,
    /// The heaps for each worker: 2 to 8.
    pub heaps: u64,
    /// The most turns of a worker: 0 to 1,000,000,000.
    pub turns: u64,
    /// The seed of worker 0's random words; worker i's is `seed + i`, modulo 2^64.
    pub seed: u64,
    /// The departure of the first source or, turned round, the time by which the first target has to be
    /// reached: 0 to HORIZON. A file of times takes its place.
    pub depart: u64,
    /// How much later each next one is: 0 to HORIZON.
    pub gap: u64,
    /// Earliest arrivals from sources, or latest departures to targets.
    pub direction: Direction,
}

impl RunOptions {
    /// The workers that statistics and rank errors count: as asked for, else one if several problems are to be
    /// searched at once, else 4.
    pub fn counted_workers(&self) -> u64
        ensures { result ≡ counted_workers self.now }
    {
        let several = self.at_once.unwrap_or(1) >= 2;
        self.workers
            .unwrap_or(if several { 1 } else { DEFAULT_COUNTED_WORKERS })
    }
}

/// A command. The names of files are borrowed from the words.
#[derive(Clone, Copy, Debug)]
pub enum Command<'a> {
    /// The built-in run.
    Stored,
    /// Arrivals from the sources of the file `ss`, or departures to them as targets. The file `times` says
    /// when, if one is named, and the file `nodes` which nodes are reported. The report goes to the file
    /// `output`, if one is named, else to standard output.
    Run {
        gr: &'a str,
        ss: &'a str,
        tp: Option<&'a str>,
        times: Option<&'a str>,
        nodes: Option<&'a str>,
        output: Option<&'a str>,
        options: RunOptions,
    },
    /// Arrivals at the targets of the file `p2p`.
    Pairs {
        gr: &'a str,
        p2p: &'a str,
        tp: Option<&'a str>,
        times: Option<&'a str>,
        output: Option<&'a str>,
        options: RunOptions,
    },
    /// Rank errors of one thread's runs from the sources of the file `ss`.
    Rank {
        gr: &'a str,
        ss: &'a str,
        tp: Option<&'a str>,
        output: Option<&'a str>,
        options: RunOptions,
    },
    /// Whether a report of a run is right.
    Check {
        gr: &'a str,
        ss: &'a str,
        tp: Option<&'a str>,
        times: Option<&'a str>,
        report: &'a str,
        options: RunOptions,
    },
    /// What a fault means, by its number or name; the list of faults if none is named.
    Explain {
        fault: Option<&'a str>,
    },
    /// The formats of the files.
    Formats,
}
