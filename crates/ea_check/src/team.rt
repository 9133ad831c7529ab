//! Who works on the parts of a report: the thread that calls, or several threads.
ghost use Rattle.std.specs.Prelude.{◌≤◌, length, ℕ, ◌<◌, slice_index_or};
ghost use Rattle.ea_fork_join.specs.declared.TheConstants.{MOST_THREADS};
ghost use Rattle.ea_check.specs.Pieces.{AreRead};

use crate::form::run::{Run, read_run};
use ea_base::Direction;
use ea_fork_join::{MOST_THREADS, for_each_mut};
use std::thread::Threads;

/// Those who work on the parts of a report.
pub(crate) trait Team {
    /// Whether they may share what starts threads.
    ghost can_start: { Self → Type 0 };

    /// How many parts they work on at once.
    fn size(&self) -> usize
        ensures { (1 ≤ result) × (result ≤ MOST_THREADS) };

    /// Reads the lines of each run of a text, up to those of this node.
    fn read_runs(&self, way: Direction, text: &[u8], last: u32, runs: &mut [Run])
        requires can { can_start self.now }
        requires few { length runs.old ≤ MOST_THREADS }
        ensures { AreRead way text.now last runs.old runs.new };
}

/// The thread that calls.
pub(crate) struct Alone;

impl Team for Alone {
    ghost can_start = { λ _. Unit {0} };

    fn size(&self) -> usize {
        1
    }

    fn read_runs(&self, way: Direction, text: &[u8], last: u32, runs: &mut [Run]) {
        for run in runs.iter_mut() {
            read_run(way, text, last, run);
        }
    }
}

/// Threads that the calling one starts.
pub struct Several<'a, H: Threads + Sync> {
    /// What starts threads.
    pub rt: &'a H,
    /// How many threads there are, the calling one included.
    pub threads: usize,
}

impl<'a, H: Threads + Sync> Drop for Several<'a, H> {
    fn drop(self) {
        let Several { rt: _, threads: _ } = self;
    }
}

impl<'a, H: Threads + Sync> Team for Several<'a, H> {
    ghost use denote.Param.Send.{IsSync};

    ghost can_start = { λ _. IsSync H.row };

    fn size(&self) -> usize {
        self.threads.clamp(1, MOST_THREADS)
    }

    fn read_runs(&self, way: Direction, text: &[u8], last: u32, runs: &mut [Run]) {
        let reading = |_place: usize, run: &mut Run| { read_run(way, text, last, run) };
        for_each_mut(self.rt, runs, &reading);
    }
}
