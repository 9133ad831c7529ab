//! Termination detection: workers notice together that nothing is left to do.
ghost use Rattle.std.specs.Prelude.{◌≡◌, ℕ, ◌+◌, ◌/◌};
ghost use Rattle.ea_engine.specs.Companies.{HasNotBegun, idle_with, IsIdleFor, KeepsCounts, LeavesAs};
ghost use Rattle.ea_engine.specs.Companies.{FindsEntry, FindsNothing, LooksOnce, LooksRound, TellsGain};

use crate::worker::turn::{Flow, Turn, TurnKind};
use std::sync::atomic::Ordering::SeqCst;
use std::sync::atomic::{AtomicBool, AtomicU64, AtomicUsize};
use std::thread::yield_now;

/// Consecutive turns without an entry after which a worker counts as idle.
const IDLE_AFTER: u32 = 128;

/// Further such turns, with no worker active, after which it leaves; any entry that is left is found earlier.
const QUIET_AFTER: u32 = 384;

/// Consecutive turns without an entry after which a worker yields its processor.
const YIELDS_AFTER: u32 = 512;

/// Consecutive looks at which all others were idle, after which a worker leaves: one thread finishes the rest
/// faster.
const ALONE_AFTER: u32 = 256;

/// The first turn at which a worker may look at the others.
const LOOKS_FROM: u64 = 256;

/// A worker looks at every turn whose number this divides, if the turn visited an entry.
const LOOKS_EVERY: u64 = 64;

/// The least limit for the falls of labels, for small networks.
const FEW_FALLS: u64 = 16_384;

/// The least limit for the idle turns of idle workers. Pauses that soon end, such as while another worker
/// scans a node with many arcs, don't count.
const FEW_WAITS: u64 = 16_384;

/// One more idle turn is allowed for this many visits of entries.
const VISITS_A_WAIT: u64 = 2;

/// No limit for the falls of labels.
const NO_LIMIT: u64 = u64::MAX;

/// Counts of the workers of a run that are not idle, and of what they did. It saves time only; no answer
/// depends on it. A worker's tracer asks its member after each turn.
#[derive(Drop)]
pub struct Company {
    /// The number of active workers; 1 before the first has found an entry.
    active: AtomicUsize,
    /// Whether a worker has found an entry.
    begun: AtomicBool,
    /// The number of idle workers. A worker that has not begun is not among them.
    idle: AtomicUsize,
    /// The numbers of labels that fell, of entries visited, and of idle workers' turns without an entry, up
    /// to each worker's last look.
    falls: AtomicU64,
    visits: AtomicU64,
    waits: AtomicU64,
    /// If more labels fell, all leave.
    most_falls: u64,
}

/// A worker's view of its company.
#[derive(Clone, Copy)]
pub struct Member<'a> {
    company: &'a Company,
    is_active: bool,
    /// Consecutive turns without an entry.
    idle: u32,
    /// How many of the last ones were while no worker was active.
    quiet: u32,
    /// Consecutive looks at which all others were idle.
    alone: u32,
    /// Its own counts since its last look.
    falls: u64,
    visits: u64,
    waits: u64,
}

/// Adds to a count, and returns the sum.
fn told(count: &AtomicU64, more: u64) -> u64 {
    count.fetch_add(more, SeqCst).wrapping_add(more)
}

impl Company {
    /// A company in which no worker has begun, without a limit for the falls of labels.
    pub fn new() -> Company
        ensures { result.most_falls ≡ NO_LIMIT }
    {
        Company::with(NO_LIMIT)
    }

    /// A company for a network of this number of nodes, in which no worker has begun. All leave if labels
    /// fall far more often than there are nodes, or if idle turns outweigh visits: then one thread is faster.
    pub fn on(nodes: u32) -> Company
        ensures { result.most_falls ≡ nodes + nodes / 2 + FEW_FALLS }
    {
        Company::with(u64::from(nodes) + u64::from(nodes / 2) + FEW_FALLS)
    }

    /// A company in which no worker has begun, with a limit for the falls of labels.
    fn with(most_falls: u64) -> Company
        ensures { result.most_falls ≡ most_falls }
    {
        Company {
            active: AtomicUsize::new(1),
            begun: AtomicBool::new(false),
            idle: AtomicUsize::new(0),
            falls: AtomicU64::new(0),
            visits: AtomicU64::new(0),
            waits: AtomicU64::new(0),
            most_falls,
        }
    }

    /// A worker that has not begun.
    pub fn member(&self) -> Member<'_>
        ensures { HasNotBegun self.now result }
    {
        Member {
            company: self,
            is_active: false,
            idle: 0,
            quiet: 0,
            alone: 0,
            falls: 0,
            visits: 0,
            waits: 0,
        }
    }
}

impl Member<'_> {
    /// Whether the worker continues after a turn. It leaves if no worker has anything to do, or if it alone
    /// has had for long.
    pub fn after(&mut self, turn: Turn) -> Flow
        ensures leaves { LeavesAs turn.kind turn.number self.old result }
        ensures idle { (turns : ℕ) → IsIdleFor self.old turns
            → IsIdleFor self.new (idle_with turns turn.kind) }
        ensures alone { LooksOnce turn.number self.old self.new }
    {
        match turn.kind {
            TurnKind::Empty | TurnKind::Busy => self.found_nothing(),
            TurnKind::Stale | TurnKind::Scanned | TurnKind::Cut => {
                self.falls = self.falls.wrapping_add(turn.lowered);
                self.found_entry(turn.number)
            }
            TurnKind::Refused => {
                self.idle = 0;
                self.quiet = 0;
                self.rest();
                Flow::Leave
            }
        }
    }

    /// Marks the worker idle.
    fn rest(&mut self)
        ensures { KeepsCounts self.old self.new }
    {
        if self.is_active {
            self.is_active = false;
            self.company.active.fetch_sub(1, SeqCst);
        }
    }

    /// Marks the worker active.
    fn rise(&mut self)
        ensures { KeepsCounts self.old self.new }
    {
        if !self.is_active {
            self.is_active = true;
            if self.company.begun.swap(true, SeqCst) {
                self.company.active.fetch_add(1, SeqCst);
            }
        }
    }

    #[inline(never)]
    fn found_nothing(&mut self) -> Flow
        ensures { FindsNothing self.old self.new result }
    {
        self.idle = self.idle.saturating_add(1);
        if self.idle < IDLE_AFTER {
            return Flow::Go;
        }
        self.waits = self.waits.wrapping_add(1);
        if self.idle == IDLE_AFTER {
            self.company.idle.fetch_add(1, SeqCst);
        }
        self.rest();
        if self.company.active.load(SeqCst) > 0 {
            self.quiet = 0;
        } else {
            self.quiet = self.quiet.saturating_add(1);
        }
        if self.quiet > QUIET_AFTER {
            return Flow::Leave;
        }
        if self.idle > YIELDS_AFTER {
            yield_now();
        }
        Flow::Go
    }

    /// Whether others are idle and no one else is active, and the visits since the last look still lower
    /// labels: at least one fall for two entries. Entries that lower nothing are visited faster than handed
    /// back.
    fn is_alone(&self) -> bool {
        self.falls >= self.visits / 2
            && self.company.active.load(SeqCst) < 2
            && self.company.idle.load(SeqCst) > 0
    }

    /// Adds the counts since the last look to the company's. Returns whether several workers still gain time.
    #[inline(never)]
    fn gains(&mut self) -> bool
        ensures { TellsGain self.old self.new result }
    {
        let (falls, visits, waits) = (self.falls, self.visits, self.waits);
        self.falls = 0;
        self.visits = 0;
        self.waits = 0;
        if self.company.most_falls == NO_LIMIT {
            return true;
        }
        let falls = told(&self.company.falls, falls);
        let visits = told(&self.company.visits, visits);
        let waits = told(&self.company.waits, waits);
        falls <= self.company.most_falls
            && waits <= (visits / VISITS_A_WAIT).saturating_add(FEW_WAITS)
    }

    fn found_entry(&mut self, number: u64) -> Flow
        ensures { FindsEntry number self.old self.new result }
    {
        if self.idle >= IDLE_AFTER {
            self.company.idle.fetch_sub(1, SeqCst);
        }
        self.idle = 0;
        self.quiet = 0;
        self.visits = self.visits.wrapping_add(1);
        self.rise();
        if number < LOOKS_FROM || number % LOOKS_EVERY > 0 {
            return Flow::Go;
        }
        self.look()
    }

    /// Looks at the others. Not inlined, so that most turns take a few instructions.
    #[inline(never)]
    fn look(&mut self) -> Flow
        ensures { LooksRound self.old self.new result }
    {
        let alone = self.is_alone();
        if !self.gains() {
            self.rest();
            return Flow::Leave;
        }
        if !alone {
            self.alone = 0;
            return Flow::Go;
        }
        self.alone = self.alone.saturating_add(1);
        if self.alone < ALONE_AFTER {
            return Flow::Go;
        }
        self.rest();
        Flow::Leave
    }
}
