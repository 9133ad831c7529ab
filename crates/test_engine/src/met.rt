//! Two workers that wait for each other: each runs while the other does.
use crate::ran::{
    Came, Count, arrives, assert_right, constants, has_four, posed, run, run_crew_on_four, singly,
    total,
};
use ea_engine::{Crew, Flow, Gate, Turn};
use std::alloc::Global;
use std::hint;
use std::sync::atomic::{AtomicU64, Ordering};
use std::test::Fail;
use std::thread::Threads;
use test_support::networks::{Given, Row};

/// Each worker raises its flag before its first turn and then looks for all others'. There are four flags.
#[derive(Drop)]
struct Meeting {
    /// Four bits, the first one that of worker 0.
    flags: AtomicU64,
    missed: AtomicU64,
}

/// The flag of a worker.
fn flag_of(worker: u32) -> u64 {
    match worker {
        0 => 1,
        1 => 2,
        2 => 4,
        _ => 8,
    }
}

impl Meeting {
    /// A meeting of the workers whose flags aren't raised at the beginning.
    fn new(raised: u64) -> Meeting {
        Meeting {
            flags: AtomicU64::new(raised),
            missed: AtomicU64::new(0),
        }
    }

    /// Raises a worker's flag. Only this worker calls it.
    fn raise(&self, worker: u32) {
        if !self.is_there(worker) {
            self.flags.fetch_add(flag_of(worker), Ordering::SeqCst);
        }
    }

    fn is_there(&self, worker: u32) -> bool {
        self.flags.load(Ordering::SeqCst) & flag_of(worker) != 0
    }

    fn are_all_there(&self) -> bool {
        self.flags.load(Ordering::SeqCst) == 15
    }

    /// Looks this often whether all flags are raised, and records if they aren't.
    fn wait(&self) {
        for _ in 0..100_000_000 {
            if self.are_all_there() || self.missed.load(Ordering::SeqCst) == 1 {
                return;
            }
            hint::spin_loop();
        }
        self.missed.store(1, Ordering::SeqCst);
    }
}

impl Gate for Meeting {
    fn at(&self, worker: u32, turn: u64) {
        if turn == 0 && worker < 4 {
            self.raise(worker);
            self.wait();
        }
    }
}

/// Whether a run of this many workers has the arrivals, all flags were raised, no worker missed another, and
/// they pop entries.
fn have_met(came: &Came, workers: usize, meeting: &Meeting) -> bool {
    has_four(&came.answer)
        && came.counters.len() == workers
        && meeting.are_all_there()
        && meeting.missed.load(Ordering::SeqCst) == 0
        && total(came, Count::Popped) > 0
}

/// Whether this many workers meet on four nodes.
fn meet<H: Threads + Sync>(
    alloc: Global,
    rt: &H,
    workers: u32,
    meeting: &Meeting,
) -> Result<bool, Fail> {
    let rngs = constants(alloc, workers, 0)?;
    let came = run_crew_on_four(alloc, rt, 2, 100, rngs, meeting)?;
    Ok(have_met(&came, workers as usize, meeting))
}

#[test]
fn two_workers_meet(rt: HostRuntime) -> Result<(), Fail> {
    let meeting = Meeting::new(0b1100);
    assert_right(&rt, "two workers meet", meet(rt.alloc(), &rt, 2, &meeting))
}

#[test]
fn four_workers_meet(rt: HostRuntime) -> Result<(), Fail> {
    let meeting = Meeting::new(0);
    assert_right(&rt, "four workers meet", meet(rt.alloc(), &rt, 4, &meeting))
}

/// A worker that popped something waits until all have. One that found nothing at its first turn waits until
/// the star is scanned.
#[derive(Drop)]
struct Sharing {
    popped: Meeting,
    spread: AtomicU64,
}

impl Sharing {
    fn show(&self, worker: u32, turn: Turn) {
        if worker < 4 && turn.node > 0 {
            self.popped.raise(worker);
        }
        if turn.lowered > 0 {
            self.spread.store(1, Ordering::SeqCst);
        }
    }

    fn wait_until_spread(&self) {
        for _ in 0..100_000_000 {
            if self.spread.load(Ordering::SeqCst) == 1 {
                return;
            }
            hint::spin_loop();
        }
    }
}

impl Gate for Sharing {
    fn at(&self, worker: u32, turn: u64) {
        if worker > 3 || turn == 0 {
            return;
        }
        if self.popped.is_there(worker) {
            self.popped.wait();
        } else {
            self.wait_until_spread();
        }
    }
}

/// A star, from its middle at 0.
fn star(alloc: Global) -> Result<Given, Fail> {
    let mut rows: Vec<Row> = Vec::new(alloc);
    for node in 2..4_001u32 {
        rows.push((1, node, node, 0))?;
    }
    posed(alloc, 4_000, &rows, &[(1, 0)])
}

/// A run of four workers on the star, which share its entries.
fn run_sharing<H: Threads + Sync>(
    alloc: Global,
    rt: &H,
    given: &Given,
    sharing: &Sharing,
) -> Result<Came, Fail> {
    let mut tracers = Vec::new(alloc);
    for worker in 0..4u32 {
        tracers.push(move |turn: Turn| -> Flow {
            sharing.show(worker, turn);
            Flow::Go
        })?;
    }
    let crew = Crew {
        settings: singly(4, 2, 10_000),
        rngs: constants(alloc, 4, 0)?,
        gate: sharing,
        tracers,
    };
    run(alloc, rt, given, crew)
}

/// Whether four workers share the star: each pops something, none misses another, and its last node is
/// reached.
fn is_shared(came: &Came, sharing: &Sharing) -> bool {
    let mut right = came.counters.len() == 4;
    for counters in &came.counters {
        right &= counters.popped > 0;
    }
    right
        && sharing.popped.missed.load(Ordering::SeqCst) == 0
        && arrives(&came.answer, 4_000, Some(4_000))
}

/// Whether a run on the star is shared so.
fn share<H: Threads + Sync>(alloc: Global, rt: &H, given: &Given) -> Result<bool, Fail> {
    let sharing = Sharing {
        popped: Meeting::new(0),
        spread: AtomicU64::new(0),
    };
    let came = run_sharing(alloc, rt, given, &sharing)?;
    Ok(is_shared(&came, &sharing))
}

#[test]
fn each_of_four_workers_pops_some(rt: HostRuntime) -> Result<(), Fail> {
    let given = star(rt.alloc())?;
    assert_right(&rt, "four workers share", share(rt.alloc(), &rt, &given))
}
