//! The totals of problems.
ghost use Rattle.std.specs.Prelude.{◌≡◌, ◌+◌, ◌*◌, ◌≤◌, length};
ghost use Rattle.earliest.specs.Counted.{AreNoTotals, AreOfOne};
ghost use Rattle.earliest.specs.Running.{AddsTotals, AreSoFar};
ghost use Rattle.earliest.specs.Worked.{AreNarrow, FitsOneMore, IsWorkOf, work_with};

use ea_engine::Counters;
use ea_report::Totals;

/// Totals of 0.
pub(crate) fn no_totals() -> Totals
    ensures { AreNoTotals result }
{
    Totals {
        seeded: 0,
        pushed: 0,
        popped: 0,
        stale: 0,
        scanned: 0,
        returned: 0,
        drained: 0,
        finish: 0,
    }
}

/// The sums over all workers. The numbers handed back bound what a problem handed back.
#[derive(Clone, Copy)]
pub(crate) struct Work {
    pub pushed: u128,
    pub popped: u128,
    pub stale: u128,
    pub scanned: u128,
    pub returned: u128,
}

/// Adds a worker's counters.
fn add_work(work: &mut Work, counted: &Counters)
    requires room { FitsOneMore work.old }
    ensures added { work.new ≡ work_with work.old counted.now }
    ensures few { AreNarrow counted.now }
{
    let Counters {
        pushed,
        popped,
        stale,
        scanned,
        returned,
        ..
    } = *counted;
    work.pushed += u128::from(pushed);
    work.popped += u128::from(popped);
    work.stale += u128::from(stale);
    work.scanned += u128::from(scanned);
    work.returned += u128::from(returned);
}

/// The sums over workers.
pub(crate) fn work_of(counters: &[Counters]) -> Work
    requires few { length counters.now ≤ 16 }
    ensures sums { IsWorkOf counters.now result }
{
    let mut work = Work {
        pushed: 0,
        popped: 0,
        stale: 0,
        scanned: 0,
        returned: 0,
    };
    for counted in counters {
        add_work(&mut work, counted);
    }
    work
}

/// The totals of more problems.
pub(crate) fn add_totals(totals: &mut Totals, more: &Totals)
    requires so_far { AreSoFar totals.old }
    requires more { AreOfOne more.now }
    ensures { AddsTotals totals.old more.now totals.new }
{
    totals.seeded += more.seeded;
    totals.pushed += more.pushed;
    totals.popped += more.popped;
    totals.stale += more.stale;
    totals.scanned += more.scanned;
    totals.returned += more.returned;
    totals.drained += more.drained;
    totals.finish += more.finish;
}
