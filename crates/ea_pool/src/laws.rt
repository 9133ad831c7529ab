// The laws of the pool, as functions that do nothing.
ghost use Rattle.std.specs.Prelude.{◌≡◌, ◌+◌, ◌*◌, ◌^◌};
ghost use Rattle.ea_pool.specs.Events.{EveryRunIsLawful};
ghost use Rattle.ea_pool.specs.Kinds.{HeapKind};

use crate::shared::words::{EMPTY, MOST_IN_BATCH, MOST_IN_POOL, OUT};
use ea_base::{MOST_HEAPS, MOST_WORKERS};
use ea_road::Known;

/// Every run of a new pool, whatever the order of its seats' steps, leaves it lawful: no entry is lost or
/// made up.
pub fn every_run_is_lawful<K: Known>()
    ensures { (kind : HeapKind) → EveryRunIsLawful K.is_known kind }
{}

/// A pool has room for the heaps of all workers of a run.
pub fn a_pool_serves_all_workers()
    ensures { MOST_IN_POOL ≡ MOST_WORKERS * MOST_HEAPS }
{}

/// The most entries of a batch.
pub fn a_batch_is_short()
    ensures { MOST_IN_BATCH ≡ 64 }
{}

/// The words of heaps that aren't keys are the first two numbers above the horizon.
pub fn words_stand_apart()
    ensures empty { EMPTY ≡ 2 ^ 48 }
    ensures out { OUT ≡ 2 ^ 48 + 1 }
{}
