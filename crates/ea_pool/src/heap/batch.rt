//! Batches: several entries pushed to a heap, or popped from one, at once.
ghost use Rattle.std.specs.Prelude.{◌+◌, ◌≤◌};
ghost use Rattle.arrayvec.specs.ArrayVec.{array_vec_len};
ghost use Rattle.ea_pool.specs.Batches.{ComesOut, GoesInUntil};

use crate::heap::entry::Entry;
use crate::heap::entry_heap::{EntryHeap, Slot};
use crate::shared::words::MOST_IN_BATCH;
use arrayvec::ArrayVec;

/// A list of entries, stored inline.
pub type Batch = ArrayVec<Entry, MOST_IN_BATCH>;

// Pushes the entries of a batch, the last first, until memory is refused. The rest stays in the batch.
pub(crate) fn push_all<H: EntryHeap>(heap: &mut Slot<H>, batch: &mut Batch) -> bool
    ensures { GoesInUntil result batch.old.items batch.new.items heap.old heap.new }
{
    for _ in 0..batch.len() {
        let Some(entry) = batch.pop() else {
            return true;
        };
        if let Err(back) = heap.push(entry) {
            batch.push(back);
            return false;
        }
    }
    true
}

// Pops `most` entries, or all that the heap has, or all that it gives at once.
pub(crate) fn pop_some<H: EntryHeap>(heap: &mut Slot<H>, most: usize, batch: &mut Batch)
    requires { array_vec_len batch.old + most ≤ MOST_IN_BATCH }
    ensures { ComesOut H.kind most batch.old.items batch.new.items heap.old heap.new }
{
    for _ in 0..most {
        let Some(entry) = heap.pop() else {
            return;
        };
        batch.push(entry);
        if heap.is_spent() {
            return;
        }
    }
}
