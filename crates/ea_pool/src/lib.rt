//! Heaps of entries: for one thread, and shared by threads.
//!
//! Shared heaps take no lock.
#![tactic(auto)]

mod draws;
mod heap;
mod laws;
mod shared;
mod solo;

pub use ea_base::SHARES;
pub use heap::batch::Batch;
pub use heap::buckets::Buckets;
pub use heap::entry::Entry;
pub use heap::entry_heap::{EntryHeap, OpenHeap};
pub use heap::least_heap::LeastHeap;
pub use laws::{
    a_batch_is_short, a_pool_serves_all_workers, every_run_is_lawful, words_stand_apart,
};
pub use shared::account::{Account, Held, LastTake, SeatMemory};
pub use shared::closed_pool::ClosedPool;
pub use shared::pool::Pool;
pub use shared::reply::{Popped, PoppedSome, PushAllRefused, PushRefused};
pub use shared::seat::PoolSeat;
pub use shared::words::{EMPTY, MOST_IN_BATCH, MOST_IN_POOL, OUT, WORDS_APART};
pub use solo::{Solo, rank_is_bounded};
pub use std::alloc::AllocError as OutOfMemory;
