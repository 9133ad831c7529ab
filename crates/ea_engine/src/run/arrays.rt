//! The arrays of a run: everything that takes memory, before any worker starts.
ghost use Rattle.std.specs.Prelude.{◌≡◌, ◌*◌, [], IfOk};
ghost use Rattle.ea_engine.specs.Limits.{AreSettings};
ghost use Rattle.ea_engine.specs.Reserved.{AreArrays, AreRooms, AreUnfilled};

use crate::run::ran::Results;
use crate::run::row::Place;
use crate::settings::Settings;
use crate::worker::means::Seats;
use ea_labels::Labels;
use ea_pool::{EntryHeap, LeastHeap, OpenHeap, Pool};
use ea_road::Known;
use ea_search::Open;
use rand_core::Rng;
use std::alloc::{AllocError, Global};

/// The tables with their first seats, the worklist, and room for the row of workers and their results.
#[derive(Drop)]
pub struct Arrays<K: Known, R, T, E: EntryHeap = LeastHeap<Global>> {
    pub labels: Labels<K>,
    pub pool: Pool<K, Global, E>,
    pub seats: Seats<K, E>,
    pub todo: Open,
    /// Room for the seats of the other workers.
    pub others: Vec<Seats<K, E>>,
    pub row: Vec<Place<K, R, T, E>>,
    pub results: Results<R, T>,
}

/// Room for workers.
#[derive(Drop)]
struct Rooms<K: Known, R, T, E: EntryHeap> {
    others: Vec<Seats<K, E>>,
    row: Vec<Place<K, R, T, E>>,
    results: Results<R, T>,
}

/// An empty worklist, with room for walks if they are asked for.
fn open_list(alloc: Global, nodes: u32, walks: bool) -> Result<Open, AllocError>
    ensures { IfOk result (λ todo. (todo.nodes ≡ nodes)
        × (todo.waiting ≡ []) × (todo.walks ≡ walks)) }
{
    if walks {
        Open::reserve(alloc, nodes)
    } else {
        Open::reserve_without_walks(alloc, nodes)
    }
}

impl<R: Drop, T: Drop> Results<R, T> {
    /// Reserves room for this number of workers.
    pub fn reserve(alloc: Global, workers: usize) -> Result<Results<R, T>, AllocError>
        ensures { IfOk result (λ results. AreUnfilled workers results) }
    {
        let counters = Vec::with_capacity(alloc, workers)?;
        let rngs = Vec::with_capacity(alloc, workers)?;
        let tracers = Vec::with_capacity(alloc, workers)?;
        Ok(Results {
            counters,
            rngs,
            tracers,
        })
    }
}

impl<K: Known, E: EntryHeap, R: Drop, T: Drop> Rooms<K, R, T, E> {
    /// Reserves room for this number of workers.
    fn reserve(alloc: Global, workers: usize) -> Result<Rooms<K, R, T, E>, AllocError>
        ensures { IfOk result (λ rooms. AreRooms workers rooms) }
    {
        let others = Vec::with_capacity(alloc, workers)?;
        let row = Vec::with_capacity(alloc, workers)?;
        let results = Results::reserve(alloc, workers)?;
        Ok(Rooms {
            others,
            row,
            results,
        })
    }
}

impl<K: Known, E: OpenHeap<Global>, R: Drop, T: Drop> Arrays<K, R, T, E> {
    /// The arrays for a network of this number of nodes, with those for walks if they are asked for. `width`
    /// is about the width of windows, for heaps that have windows. Fails only if memory is refused.
    pub fn reserve(
        alloc: Global,
        nodes: u32,
        width: u64,
        settings: Settings,
        walks: bool,
    ) -> Result<Arrays<K, R, T, E>, AllocError>
        requires { AreSettings settings }
        ensures { IfOk result (λ arrays.
            AreArrays nodes (settings.workers * settings.heaps) settings.workers walks arrays) }
    {
        let workers = settings.workers as usize;
        let todo = open_list(alloc, nodes, walks)?;
        let (labels, label_seat) = Labels::open(alloc, nodes)?;
        let (pool, pool_seat) = Pool::open_with(alloc, workers * settings.heaps as usize, width)?;
        let rooms = Rooms::reserve(alloc, workers)?;
        Ok(Arrays {
            labels,
            pool,
            seats: Seats {
                label_seat,
                pool_seat,
            },
            todo,
            others: rooms.others,
            row: rooms.row,
            results: rooms.results,
        })
    }
}
