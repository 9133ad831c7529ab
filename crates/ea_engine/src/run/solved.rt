//! The result of a run.
use crate::run::ran::{Ran, Results};
use crate::worker::counters::Counters;
use ea_paths::Answer;

/// The earliest arrivals, and how the run went that found them.
#[derive(Drop)]
pub struct Solved<R, T> {
    /// Earliest arrivals, and canonical walks if they were asked for.
    pub answer: Answer,
    /// How many sources' entries the pool took.
    pub seeded: u128,
    /// The number of entries handed back, by workers and by the seeding.
    pub returned: u128,
    /// The number of entries left in the pool when the workers were done.
    pub drained: u128,
    /// The number of open nodes when the finishing pass started.
    pub finish: u128,
    /// The counters of each worker.
    pub counters: Vec<Counters>,
    /// The generators, in worker order.
    pub rngs: Vec<R>,
    /// The tracers, in worker order.
    pub tracers: Vec<T>,
}
