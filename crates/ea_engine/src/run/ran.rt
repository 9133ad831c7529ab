//! How a run went.

use crate::worker::counters::Counters;

/// What the workers leave to the caller, in worker order.
#[derive(Drop)]
pub struct Results<R, T> {
    pub counters: Vec<Counters>,
    pub rngs: Vec<R>,
    pub tracers: Vec<T>,
}

/// The counts of entries, and what the workers leave.
#[derive(Drop)]
pub struct Ran<R, T> {
    /// How many sources' entries the pool took.
    pub seeded: u128,
    /// The number of entries handed back, by workers and by the seeding.
    pub returned: u128,
    /// The number of entries left in the pool when the workers were done.
    pub drained: u128,
    /// The number of open nodes when the finishing pass started.
    pub finish: u128,
    pub results: Results<R, T>,
}
