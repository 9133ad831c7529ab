//! A hook that may delay workers.

/// Called before each turn. It may wait.
pub trait Gate: Sync {
    /// Called once before each turn of each worker. Workers and turns count from 0.
    fn at(&self, worker: u32, turn: u64);
}

/// A gate that never waits.
pub struct NoGate;

impl Gate for NoGate {
    fn at(&self, _worker: u32, _turn: u64) {}
}
