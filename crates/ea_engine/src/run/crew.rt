//! The workers of a run.
use crate::settings::Settings;

/// The workers of a run: their number and pace, a random generator and a tracer for each, in worker order,
/// and the gate before their turns.
#[derive(Drop)]
pub struct Crew<'a, R, G, T> {
    pub settings: Settings,
    pub rngs: Vec<R>,
    pub gate: &'a G,
    pub tracers: Vec<T>,
}
