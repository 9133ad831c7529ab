//! The direction of a run.

/// Which times a run finds. Lines of a report count nodes and arcs of the network as its file has it.
#[derive(Clone, Copy, Debug, PartialEq, Eq)]
pub enum Direction {
    /// Earliest arrivals from sources.
    Forward,
    /// Latest departures to targets, found as earliest arrivals of the network turned round, whose time t is HORIZON - t of the question.
    Turned,
}
