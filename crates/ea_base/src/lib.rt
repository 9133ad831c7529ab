//! The limits of everything, the plain records of parsed texts, the direction of a run, and reports of progress.
#![tactic(auto)]

mod direction;
mod graph;
mod limits;
mod progress;
mod timetable;

pub use direction::Direction;
pub use graph::{RawArc, RawGraph};
pub use limits::{
    HORIZON, LEAST_HEAPS, MOST_ARCS, MOST_AT_ONCE, MOST_BATCH, MOST_BYTES, MOST_CLASSES,
    MOST_HEAPS, MOST_INTERRUPTIONS, MOST_NODES, MOST_PATIENCE, MOST_PERIOD, MOST_SPEED,
    MOST_STARTS, MOST_STEPS, MOST_TURNS, MOST_WORKERS, SHARES, limits_of_files_are_these,
    limits_of_runs_are_these,
};
pub use progress::{Silent, Watch};
pub use timetable::{RawKind, RawTable};
