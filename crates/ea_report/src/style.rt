//! How the lines of a report are written.
use ea_base::Direction;

/// What the lines of nodes have, and which times they show.
#[derive(Clone, Copy, Debug, PartialEq, Eq)]
pub struct Style {
    /// Whether a node's walk follows its time.
    pub walks: bool,
    /// Earliest arrivals, or latest departures.
    pub direction: Direction,
}
