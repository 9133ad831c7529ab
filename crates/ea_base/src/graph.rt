//! The graph of a text.

/// An arc of a graph's text: from `tail` to `head`, nodes counted from 1, of `weight`.
#[derive(Clone, Copy, Debug, PartialEq, Eq)]
pub struct RawArc {
    pub tail: u32,
    pub head: u32,
    pub weight: u32,
}

/// The graph of a text: its number of nodes, and its arcs in the order of their lines.
#[derive(Debug, Drop)]
pub struct RawGraph {
    pub nodes: u32,
    pub arcs: Vec<RawArc>,
}
