//! The entries of heaps.

/// A node to scan, and the time at which it was reached. Entries are ordered by key, then by node.
#[derive(Clone, Copy, Default, PartialEq, Eq, PartialOrd, Ord, Debug)]
pub struct Entry {
    /// A time, from 0 to HORIZON.
    pub key: u64,
    /// Nodes are numbered from 1.
    pub node: u32,
}
