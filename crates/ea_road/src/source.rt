/// A node and a time at which walks may begin.
#[derive(Clone, Copy, Debug, PartialEq, Eq)]
pub struct Source {
    /// The node's number, from 1.
    pub node: u32,
    /// The departure, at most HORIZON.
    pub departure: u64,
}
