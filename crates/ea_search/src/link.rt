/// The level of a node that no walk reaches.
pub const NO_LEVEL: u32 = 4_294_967_295;

/// How a node's walk ends: its last arc, that arc's tail, and its number of arcs.
#[derive(Clone, Copy, Debug, PartialEq, Eq, Drop)]
pub struct Link {
    /// The number of the walk's arcs; NO_LEVEL if no walk reaches the node.
    pub level: u32,
    /// The number of the walk's last arc, from 1. Without meaning if the walk is empty.
    pub arc: u32,
    /// The tail of that arc, from 1. Without meaning if the walk is empty.
    pub from: u32,
}

/// The link of a node that no walk reaches.
pub const NO_LINK: Link = Link {
    level: NO_LEVEL,
    arc: 0,
    from: 0,
};
