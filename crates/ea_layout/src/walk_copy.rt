//! The walk to a target, written link by link under the numbers of the network.
ghost use Rattle.std.specs.Prelude.{◌≡◌, ℕ, length};
ghost use Rattle.ea_layout.specs.Writing.{CanCopyLink, CanCopyLinks, CopiesLink, CopiesWalk, HasWalkTo};
ghost use Rattle.ea_road.specs.Roads.{IsNode};
ghost use Rattle.ea_search.specs.Links.{link, no_link};

use crate::layout::Layout;
use crate::link_copy::copy_of;
use ea_search::{Link, Listed};

/// Copies the link of a new number to its node, and lists the node.
fn copy_link(layout: &Layout, laid: &[Link], at: u32, links: &mut [Link], listed: &mut Listed)
    requires can { CanCopyLink layout.now laid.now links.old }
    requires at { IsNode (length laid.now) at }
    ensures { CopiesLink layout.now laid.now at links.old links.new listed.old listed.new }
{
    let slot = at as usize - 1;
    let node = layout.nodes[slot];
    links[node as usize - 1] = copy_of(&layout.nodes, laid[slot]);
    listed.add(node);
}

/// Copies the links of the walk to a target, and lists its nodes. Takes time in proportion to the walk.
pub(crate) fn copy_walk(
    layout: &Layout,
    laid: &[Link],
    target: u32,
    links: &mut [Link],
    listed: &mut Listed,
)
    requires can { CanCopyLinks layout.now laid.now links.old }
    requires target { HasWalkTo layout.now laid.now target }
    requires none { (node : ℕ) → link links.old node ≡ no_link }
    ensures { CopiesWalk layout.now laid.now target links.new listed.old listed.new }
{
    let mut at = layout.places[target as usize - 1];
    while laid[at as usize - 1].level > 0 {
        copy_link(layout, laid, at, links, listed);
        at = laid[at as usize - 1].from;
    }
    copy_link(layout, laid, at, links, listed);
}
