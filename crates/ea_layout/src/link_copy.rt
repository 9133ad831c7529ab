//! A link under the numbers of the network.
ghost use Rattle.ea_layout.specs.Copied.{IsCopyOf};

use ea_search::Link;

/// A link, whose tail goes by its number in the network.
#[inline(always)]
pub(crate) fn copy_of(nodes: &[u32], link: Link) -> Link
    ensures { IsCopyOf nodes.now link result }
{
    let from = match nodes.get((link.from as usize).wrapping_sub(1)) {
        Some(node) => *node,
        None => 0,
    };
    Link {
        level: link.level,
        arc: link.arc,
        from,
    }
}
