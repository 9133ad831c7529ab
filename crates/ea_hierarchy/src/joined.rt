//! Whether upward arcs join the ends of a network's arcs, so that they serve it whatever its weights and travel times are.
ghost use Rattle.std.specs.Prelude.{◌≡◌, ◌+◌, ◌-◌, false, length, true};
ghost use Rattle.ea_road.specs.Roads.{FitsNodes};
ghost use Rattle.ea_hierarchy.specs.Growth.{AreJoined, IsJoined};
ghost use Rattle.ea_hierarchy.specs.Hierarchies.{AreRanks, AreUpward};

use crate::customize::has_arc;
use crate::ranks::Ranks;
use crate::upward::Upward;
use ea_road::{Arc, Network};

/// Whether an upward arc joins the ends of an arc; those of a loop need none.
fn is_joined(ranks: &Ranks, upward: &Upward, arc: Arc) -> bool
    requires upward { AreUpward upward.now.firsts.items upward.now.heads.items }
    requires ranks { AreRanks (length upward.now.firsts.items - 1) ranks.now }
    requires arc { FitsNodes (length upward.now.firsts.items - 1) arc }
    ensures is { result ≡ true
        → IsJoined ranks.now upward.now.firsts.items upward.now.heads.items arc }
    ensures none { result ≡ false
        → IsJoined ranks.now upward.now.firsts.items upward.now.heads.items arc → ⊥ }
{
    let tail = ranks.of(arc.tail);
    let head = ranks.of(arc.head);
    if tail < head {
        return has_arc(upward, tail, head);
    }
    if head < tail {
        return has_arc(upward, head, tail);
    }
    true
}

/// Whether upward arcs join the ends of all arcs of a network.
pub(crate) fn are_joined(network: &Network, ranks: &Ranks, upward: &Upward) -> bool
    requires upward { AreUpward upward.now.firsts.items upward.now.heads.items }
    requires nodes { length upward.now.firsts.items ≡ network.now.nodes + 1 }
    requires ranks { AreRanks network.now.nodes ranks.now }
    ensures is { result ≡ true
        → AreJoined network.now ranks.now upward.now.firsts.items upward.now.heads.items }
    ensures none { result ≡ false
        → AreJoined network.now ranks.now upward.now.firsts.items upward.now.heads.items → ⊥ }
{
    let arcs = network.arcs();
    for place in 0..arcs.len() {
        if !is_joined(ranks, upward, arcs.at(place)) {
            return false;
        }
    }
    true
}
