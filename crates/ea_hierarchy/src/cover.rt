//! The numbers of a network's arcs: least travel times.
ghost use Rattle.std.specs.Prelude.{◌≡◌, ◌≤◌, ◌<◌, ◌+◌, ◌-◌, ◌^◌, ℕ, IfOk, length};
ghost use Rattle.ea_road.specs.Roads.{FitsNodes, top_class};
ghost use Rattle.ea_hierarchy.specs.Growth.{AreJoined, IsJoined};
ghost use Rattle.ea_hierarchy.specs.Hierarchies.{AreNumbers, AreRanks, AreUpward, IsCovered, Lowers};
ghost use Rattle.ea_hierarchy.specs.Preparations.{AreCovered};

use crate::customize::{Numbers, place_of};
use crate::numbers::capped;
use crate::ranks::Ranks;
use crate::upward::Upward;
use ea_road::{Arc, Network};
use ea_travel_times::TravelTimes;

/// Lowers the number of an arc's direction to a least travel time.
fn cover_arc(ranks: &Ranks, upward: &Upward, arc: Arc, low: u64, numbers: &mut Numbers)
    requires upward { AreUpward upward.now.firsts.items upward.now.heads.items }
    requires ranks { AreRanks (length upward.now.firsts.items - 1) ranks.now }
    requires arc { FitsNodes (length upward.now.firsts.items - 1) arc }
    requires joined { IsJoined ranks.now upward.now.firsts.items upward.now.heads.items arc }
    requires numbers { AreNumbers upward.now.heads.items numbers.old.ups.items
        numbers.old.downs.items }
    ensures lowers { Lowers 0 numbers.old.ups.items numbers.old.downs.items
        numbers.new.ups.items numbers.new.downs.items }
    ensures covered { IsCovered ranks.now upward.now.firsts.items upward.now.heads.items
        numbers.new.ups.items numbers.new.downs.items arc low }
{
    let tail = ranks.of(arc.tail);
    let head = ranks.of(arc.head);
    let low = capped(low);
    if tail < head {
        let place = place_of(upward, tail, head);
        numbers.ups[place] = numbers.ups[place].min(low);
        return;
    }
    if head < tail {
        let place = place_of(upward, head, tail);
        numbers.downs[place] = numbers.downs[place].min(low);
    }
}

/// Lowers the numbers to the least travel times of a network's arcs.
pub(crate) fn cover<T: TravelTimes>(
    network: &Network,
    times: &T,
    ranks: &Ranks,
    upward: &Upward,
    numbers: &mut Numbers,
)
    requires classes { top_class network.now.arcs ≤ T.classes times.now }
    requires upward { AreUpward upward.now.firsts.items upward.now.heads.items }
    requires nodes { length upward.now.firsts.items ≡ network.now.nodes + 1 }
    requires ranks { AreRanks network.now.nodes ranks.now }
    requires joined { AreJoined network.now ranks.now upward.now.firsts.items
        upward.now.heads.items }
    requires numbers { AreNumbers upward.now.heads.items numbers.old.ups.items
        numbers.old.downs.items }
    ensures numbers { AreNumbers upward.now.heads.items numbers.new.ups.items
        numbers.new.downs.items }
    ensures covered { AreCovered network.now (T.answers times.now) ranks.now
        upward.now.firsts.items upward.now.heads.items
        numbers.new.ups.items numbers.new.downs.items }
{
    let arcs = network.arcs();
    for place in 0..arcs.len() {
        let arc = arcs.at(place);
        let low = times.low(arc.class, u64::from(arc.weight));
        cover_arc(ranks, upward, arc, low, numbers);
    }
}
