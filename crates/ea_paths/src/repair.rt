//! Repairing links: those by arcs from nodes whose levels fell.
ghost use Rattle.std.specs.Prelude.{◌≡◌, [], IsTrue};
ghost use Rattle.ea_road.specs.Roads.{IsNode};
ghost use Rattle.ea_paths.specs.Linkable.{CanOffer};
ghost use Rattle.ea_paths.specs.Mended.{AreReady, KeepsMended, MendsNode};

use crate::link_search::spread;
use ea_base::HORIZON;
use ea_road::Network;
use ea_search::{Link, NO_LEVEL, Waiting};
use ea_travel_times::TravelTimes;

/// At most one node in PART is repaired. If more were, finding all links anew may cost less.
const PART: usize = 2;

/// Offers links by the arcs from a node, one level above it. Returns false if no level fits above it.
fn mend<T: TravelTimes>(
    network: &Network,
    times: &T,
    table: &[u64],
    node: u32,
    links: &mut [Link],
    waiting: &mut Waiting,
) -> bool
    requires can { CanOffer network.now (T.classes times.now) table.now links.old waiting.old }
    requires node { IsNode network.now.nodes node }
    ensures { MendsNode network.now (T.answers times.now) table.now node result
        links.old waiting.old links.new waiting.new }
{
    let time = table[node as usize - 1];
    let level = links[node as usize - 1].level;
    if level == NO_LEVEL - 1 {
        return false;
    }
    if time <= HORIZON && level < NO_LEVEL {
        spread(network, times, table, node, links, waiting);
    }
    true
}

/// Offers links by the arcs from the waiting nodes. Returns false if there are too many, or no level fits
/// above one of them.
pub(crate) fn mend_waiting<T: TravelTimes>(
    network: &Network,
    times: &T,
    table: &[u64],
    links: &mut [Link],
    waiting: &mut Waiting,
) -> bool
    requires { CanOffer network.now (T.classes times.now) table.now links.old waiting.old }
    ensures kept { KeepsMended network.now (T.answers times.now) table.now
        links.old waiting.old links.new waiting.new }
    ensures done { IsTrue result
        → (waiting.new.waiting ≡ []) × (AreReady links.old → AreReady links.new) }
{
    'mending: for _ in 0..links.len() / PART + 1 {
        let Some(node) = waiting.take() else {
            return true;
        };
        if !mend(network, times, table, node, links, waiting) {
            return false;
        }
    }
    false
}
