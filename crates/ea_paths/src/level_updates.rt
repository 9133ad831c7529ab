//! Changes of levels during the replay, passed on along links.
ghost use Rattle.ea_road.specs.Roads.{IsNode};
ghost use Rattle.ea_paths.specs.Places.{HavePlaces, TakesStep};
ghost use Rattle.ea_paths.specs.Replayed.{StayAfter};

use crate::log_replay::{place_of, relevel};
use crate::ties::Ties;
use ea_road::Network;
use ea_search::{Link, NO_LEVEL, Waiting};

/// Passes a node's level to a head whose link has an arc from the node. Returns false if the replay is given
/// up.
fn pass_to_head(
    node: u32,
    head: u32,
    links: &mut [Link],
    waiting: &mut Waiting,
    ties: &mut Ties,
) -> bool
    requires { HavePlaces waiting.old.nodes links.old waiting.old }
    ensures { TakesStep waiting.old.nodes result links.new waiting.new
        (StayAfter links.old waiting.old.waiting ties.old.list.items
        links.new waiting.new.waiting ties.new.list.items) }
{
    let Some(from) = place_of(node, links.len()) else {
        return false;
    };
    let Some(at) = place_of(head, links.len()) else {
        return false;
    };
    let level = links[from].level;
    let old = links[at];
    if old.from != node || old.level == 0 {
        return true;
    }
    if old.level >= NO_LEVEL || level >= NO_LEVEL {
        return true;
    }
    let new = Link {
        level: level.saturating_add(1),
        arc: old.arc,
        from: node,
    };
    relevel(head, new, links, waiting, ties)
}

/// Passes a node's level to the heads whose links have its arcs. Returns false if the replay is given up.
fn pass_to_heads(
    network: &Network,
    node: u32,
    links: &mut [Link],
    waiting: &mut Waiting,
    ties: &mut Ties,
) -> bool
    requires node { IsNode network.now.nodes node }
    requires places { HavePlaces waiting.old.nodes links.old waiting.old }
    ensures { TakesStep waiting.old.nodes result links.new waiting.new
        (StayAfter links.old waiting.old.waiting ties.old.list.items
        links.new waiting.new.waiting ties.new.list.items) }
{
    let arcs = network.leaving(node).arcs;
    for arc in arcs {
        if !pass_to_head(node, arc.head, links, waiting, ties) {
            return false;
        }
    }
    true
}

/// The loop of `pass_on`, if some level changed.
#[inline(never)]
fn pass_on_all(
    network: &Network,
    links: &mut [Link],
    waiting: &mut Waiting,
    ties: &mut Ties,
) -> bool
    requires { HavePlaces network.now.nodes links.old waiting.old }
    ensures { TakesStep waiting.old.nodes result links.new waiting.new
        (StayAfter links.old waiting.old.waiting ties.old.list.items
        links.new waiting.new.waiting ties.new.list.items) }
{
    'passing: for _ in 0..links.len() {
        let Some(node) = ties.changed.pop() else {
            return true;
        };
        if node == 0 || node > network.nodes() {
            return false;
        }
        if !pass_to_heads(network, node, links, waiting, ties) {
            return false;
        }
    }
    false
}

/// Passes changed levels on to the nodes whose links have arcs from there, until no change is left. Returns
/// false if the replay is given up; then links and waiting nodes are useless.
#[inline(always)]
pub(crate) fn pass_on(
    network: &Network,
    links: &mut [Link],
    waiting: &mut Waiting,
    ties: &mut Ties,
) -> bool
    requires { HavePlaces network.now.nodes links.old waiting.old }
    ensures { TakesStep waiting.old.nodes result links.new waiting.new
        (StayAfter links.old waiting.old.waiting ties.old.list.items
        links.new waiting.new.waiting ties.new.list.items) }
{
    if ties.changed.is_empty() {
        return true;
    }
    pass_on_all(network, links, waiting, ties)
}
