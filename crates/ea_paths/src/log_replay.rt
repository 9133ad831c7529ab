//! Replaying the log of a search: each note's node gets a link with the note's arc.
ghost use Rattle.std.specs.Prelude.{◌≡◌, ℕ, ◌-◌, ◌<◌, Contains, IfSome, List, IsTrue};
ghost use Rattle.ea_road.specs.declared.source.Source.{Source};
ghost use Rattle.ea_road.specs.Roads.{Roads};
ghost use Rattle.ea_search.specs.Links.{link};
ghost use Rattle.ea_search.specs.Notes.{by_none, notes_in};
ghost use Rattle.ea_paths.specs.Places.{HasPlace, HavePlaces, IsLaterNode, TakesStep};
ghost use Rattle.ea_paths.specs.Replayed.{AreAfter, AreReplayed, HaveOneArc, IsFollowed, IsReachedAgain, KeepsTies};
ghost use Rattle.ea_search.specs.Scans.{IsPlaced};

use crate::level_updates::pass_on;
use crate::ties::Ties;
use ea_road::Network;
use ea_search::{Link, NO_LEVEL, Note, Waiting, note_in};

/// The index of a node's link among `count` links.
pub(crate) fn place_of(node: u32, count: usize) -> Option<usize>
    ensures { IfSome result (λ place. (0 < node) × (place ≡ node - 1) × (place < count)) }
{
    let place = (node as usize).wrapping_sub(1);
    if place < count { Some(place) } else { None }
}

/// The number of the arc at a place, from 0, among those that leave a node.
pub(crate) fn number_of(network: &Network, from: u32, place: u32) -> Option<u32>
    ensures { IfSome result (λ number. IsPlaced network.now from place number) }
{
    if from == 0 || from > network.nodes() {
        return None;
    }
    network.leaving(from).numbers.get(place as usize).copied()
}

/// The node was met by the arc of its link, whose tail may have changed its level: the node takes the
/// level above the tail's. Returns false if the replay is given up.
pub(crate) fn relevel(
    node: u32,
    new: Link,
    links: &mut [Link],
    waiting: &mut Waiting,
    ties: &mut Ties,
) -> bool
    requires node { IsLaterNode node links.old waiting.old }
    requires same { HaveOneArc (link links.old node) new }
    ensures kept { KeepsTies waiting.old.nodes links.new waiting.new
        ties.old.list.items ties.new.list.items }
    ensures reached { IsTrue result → (roads : Roads)
        → IsReachedAgain roads node new links.old waiting.old.waiting ties.old.list.items
        links.new waiting.new.waiting ties.new.list.items }
{
    let place = node as usize - 1;
    let level = links[place].level;
    links[place] = new;
    if level < new.level {
        return ties.rise(node, waiting);
    }
    if new.level < level {
        waiting.add(node);
        return ties.fall(node);
    }
    true
}

/// Offers a tied node a link by another arc than its own link's. It keeps the link of fewer arcs or, at a
/// tie, of the lower arc number. Returns false if the replay is given up.
fn choose(
    network: &Network,
    node: u32,
    new: Link,
    links: &mut [Link],
    waiting: &mut Waiting,
    ties: &mut Ties,
) -> bool
    requires { IsLaterNode node links.old waiting.old }
    ensures kept { KeepsTies waiting.old.nodes links.new waiting.new
        ties.old.list.items ties.new.list.items }
    ensures reached { IsTrue result → (before after : List (ℕ × ℕ))
        → ((tie : ℕ × ℕ) → Contains before tie → Contains after tie)
        → Contains after (node, new.from) → Contains after (node, (link links.old node).from)
        → IsReachedAgain network.now node new links.old waiting.old.waiting before
        links.new waiting.new.waiting after }
{
    let place = node as usize - 1;
    let old = links[place];
    if new.level < old.level {
        links[place] = new;
        waiting.add(node);
        return ties.fall(node);
    }
    if new.level == old.level && new.level < NO_LEVEL {
        let Some(number) = number_of(network, new.from, new.arc) else {
            return false;
        };
        let Some(other) = number_of(network, old.from, old.arc) else {
            return false;
        };
        if number < other {
            links[place] = new;
        }
    }
    true
}

/// A node was met by the arc of a new link. Returns false if the replay is given up. Not inlined, to keep the
/// loop over notes short: in nearly all of them a label falls.
#[inline(never)]
fn tie(
    network: &Network,
    node: u32,
    new: Link,
    links: &mut [Link],
    waiting: &mut Waiting,
    ties: &mut Ties,
) -> bool
    requires place { HasPlace node links.old waiting.old }
    requires level { 0 < new.level }
    ensures { TakesStep waiting.old.nodes result links.new waiting.new
        (IsReachedAgain network.now node new
        links.old waiting.old.waiting ties.old.list.items
        links.new waiting.new.waiting ties.new.list.items) }
{
    let old = links[node as usize - 1];
    if old.level == 0 {
        return true;
    }
    if old.from == new.from && old.arc == new.arc {
        return relevel(node, new, links, waiting, ties);
    }
    if !ties.tie(node, new.from, old.from) {
        return false;
    }
    choose(network, node, new, links, waiting, ties)
}

/// The link by the arc of a note, with a level.
#[inline(always)]
fn link_by(note: Note, level: u32) -> Link
    ensures { result ≡ record { level = level; arc = note.place; from = note.from } }
{
    Link {
        level,
        arc: note.place,
        from: note.from,
    }
}

/// Replays one note: a node whose label fell takes the link by the note's arc, whatever link it had. Returns
/// false if the replay is given up.
#[inline(always)]
fn follow_note(
    network: &Network,
    note: Note,
    links: &mut [Link],
    waiting: &mut Waiting,
    ties: &mut Ties,
) -> bool
    requires { HavePlaces network.now.nodes links.old waiting.old }
    ensures { TakesStep network.now.nodes result links.new waiting.new
        (IsFollowed network.now note
        links.old waiting.old.waiting ties.old.list.items
        links.new waiting.new.waiting ties.new.list.items) }
{
    let Some(from) = place_of(note.from, links.len()) else {
        return false;
    };
    let Some(place) = place_of(note.node, links.len()) else {
        return false;
    };
    let level = links[from].level.saturating_add(1);
    if note.again {
        return tie(
            network,
            note.node,
            link_by(note, level),
            links,
            waiting,
            ties,
        );
    }
    // Built a second time: the link handed to `tie` lies in memory, and copying it would wait for that store.
    links[place] = link_by(note, level);
    true
}

/// Replays notes in their order, from the links of sources. Returns false if it gives up; then links and
/// waiting nodes are useless.
pub(crate) fn replay(
    network: &Network,
    notes: &[u64],
    links: &mut [Link],
    waiting: &mut Waiting,
    ties: &mut Ties,
) -> bool
    requires { HavePlaces network.now.nodes links.old waiting.old }
    ensures { TakesStep network.now.nodes result links.new waiting.new
        ((sources : List Source) (table : List ℕ)
        → AreReplayed network.now sources table by_none by_none links.old waiting.old.waiting
        → AreAfter network.now sources table (notes_in notes.now)
        links.new waiting.new.waiting ties.new.list.items) }
{
    ties.clear(links.len());
    for word in notes {
        let note = note_in(*word);
        if !follow_note(network, note, links, waiting, ties) {
            return false;
        }
        // Before the next note, which may build on the heads.
        if !pass_on(network, links, waiting, ties) {
            return false;
        }
    }
    true
}
