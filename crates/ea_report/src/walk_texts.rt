//! The arcs of walks as text. What a walk shares with the one before is not written again.
ghost use Rattle.std.specs.Prelude.{◌≡◌, ◌<◌, ◌≤◌, ◌+◌, ◌-◌, [], IsTrue, OnOk, length, slice_index, take};
ghost use Rattle.ea_search.specs.Links.{link, linked_walk};
ghost use Rattle.ea_report.specs.Walks.{AreFronts, AreWritten, FillsBack, FollowLinks, HasWalk, HoldsWalk, IsStep, IsWalkText, KeepsFronts, arcs_text, front_end, text_to};

use crate::lines::push_number;
use ea_search::Link;
use std::alloc::{AllocError, Global};
use std::marker::Model;

/// Whether a known place has this node.
fn stands_at(nodes: &[u32], known: usize, place: usize, node: u32) -> bool
    requires { place < length nodes.now }
    ensures { IsTrue result → (place < known) × (slice_index nodes.now place ≡ node) }
{
    place < known && nodes[place] == node
}

/// Puts the nodes of a node's walk in their places, from the last back to the first that is already there.
/// Returns the number of places that stay.
fn go_back(links: &[Link], nodes: &mut Vec<u32>, known: usize, node: u32) -> usize
    requires walk { HasWalk links.now node }
    requires places { length nodes.old.items ≡ (link links.now node).level + 1 }
    ensures known { result ≤ known }
    ensures fills { FillsBack links.now node result nodes.old.items nodes.new.items }
{
    let mut left = nodes.len();
    let mut at = node;
    'back: while left > 0 {
        if stands_at(nodes, known, left - 1, at) {
            return left;
        }
        nodes[left - 1] = at;
        at = links[at as usize - 1].from;
        left -= 1;
    }
    0
}

/// Appends the arc of the node at a place; the first place has none.
fn push_arc_at(
    links: &[Link],
    nodes: &[u32],
    place: usize,
    text: &mut Vec<u8>,
) -> Result<(), AllocError>
    requires step { IsStep links.now nodes.now place }
    requires text { IsWalkText links.now nodes.now place text.old.items }
    ensures { OnOk result (text.new.items ≡ text_to links.now nodes.now place) }
{
    if place == 0 {
        return Ok(());
    }
    push_number(text, u64::from(links[nodes[place] as usize - 1].arc))
}

/// Appends the text of the arcs after the last place that has an end.
fn write_on(
    links: &[Link],
    nodes: &[u32],
    ends: &mut Vec<usize>,
    text: &mut Vec<u8>,
) -> Result<(), AllocError>
    requires path { FollowLinks links.now nodes.now (length ends.old.items) }
    requires written { AreWritten links.now nodes.now ends.old.items text.old.items }
    ensures { OnOk result (HoldsWalk links.now nodes.now ends.new.items text.new.items
        (slice_index nodes.now (length nodes.now - 1))) }
{
    'on: while ends.len() < nodes.len() {
        push_arc_at(links, nodes, ends.len(), text)?;
        ends.push(text.len())?;
    }
    Ok(())
}

/// Keeps the first `kept` ends, and the text up to the last of them.
fn cut_to(ends: &mut Vec<usize>, text: &mut Vec<u8>, kept: usize)
    requires { kept ≤ length ends.old.items }
    ensures ends { ends.new.items ≡ take kept ends.old.items }
    ensures text { text.new.items ≡ take (front_end ends.old.items kept) text.old.items }
{
    if kept == 0 {
        text.clear();
    } else {
        text.truncate(ends[kept - 1]);
    }
    ends.truncate(kept);
}

/// Makes this number of places.
fn make_places(nodes: &mut Vec<u32>, ends: &mut Vec<usize>, places: usize) -> Result<(), AllocError>
    requires { length ends.old.items ≤ length nodes.old.items }
    ensures places { OnOk result (length nodes.new.items ≡ places) }
    ensures keeps { KeepsFronts nodes.old.items ends.old.items nodes.new.items ends.new.items }
{
    ends.truncate(places);
    nodes.resize(places, 0)
}

/// Moves to a node's walk: makes its places, keeps what it shares with the walk before, and writes the rest.
fn go_on(
    links: &[Link],
    nodes: &mut Vec<u32>,
    ends: &mut Vec<usize>,
    text: &mut Vec<u8>,
    node: u32,
) -> Result<(), AllocError>
    requires walk { HasWalk links.now node }
    requires fronts { AreFronts links.now nodes.old.items ends.old.items text.old.items }
    ensures { OnOk result
        (HoldsWalk links.now nodes.new.items ends.new.items text.new.items node) }
{
    let places = links[node as usize - 1].level as usize + 1;
    make_places(nodes, ends, places)?;
    let kept = go_back(links, nodes, ends.len(), node);
    cut_to(ends, text, kept);
    write_on(links, nodes, ends, text)
}

/// The text of the arcs of one walk after another along links: each number after a space. In contracts it is
/// the links and the current text.
///
/// Moving from one walk to the next takes time in proportion to the arcs that they don't share.
#[derive(Drop)]
pub struct ArcTexts<'a> {
    links: &'a [Link],
    /// The nodes of the walk, from its source on.
    nodes: Vec<u32>,
    /// The end of the text of the walk to each of these nodes.
    ends: Vec<usize>,
    text: Vec<u8>,
}

impl<'a> Model for ArcTexts<'a> {
    ghost use Rattle.ea_report.specs.Walks.{AreFronts, Following};

    ghost Value = { Following };

    ghost view = { λ w. record { links = w.links.now; text = w.text.items } };

    ghost invariant = { λ w. AreFronts w.links.now w.nodes.items w.ends.items w.text.items };
}

impl<'a> ArcTexts<'a> {
    /// No walk yet.
    pub fn new(alloc: Global, links: &'a [Link]) -> ArcTexts<'a>
        ensures links { result.links ≡ links.now }
        ensures text { result.text ≡ [] }
    {
        ArcTexts {
            links,
            nodes: Vec::new(alloc),
            ends: Vec::new(alloc),
            text: Vec::new(alloc),
        }
    }

    /// Moves to the walk along the links of a node. If memory is refused, there is no current walk, and the
    /// next call writes its walk whole.
    pub fn go_to(&mut self, node: u32) -> Result<(), AllocError>
        requires { HasWalk self.old.links node }
        ensures links { self.new.links ≡ self.old.links }
        ensures text { OnOk result (self.new.text ≡ arcs_text (linked_walk self.old.links node)) }
    {
        let gone = go_on(
            self.links,
            &mut self.nodes,
            &mut self.ends,
            &mut self.text,
            node,
        );
        if gone.is_err() {
            self.ends.clear();
        }
        gone
    }

    /// The text of the walk's arcs.
    pub fn text(&self) -> &[u8]
        ensures { result.now ≡ self.now.text }
    {
        &self.text
    }
}
