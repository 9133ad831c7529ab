//! The nodes that a search reached, so that the next search resets only these.
ghost use Rattle.std.specs.Prelude.{◌≡◌, ℕ, length, replicate};
ghost use Rattle.ea_road.specs.declared.TheConstants.{NONE};
ghost use Rattle.ea_search.specs.Links.{link, no_link};
ghost use Rattle.ea_search.specs.Listings.{AreLabelsListed, AreLinksListed, IsListed, KeepsListed};
ghost use Rattle.ea_search.specs.Listings.{ResetsAt, nothing};
ghost use Rattle.ea_search.specs.Underway.{bound_of};

use crate::link::{Link, NO_LINK};
use ea_road::NONE;
use std::alloc::Global;
use std::marker::Model;

/// At most one node in PART is listed. If more were, resetting all costs less.
const PART: usize = 16;

/// Reached nodes, one for each fall of a label. If there are too many, all nodes count as listed.
#[derive(Drop)]
pub struct Listed {
    nodes: Vec<u32>,
    most: usize,
    all: bool,
}

impl Model for Listed {
    ghost use Rattle.ea_search.specs.Listings.{Listing};

    ghost Value = { Listing };

    ghost view = { λ l. record { nodes = l.nodes.items; all = l.all } };
}

/// Resets the label of a node.
fn take_label(table: &mut [u64], node: u32)
    ensures places { length table.new ≡ length table.old }
    ensures resets { ResetsAt node NONE (bound_of table.old) (bound_of table.new) }
{
    if 0 < node {
        let place = node as usize - 1;
        if place < table.len() {
            table[place] = NONE;
        }
    }
}

/// Resets the link of a node.
fn take_link(links: &mut [Link], node: u32)
    ensures places { length links.new ≡ length links.old }
    ensures resets { ResetsAt node no_link (link links.old) (link links.new) }
{
    if 0 < node {
        let place = node as usize - 1;
        if place < links.len() {
            links[place] = NO_LINK;
        }
    }
}

impl Listed {
    /// No listed node, in a network with this number of nodes.
    pub fn new(alloc: Global, nodes: u32) -> Listed
        ensures { result ≡ nothing }
    {
        Listed {
            nodes: Vec::new(alloc),
            most: nodes as usize / PART,
            all: false,
        }
    }

    /// Lists a node.
    pub fn add(&mut self, node: u32)
        ensures there { IsListed self.new node }
        ensures kept { KeepsListed (IsListed self.old) (IsListed self.new) }
    {
        if self.all {
            return;
        }
        if self.nodes.len() >= self.most {
            self.all = true;
            return;
        }
        match self.nodes.push(node) {
            Ok(()) => {}
            Err(_) => self.all = true,
        }
    }

    /// Lists all nodes.
    pub fn add_all(&mut self)
        ensures { (node : ℕ) → IsListed self.new node }
    {
        self.all = true;
    }

    /// Resets the labels and links of the listed nodes, and empties the list.
    pub fn put_back(&mut self, table: &mut [u64], links: &mut [Link])
        requires labels { AreLabelsListed table.old (IsListed self.old) }
        requires links { AreLinksListed links.old (IsListed self.old) }
        ensures nothing { self.new ≡ nothing }
        ensures labels { table.new ≡ replicate (length table.old) NONE }
        ensures links { links.new ≡ replicate (length links.old) no_link }
    {
        if self.all {
            table.fill(NONE);
            links.fill(NO_LINK);
            self.nodes.clear();
            self.all = false;
            return;
        }
        while let Some(node) = self.nodes.pop() {
            take_label(table, node);
            take_link(links, node);
        }
    }
}
