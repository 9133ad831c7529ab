//! The labels of nodes during a search, and what is recorded beside them.
ghost use Rattle.std.specs.Prelude.{◌≡◌, ℕ, ◌<◌, ◌≤◌, List, length, min};
ghost use Rattle.ea_base.specs.declared.limits.TheConstants.{HORIZON};
ghost use Rattle.ea_search.specs.Listings.{KeepsListed};
ghost use Rattle.ea_search.specs.Tables.{CanFallTo, NotesFall, NotesMeeting, NotesStart, SetsLabel};
ghost use Rattle.ea_search.specs.Underway.{bound_of};

use crate::labels::reached_nodes::Listed;
use ea_base::HORIZON;

/// Labels, and what is recorded beside them (reached nodes, a log), chosen at compile time.
pub trait Table {
    /// The label of each node, the first that of node 1; NONE if it has none.
    ghost labels: { Self → List ℕ };

    /// Whether a node is listed as reached.
    ghost lists: { Self → ℕ → Type 0 };

    /// The arcs by which labels were met since the labels of their tails last fell: the node, the tail, and
    /// the arc's place from 0 among those that leave the tail. If nothing is recorded, every arc counts as
    /// met.
    ghost met: { Self → ℕ → ℕ → ℕ → Type 0 };

    /// The arcs from which nodes have their labels. If nothing is recorded, no arc.
    ghost had: { Self → ℕ → ℕ → ℕ → Type 0 };

    /// The label of a node.
    fn label(&self, node: u32) -> u64
        requires { (0 < node) × (node ≤ length (labels self.now)) }
        ensures { result ≡ bound_of (labels self.now) node };

    /// The latest time that an offer to a node may have: its label, or HORIZON if it has none.
    fn last(&self, node: u32) -> u64
        requires { (0 < node) × (node ≤ length (labels self.now)) }
        ensures { result ≡ min (bound_of (labels self.now) node) HORIZON };

    /// Prefetches the label of a node. The returned number has no meaning.
    fn touch(&self, node: u32) -> u64;

    /// Lowers the label of a source's node to a departure.
    fn start(&mut self, node: u32, time: u64)
        requires { CanFallTo (labels self.old) node time }
        ensures sets { SetsLabel node time (labels self.old) (lists self.old)
            (labels self.new) (lists self.new) }
        ensures notes { NotesStart node (met self.old) (had self.old) (met self.new) (had self.new) };

    /// Lowers the label of a node to a time, by the arc at this place among those that leave `from`.
    fn fall(&mut self, node: u32, time: u64, from: u32, place: usize)
        requires { CanFallTo (labels self.old) node time }
        ensures sets { SetsLabel node time (labels self.old) (lists self.old)
            (labels self.new) (lists self.new) }
        ensures notes { NotesFall node from place (met self.old) (had self.old)
            (met self.new) (had self.new) };

    /// Meets the label of a node, by the arc at this place among those that leave `from`.
    fn meet(&mut self, node: u32, from: u32, place: usize)
        ensures labels { labels self.new ≡ labels self.old }
        ensures kept { KeepsListed (lists self.old) (lists self.new) }
        ensures notes { NotesMeeting node from place (met self.old) (had self.old)
            (met self.new) (had self.new) };
}

/// The label of a node in a list; 0 outside the list.
pub fn touched(labels: &[u64], node: u32) -> u64 {
    match labels.get((node as usize).wrapping_sub(1)) {
        Some(label) => *label,
        None => 0,
    }
}

/// Labels, and no record beside them.
#[derive(Drop)]
pub struct Bare {
    pub labels: Vec<u64>,
}

impl Table for Bare {
    ghost labels = { λ table. table.labels.items };

    ghost lists = { λ table node. Unit };

    ghost met = { λ table node from place. Unit };

    ghost had = { λ table node from place. ⊥ };

    #[inline(always)]
    fn label(&self, node: u32) -> u64 {
        self.labels[node as usize - 1]
    }

    #[inline(always)]
    fn last(&self, node: u32) -> u64 {
        self.label(node).min(HORIZON)
    }

    #[inline(always)]
    fn touch(&self, node: u32) -> u64 {
        touched(&self.labels, node)
    }

    fn start(&mut self, node: u32, time: u64) {
        self.fall(node, time, 0, 0);
    }

    #[inline(always)]
    fn fall(&mut self, node: u32, time: u64, _from: u32, _place: usize) {
        self.labels[node as usize - 1] = time;
    }

    fn meet(&mut self, _node: u32, _from: u32, _place: usize) {}
}

/// Labels, with the reached nodes listed.
#[derive(Drop)]
pub struct Reached {
    pub labels: Vec<u64>,
    pub listed: Listed,
}

impl Table for Reached {
    ghost use Rattle.ea_search.specs.Listings.{IsListed};

    ghost labels = { λ table. table.labels.items };

    ghost lists = { λ table node. IsListed table.listed node };

    ghost met = { λ table node from place. Unit };

    ghost had = { λ table node from place. ⊥ };

    #[inline(always)]
    fn label(&self, node: u32) -> u64 {
        self.labels[node as usize - 1]
    }

    #[inline(always)]
    fn last(&self, node: u32) -> u64 {
        self.label(node).min(HORIZON)
    }

    #[inline(always)]
    fn touch(&self, node: u32) -> u64 {
        touched(&self.labels, node)
    }

    fn start(&mut self, node: u32, time: u64) {
        self.fall(node, time, 0, 0);
    }

    #[inline(always)]
    fn fall(&mut self, node: u32, time: u64, _from: u32, _place: usize) {
        self.labels[node as usize - 1] = time;
        self.listed.add(node);
    }

    fn meet(&mut self, _node: u32, _from: u32, _place: usize) {}
}
