//! Lists for the replay: nodes with several arcs at their labels, and nodes whose level changed.
ghost use Rattle.std.specs.Prelude.{◌≡◌, ◌∷◌, ◌++◌, [], IsTrue};
ghost use Rattle.ea_paths.specs.Replayed.{WakesTails};

use ea_search::Waiting;
use std::alloc::Global;

/// The budget of looks at list entries is FOR_EACH for each node and IN_ANY_CASE more. Beyond it, finding all
/// links anew may cost less.
const FOR_EACH: usize = 16;

const IN_ANY_CASE: usize = 65_536;

/// A change of a level costs this many looks; a rise costs one more for each entry.
const CHANGE: usize = 256;

/// Nodes with several arcs at their labels, and nodes whose level changed.
#[derive(Drop)]
pub(crate) struct Ties {
    /// Nodes that have or had several arcs at their labels, each with the tail of such an arc.
    pub list: Vec<(u32, u32)>,
    /// Nodes whose level changed, so that their heads may lie too low or too high. Correctness doesn't depend
    /// on it: levels are checked afterwards.
    pub changed: Vec<u32>,
    /// The looks that are left in the budget.
    left: usize,
}

impl Ties {
    /// Empty lists.
    pub(crate) fn none(alloc: Global) -> Ties {
        Ties {
            list: Vec::new(alloc),
            changed: Vec::new(alloc),
            left: 0,
        }
    }

    /// Empties the lists, before the replay in a network of this number of nodes.
    pub(crate) fn clear(&mut self, nodes: usize)
        ensures { self.new.list.items ≡ [] }
    {
        self.list.clear();
        self.changed.clear();
        self.left = nodes.saturating_mul(FOR_EACH).saturating_add(IN_ANY_CASE);
    }

    /// Lists a node with the tails of two arcs. Returns false if memory was refused.
    pub(crate) fn tie(&mut self, node: u32, from: u32, other: u32) -> bool
        ensures { IsTrue result
            → self.new.list.items ≡ self.old.list.items ++ (node, from) ∷ (node, other) ∷ [] }
    {
        self.list.push((node, from)).is_ok() && self.list.push((node, other)).is_ok()
    }

    /// Lists a node whose level changed, at a cost of `looks` and those of a change. Returns false if memory
    /// was refused or the budget is spent.
    fn change(&mut self, node: u32, looks: usize) -> bool
        ensures { self.new.list.items ≡ self.old.list.items }
    {
        let looks = looks.saturating_add(CHANGE);
        if self.left < looks {
            return false;
        }
        self.left -= looks;
        self.changed.push(node).is_ok()
    }

    /// Lists a node whose level fell. Returns false if memory was refused or the budget is spent.
    pub(crate) fn fall(&mut self, node: u32) -> bool
        ensures { self.new.list.items ≡ self.old.list.items }
    {
        self.change(node, 0)
    }

    /// A node's level rose, so that another of its arcs may be better: the tails with which it is listed
    /// wait, to offer theirs again. Returns false if memory was refused, a tail is no node, or the budget is
    /// spent.
    pub(crate) fn rise(&mut self, node: u32, waiting: &mut Waiting) -> bool
        ensures list { self.new.list.items ≡ self.old.list.items }
        ensures woken { WakesTails self.old.list.items node result waiting.old waiting.new }
    {
        for tie in &self.list {
            if tie.0 == node {
                if !waiting.wake(tie.1) {
                    return false;
                }
            }
        }
        let looks = self.list.len();
        self.change(node, looks)
    }
}
