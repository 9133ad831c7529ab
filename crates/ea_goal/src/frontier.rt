//! The open nodes: those on chains first, then the nearest to the target.
ghost use Rattle.std.specs.Prelude.{◌≡◌, ◌≤◌, ◌+◌, ℕ, OnOk, MatchOption, [], length, true};
ghost use Rattle.ea_base.specs.declared.limits.TheConstants.{HORIZON};
ghost use Rattle.ea_goal.specs.Frontiers.{AreBeyond, Closes, Opens, Takes};

use std::alloc::{AllocError, Global};
use std::collections::BinaryHeap;
use std::marker::Model;

/// The greatest number of an entry.
pub(crate) const FARTHEST: u64 = u64::MAX;

/// The most nodes on chains that are taken one after another, before a node is taken by its bound again. Else a search would
/// follow a chain of a million nodes away from its target.
const MOST_PASSED: u32 = 64;

/// An open node: its label, and how far that and its bound are together below the greatest number. The heap
/// gives the greatest first.
#[derive(Clone, Copy, PartialEq, Eq, PartialOrd, Ord)]
pub(crate) struct Entry {
    pub(crate) nearness: u64,
    pub(crate) label: u64,
    pub(crate) node: u32,
}

/// A heap of open nodes, and a stack of those that are on chains. In contracts it is the list of their entries, in no
/// promised order.
#[derive(Drop)]
pub(crate) struct Frontier {
    heap: BinaryHeap<Entry>,
    stack: Vec<Entry>,
    /// How many entries of the stack were taken since the last of the heap.
    passed: u32,
}

impl Model for Frontier {
    ghost use Rattle.std.specs.Prelude.{List, ◌++◌};
    ghost use Rattle.std.specs.BinaryHeap.{heap_items};
    ghost use Rattle.ea_goal.specs.declared.frontier.Entry.{Entry};

    ghost Value = { List Entry };

    ghost view = { λ f. heap_items f.heap ++ f.stack.items };
}

/// Whether the keys of all entries are above a label.
fn are_above(entries: &[Entry], last: u64) -> bool
    ensures { result ≡ true → AreBeyond last entries.now }
{
    for entry in entries {
        if FARTHEST - entry.nearness <= last {
            return false;
        }
    }
    true
}

impl Frontier {
    /// No open node.
    pub(crate) fn new(alloc: Global) -> Frontier
        ensures { result ≡ [] }
    {
        Frontier {
            heap: BinaryHeap::new(alloc),
            stack: Vec::new(alloc),
            passed: 0,
        }
    }

    /// Leaves no node open.
    pub(crate) fn clear(&mut self)
        ensures { self.new ≡ [] }
    {
        self.heap.clear();
        self.stack.clear();
        self.passed = 0;
    }

    /// Opens a node with its label and its bound. An error comes only if memory was refused.
    pub(crate) fn open(&mut self, label: u64, bound: u32, node: u32) -> Result<(), AllocError>
        requires { label ≤ HORIZON }
        ensures { OnOk result (Opens self.old self.new label node (label + bound)) }
    {
        let key = label + u64::from(bound);
        self.heap.push(Entry {
            nearness: FARTHEST - key,
            label,
            node,
        })?;
        Ok(())
    }

    /// Opens a node on a chain with its label. An error comes only if memory was refused.
    pub(crate) fn pass(&mut self, label: u64, node: u32) -> Result<(), AllocError>
        ensures { OnOk result (Opens self.old self.new label node label) }
    {
        self.stack.push(Entry {
            nearness: FARTHEST - label,
            label,
            node,
        })?;
        Ok(())
    }

    /// Whether nodes on chains may be passed through.
    pub(crate) fn may_pass(&self) -> bool {
        self.passed < MOST_PASSED
    }

    /// Whether the keys of all open nodes are above a label.
    fn are_beyond(&self, last: u64) -> bool
        ensures { result ≡ true → AreBeyond last self.now }
    {
        if !self.stack.is_empty() {
            return false;
        }
        are_above(self.heap.as_slice(), last)
    }

    /// Leaves no node open if the keys of all are above a label. The least key comes first, so mostly one look says that
    /// they aren't.
    pub(crate) fn close(&mut self, last: u64)
        ensures { Closes last self.old self.new }
    {
        if self.are_beyond(last) {
            self.clear();
        }
    }

    /// Takes the nearest open node.
    pub(crate) fn take(&mut self) -> Option<Entry>
        ensures { MatchOption result ((length self.old ≡ 0) × (self.new ≡ self.old))
            (Takes self.old self.new) }
    {
        match self.stack.pop() {
            Some(entry) => {
                self.passed = self.passed.saturating_add(1);
                return Some(entry);
            }
            None => {}
        }
        self.passed = 0;
        match self.heap.pop() {
            Some(entry) => Some(entry),
            None => None,
        }
    }
}
