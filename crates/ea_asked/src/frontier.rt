//! The open nodes, those with the least labels nearly first.
ghost use Rattle.std.specs.Prelude.{◌≡◌, ◌≤◌, ℕ, All, OnOk, MatchOption, [], length};
ghost use Rattle.std.specs.List.Sorted.{IsPermutation};
ghost use Rattle.ea_goal.specs.Frontiers.{Opens, Takes};
ghost use Rattle.ea_asked.specs.Open.{AreFrom, IsFrom, met};

use std::alloc::{AllocError, Global};
use std::marker::Model;

/// An open node with its label.
#[derive(Clone, Copy)]
pub(crate) struct Entry {
    pub(crate) label: u64,
    pub(crate) node: u32,
}

/// A window of time is followed by one twice as long if it began with fewer than one in this many of the open nodes: those beyond it are looked
/// at whenever it moves on.
const MOST_BEYOND: usize = 64;

/// A window that is longer than usual is followed by one half as long if it began with more than one in this many of them.
const FEW_BEYOND: usize = 8;

/// A window gives way to one half as long once this many times as many nodes were taken as it began with, and some more: then most labels in it
/// fall again and again.
const MOST_TAKEN: usize = 4;

/// A window counts as if it began with this many nodes more, and with one in `MOST_BEYOND` of the open nodes, since all of them are looked at when
/// it gives way.
const SOME_INSIDE: usize = 4;

/// Open nodes. Those with labels in a window of time are behind all others and are taken first, the last one first, so a node may be taken before
/// another whose label is less by no more than the window is long. In contracts it is the list of its entries, in no promised order.
#[derive(Drop)]
pub(crate) struct Frontier {
    entries: Vec<Entry>,
    /// No entry has a label below this one.
    least: u64,
    /// The place of the first entry of the window.
    begin: usize,
    /// The time at which the window ends.
    end: u64,
    /// How long the window is, and how long windows are usually.
    length: u64,
    usual: u64,
    /// With how many entries the window began, and how many were taken since.
    inside: usize,
    taken: usize,
}

impl Model for Frontier {
    ghost use Rattle.std.specs.Prelude.{List, All, map};
    ghost use Rattle.ea_goal.specs.declared.frontier.Entry.{Entry as Met};
    ghost use Rattle.ea_asked.specs.Open.{IsFrom, met};

    ghost Value = { List Met };

    ghost view = { λ f. map met f.entries.items };

    ghost invariant = { λ f. All (IsFrom f.least) f.entries.items };
}

/// The least label of some entries; the greatest number if there is none.
fn least_label(entries: &[Entry]) -> u64
    ensures { All (IsFrom result) entries.now }
{
    let mut least = u64::MAX;
    for entry in entries {
        least = least.min(entry.label);
    }
    least
}

/// Moves the entries with labels below a time behind all others. Returns the place of the first of them.
fn divide(entries: &mut [Entry], end: u64) -> usize
    ensures { IsPermutation entries.old entries.new }
{
    let mut begin = 0;
    for place in 0..entries.len() {
        if entries[place].label >= end {
            entries.swap(begin, place);
            begin += 1;
        }
    }
    begin
}

impl Frontier {
    /// No open node.
    pub(crate) fn new(alloc: Global) -> Frontier
        ensures { result ≡ [] }
    {
        Frontier {
            entries: Vec::new(alloc),
            least: u64::MAX,
            begin: 0,
            end: 0,
            length: 1,
            usual: 1,
            inside: 0,
            taken: 0,
        }
    }

    /// Leaves no node open.
    pub(crate) fn clear(&mut self)
        ensures { self.new ≡ [] }
    {
        self.entries.clear();
        self.least = u64::MAX;
        self.begin = 0;
        self.end = 0;
        self.inside = 0;
        self.taken = 0;
    }

    /// Makes windows about so long; a search may choose any length.
    pub(crate) fn pace(&mut self, usual: u64)
        ensures { self.new ≡ self.old }
    {
        self.usual = usual.max(1);
        self.length = self.usual;
    }

    /// Opens a node with its label. An error comes only if memory was refused.
    pub(crate) fn open(&mut self, label: u64, node: u32) -> Result<(), AllocError>
        ensures { OnOk result (Opens self.old self.new label node label) }
    {
        self.entries.push(Entry { label, node })?;
        self.least = self.least.min(label);
        if label >= self.end {
            let last = self.entries.len() - 1;
            let place = self.begin.min(last);
            self.entries.swap(place, last);
            self.begin = place + 1;
        }
        Ok(())
    }

    /// A time that no label of an open node is below; none if no node is open.
    pub(crate) fn least(&self) -> Option<u64>
        ensures { MatchOption result (length self.now ≡ 0) (λ label. AreFrom label self.now) }
    {
        if self.entries.is_empty() {
            None
        } else if self.begin >= self.entries.len() {
            // The window is empty, so the next one begins later.
            Some(least_label(&self.entries))
        } else {
            Some(self.least)
        }
    }

    /// How long the next window is: as long as usual, if the open nodes beyond this one and those that were taken allow that.
    fn next_length(&self) -> u64 {
        let beyond = self.entries.len();
        let is_short = self.length < self.usual && self.taken / 2 <= self.inside;
        if is_short || beyond / MOST_BEYOND > self.inside {
            self.length.saturating_mul(2)
        } else if self.length > self.usual && beyond / FEW_BEYOND < self.inside {
            self.length / 2
        } else {
            self.length
        }
    }

    /// Whether so few labels in the window are final that it had better be shorter.
    fn is_too_long(&self) -> bool {
        let looked_at = self.entries.len() / MOST_BEYOND;
        let enough = self
            .inside
            .saturating_add(looked_at)
            .saturating_add(SOME_INSIDE);
        self.taken / MOST_TAKEN > enough
    }

    /// Begins a window of this length at the least label.
    fn advance(&mut self, length: u64)
        ensures { IsPermutation self.old self.new }
    {
        self.length = length;
        self.least = least_label(&self.entries);
        self.end = self.least.saturating_add(length);
        self.begin = divide(self.entries.as_mut_slice(), self.end);
        self.inside = self.entries.len().saturating_sub(self.begin);
        self.taken = 0;
    }

    /// Moves on to the next window with entries if there is none in this one, or to a shorter one if too many were taken.
    fn settle(&mut self)
        ensures { IsPermutation self.old self.new }
    {
        if self.begin >= self.entries.len() {
            self.advance(self.next_length());
        } else if self.is_too_long() {
            self.advance((self.length / 2).max(1));
        }
        self.taken = self.taken.saturating_add(1);
    }

    /// Takes an open node of the window, and moves on to the next one if it is empty.
    pub(crate) fn take(&mut self) -> Option<Entry>
        ensures { MatchOption result ((length self.old ≡ 0) × (self.new ≡ self.old))
            (λ entry. Takes self.old self.new (met entry)) }
    {
        self.settle();
        match self.entries.pop() {
            Some(entry) => Some(entry),
            None => None,
        }
    }
}
