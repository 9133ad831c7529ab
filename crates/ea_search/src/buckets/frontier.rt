//! The frontier: open nodes by their labels, nearly the least first.
ghost use Rattle.std.specs.Prelude.{◌≡◌, ℕ, ◌+◌, ◌<◌, ◌≤◌, [], length, map, IfOk, MatchOption};
ghost use Rattle.ea_search.specs.Frontiers.{AreEntries, HaveNone, HasNone, KeepsWaiting, Puts, Takes};
ghost use Rattle.ea_search.specs.Frontiers.{TakesWaiting, WaitsAt};
ghost use Rattle.ea_search.specs.Searching.{KeepsRoom};
ghost use Rattle.ea_search.specs.Underway.{bound_of};

use crate::labels::table::Table;
use crate::prefetch::{AHEAD, touch_entries, touch_first_arcs};
use crate::queue::open::Open;
use crate::queue::open_list::Opens;
use ea_road::{Network, window_bits};
use std::alloc::{AllocError, Global};
use std::marker::Model;

/// The list of the hand: the entries scanned next, whose memory is prefetched.
const HAND: usize = 0;

/// The list of the entries whose times lie in the window.
const WINDOW: usize = 1;

/// The number of lists: the hand, the window, and one for each bit of a time.
const LISTS: usize = 66;

/// Prefetching fewer entries doesn't pay.
const FEW: usize = 4;

/// A radix queue over windows of times; an entry is a label and its node. The highest bit in which an entry's
/// time differs from the window's decides its list, so the window's list is unordered. When the window is
/// empty, the next list is spread over the lower ones. A node whose push finds no memory waits in `todo`.
#[derive(Drop)]
pub struct Frontier {
    lists: Vec<Vec<(u64, u32)>>,
    todo: Open,
    /// Some time in the window.
    low: u64,
    /// A mask of the low bits in which times of the window may differ.
    within: u64,
    /// The number of entries taken since the window last became narrower.
    drawn: u64,
    /// The number of entries that were pushed into the window since then. It bounds the nodes scanned twice.
    again: u64,
    /// By how many bits the window becomes narrower the next time.
    step: u32,
    /// Consumed so that the compiler keeps the prefetch loads.
    seen: u64,
}

impl Model for Frontier {
    ghost use Rattle.std.specs.Prelude.{◌≡◌, map, length};
    ghost use Rattle.ea_search.specs.Frontiers.{AreEntries, Frontage};

    ghost Value = { Frontage };

    ghost view = { λ f. record { lists = map (λ l. l.items) f.lists.items; todo = f.todo } };

    ghost invariant = { λ f. (length f.lists.items ≡ 66)
        × AreEntries f.todo.nodes (map (λ l. l.items) f.lists.items) };
}

/// Empty lists.
pub fn empty_lists(alloc: Global) -> Result<Vec<Vec<(u64, u32)>>, AllocError>
    ensures length { IfOk result (λ lists. length lists.items ≡ 66) }
    ensures empty { IfOk result (λ lists. HaveNone (map (λ l. l.items) lists.items)) }
{
    let mut lists = Vec::with_capacity(alloc, LISTS)?;
    'adding: for _ in 0..LISTS {
        lists.push(Vec::new(alloc))?;
    }
    Ok(lists)
}

impl Frontier {
    /// A frontier over these lists and waiting nodes. The window holds between half of `width` and `width`
    /// times; if `width` is 0, one time.
    pub fn over(lists: Vec<Vec<(u64, u32)>>, todo: Open, width: u64) -> Frontier
        requires length { length lists.items ≡ 66 }
        requires entries { AreEntries todo.nodes (map (λ l. l.items) lists.items) }
        ensures { result ≡ record { lists = map (λ l. l.items) lists.items; todo = todo } }
    {
        Frontier {
            lists,
            todo,
            low: 0,
            within: window_bits(width),
            drawn: 0,
            again: 0,
            step: 2,
            seen: 0,
        }
    }

    /// The list to which a time belongs.
    fn list_of(&self, time: u64) -> usize
        ensures { result < 66 }
    {
        let differing = (time ^ self.low) & !self.within;
        WINDOW + 64 - differing.leading_zeros() as usize
    }

    /// Pushes an entry into a list; if memory is refused, the node waits in `todo`.
    fn put(&mut self, list: usize, time: u64, node: u32)
        requires list { list < 66 }
        requires node { (0 < node) × (node ≤ self.old.todo.nodes) }
        ensures { Puts (time, node) self.old self.new }
    {
        match self.lists[list].push((time, node)) {
            Ok(()) => {}
            Err(_) => self.todo.add(node),
        }
    }

    /// Pops an entry of a list.
    fn pop(&mut self, list: usize) -> Option<(u64, u32)>
        requires { list < 66 }
        ensures { MatchOption result ((self.new ≡ self.old) × HasNone self.old.lists list)
            (λ entry. (label : ℕ → ℕ) → Takes label entry self.old self.new) }
    {
        self.lists[list].pop()
    }

    /// Pops an entry of the lowest list that has one.
    fn pop_lowest(&mut self) -> Option<(u64, u32)>
        ensures { MatchOption result ((self.new ≡ self.old) × HaveNone self.old.lists)
            (λ entry. (label : ℕ → ℕ) → Takes label entry self.old self.new) }
    {
        for list in 0..LISTS {
            if let Some(entry) = self.pop(list) {
                return Some(entry);
            }
        }
        None
    }

    /// Moves the entries of a list to another.
    fn pour(&mut self, from: usize, to: usize)
        requires from { from < 66 }
        requires to { to < 66 }
        ensures { (label : ℕ → ℕ) → KeepsWaiting label self.old self.new }
    {
        'moving: for _ in 0..self.lists[from].len() {
            let Some((time, node)) = self.pop(from) else {
                return;
            };
            self.put(to, time, node);
        }
    }

    /// The least time in a list.
    fn least_of(&self, list: usize) -> u64
        requires { list < 66 }
    {
        let mut least = u64::MAX;
        for entry in &self.lists[list] {
            least = least.min(entry.0);
        }
        least
    }

    /// Moves the window to the least time of a list, and its entries to the lists to which they belong then.
    fn spread(&mut self, list: usize)
        requires { list < 66 }
        ensures { (label : ℕ → ℕ) → KeepsWaiting label self.old self.new }
    {
        self.low = self.least_of(list);
        'moving: for _ in 0..self.lists[list].len() {
            let Some((time, node)) = self.pop(list) else {
                return;
            };
            let to = self.list_of(time);
            self.put(to, time, node);
        }
    }

    /// The lowest list with an entry, the hand left out; the window if all are empty.
    fn lowest(&self) -> usize
        ensures { result < 66 }
    {
        for list in WINDOW..LISTS {
            if !self.lists[list].is_empty() {
                return list;
            }
        }
        WINDOW
    }

    /// If the window is empty, spreads the next list.
    fn advance(&mut self)
        ensures { (label : ℕ → ℕ) → KeepsWaiting label self.old self.new }
    {
        let list = self.lowest();
        if list > WINDOW {
            self.spread(list);
        }
    }

    /// Narrows the window, each time by more bits, if too many of its entries were pushed by scans of the
    /// window itself.
    fn narrow(&mut self)
        ensures { (label : ℕ → ℕ) → KeepsWaiting label self.old self.new }
    {
        if self.within == 0 || (self.again <= self.drawn / 2 + 16 && self.seen != u64::MAX) {
            return;
        }
        self.within = self.within.checked_shr(self.step).unwrap_or(0);
        self.step = self.step.saturating_mul(2);
        self.drawn = 0;
        self.again = 0;
        self.pour(WINDOW, HAND);
        self.spread(HAND);
    }

    /// Moves entries from the window to the hand, and drops the stale ones.
    fn draw<L: Table>(&mut self, table: &L)
        requires { length (L.labels table.now) ≡ self.old.todo.nodes }
        ensures { KeepsWaiting (bound_of (L.labels table.now)) self.old self.new }
    {
        'drawing: for _ in 0..AHEAD {
            let Some((time, node)) = self.pop(WINDOW) else {
                return;
            };
            if table.label(node) == time {
                self.put(HAND, time, node);
            }
        }
    }

    /// Fills the hand if the window has enough entries. Prefetches the offsets and the first arc of each of
    /// its nodes, so that many loads overlap.
    #[inline(never)]
    fn refill<L: Table>(&mut self, network: &Network, table: &L)
        requires { length (L.labels table.now) ≡ self.old.todo.nodes }
        ensures { KeepsWaiting (bound_of (L.labels table.now)) self.old self.new }
    {
        self.narrow();
        self.advance();
        let window = &self.lists[WINDOW];
        if window.len() < FEW {
            self.drawn = self.drawn.wrapping_add(1);
            return;
        }
        let first = window.len().saturating_sub(AHEAD);
        let places = touch_entries(network, table, &window[first..]);
        self.draw(table);
        let hand = &self.lists[HAND];
        self.drawn = self.drawn.wrapping_add(hand.len() as u64);
        let arcs = touch_first_arcs(network, hand);
        self.seen ^= places ^ arcs;
    }

    /// Pops an entry of nearly the least time. None if only stale entries were left.
    #[inline(always)]
    pub fn take<L: Table>(&mut self, network: &Network, table: &L) -> Option<(u64, u32)>
        requires { length (L.labels table.now) ≡ self.old.todo.nodes }
        ensures { MatchOption result
            (KeepsWaiting (bound_of (L.labels table.now)) self.old self.new × HaveNone self.new.lists)
            (λ found. Takes (bound_of (L.labels table.now)) found self.old self.new) }
    {
        if let Some(entry) = self.pop(HAND) {
            return Some(entry);
        }
        self.refill(network, table);
        self.pop_lowest()
    }

    /// Pops an entry of the hand.
    #[inline(always)]
    pub fn take_drawn(&mut self) -> Option<(u64, u32)>
        ensures { MatchOption result (self.new ≡ self.old)
            (λ entry. (label : ℕ → ℕ) → Takes label entry self.old self.new) }
    {
        self.pop(HAND)
    }

    /// The number of entries in the hand.
    pub(crate) fn in_hand(&self) -> usize {
        self.lists[HAND].len()
    }

    /// Some time in the window: up to about there nodes were taken.
    pub fn low(&self) -> u64 {
        self.low
    }

    /// Leaves no entry and no waiting node.
    pub fn clear(&mut self)
        ensures none { HaveNone self.new.lists }
        ensures nobody { self.new.todo.waiting ≡ [] }
        ensures room { KeepsRoom self.old.todo self.new.todo }
    {
        'emptying: while let Some(_) = self.pop_lowest() {}
        'releasing: while let Some(_) = self.take_waiting() {}
    }

    /// Takes the node that has waited longest in `todo`.
    fn take_waiting(&mut self) -> Option<u32>
        ensures { MatchOption result ((self.old.todo.waiting ≡ []) × (self.new ≡ self.old))
            (λ node. TakesWaiting node self.old self.new) }
    {
        self.todo.take()
    }

    /// Pushes the nodes that wait in `todo`, with their labels.
    pub fn move_in<L: Table>(&mut self, table: &L)
        requires { length (L.labels table.now) ≡ self.old.todo.nodes }
        ensures rest { (node : ℕ) → WaitsAt self.old (bound_of (L.labels table.now)) node
            → WaitsAt self.new (bound_of (L.labels table.now)) node }
        ensures room { KeepsRoom self.old.todo self.new.todo }
    {
        'moving: for _ in 0..self.todo.len() {
            let Some(node) = self.take_waiting() else {
                return;
            };
            let time = table.label(node);
            let place = self.list_of(time);
            self.put(place, time, node);
        }
    }

    /// The lists, and the waiting nodes.
    pub fn into_parts(self) -> (Vec<Vec<(u64, u32)>>, Open)
        ensures length { length result.0.items ≡ 66 }
        ensures lists { map (λ l. l.items) result.0.items ≡ self.lists }
        ensures todo { result.1 ≡ self.todo }
    {
        (self.lists, self.todo)
    }
}

impl Opens for Frontier {
    ghost use Rattle.ea_search.specs.Frontiers.{WaitsAt, entries_in};

    ghost room = { λ frontier.
        record { nodes = frontier.todo.nodes; walks = frontier.todo.walks } };

    ghost waits = { λ frontier label node. WaitsAt frontier label node };

    ghost size = { λ frontier. entries_in frontier };

    fn open(&mut self, node: u32, time: u64) {
        let list = self.list_of(time);
        self.again = self.again.wrapping_add(u64::from(list == WINDOW));
        self.put(list, time, node);
    }
}
