//! Candidates: arrivals of several scans, gathered before any is offered.
ghost use Rattle.std.specs.Prelude.{◌≡◌, ◌+◌, ◌<◌, ◌≤◌, [], ◌∷◌, ◌++◌, length, Contains, IsTrue};
ghost use Rattle.ea_road.specs.Roads.{leaving};
ghost use Rattle.ea_search.specs.Candidates.{Gathered, Offered};
ghost use Rattle.ea_search.specs.declared.buckets.candidates.Candidate.{Candidate};
ghost use Rattle.ea_search.specs.Scans.{number_at};
ghost use Rattle.ea_search.specs.Searching.{CanBeOffered, CanRelax, CanRelaxFrom, KeepsSearch};
ghost use Rattle.ea_search.specs.Underway.{bound_of};

use crate::finishing_pass::lower;
use crate::labels::table::Table;
use crate::queue::open_list::Opens;
use ea_base::HORIZON;
use ea_road::{Arc, Network};
use ea_travel_times::TravelTimes;
use std::marker::Model;

/// The most candidates.
const ROOM: usize = 128;

/// An arrival at `node` by the arc from `from` at this place among its leaving arcs.
#[derive(Clone, Copy, Drop)]
struct Candidate {
    time: u64,
    node: u32,
    from: u32,
    place: usize,
}

/// Candidates in the order in which they were gathered. Comparing a candidate with its node's label takes no
/// branch: the branch would often be mispredicted. Nearly all that are kept are offered.
#[derive(Drop)]
pub struct Candidates {
    list: [Candidate; ROOM],
    count: usize,
}

impl Model for Candidates {
    ghost use Rattle.std.specs.Prelude.{◌≡◌, ◌≤◌, List, length, take};
    ghost use Rattle.ea_search.specs.declared.buckets.candidates.Candidate.{Candidate};

    ghost Value = { List Candidate };

    ghost view = { λ c. take c.count c.list };

    ghost invariant = { λ c. (c.count ≤ 128) × (length c.list ≡ 128) };
}

impl Candidates {
    /// No candidates.
    pub fn none() -> Candidates
        ensures { result ≡ [] }
    {
        let none = Candidate {
            time: 0,
            node: 0,
            from: 0,
            place: 0,
        };
        Candidates {
            list: [none; ROOM],
            count: 0,
        }
    }

    /// Adds a candidate if its time is at most `last`.
    #[inline(always)]
    fn add(&mut self, candidate: Candidate, last: u64)
        requires { length self.old < 128 }
        ensures in_time { candidate.time ≤ last
            → self.new ≡ self.old ++ candidate ∷ [] }
        ensures late { last < candidate.time → self.new ≡ self.old }
    {
        // `count` is below ROOM, so the remainder is `count`. It lets the compiler keep `count` in a
        // register.
        self.list[self.count % ROOM] = candidate;
        self.count += usize::from(candidate.time <= last);
    }

    /// Adds the arrival by one arc, left at `departure`, if it is no later than the label of the arc's head.
    /// `place` is the arc's place among the arcs that leave its tail.
    #[inline(always)]
    fn look_at<T: TravelTimes, L: Table>(
        &mut self,
        network: &Network,
        times: &T,
        table: &L,
        place: usize,
        arc: Arc,
        departure: u64,
    )
        requires can { CanRelax network.now (T.classes times.now) (L.labels table.now) place arc departure }
        requires room { length self.old < 128 }
        ensures gathered { Gathered network.now (T.answers times.now) arc.tail departure
            (number_at network.now arc.tail place ∷ []) (L.labels table.now) self.old self.new }
        ensures room { length self.new ≤ length self.old + 1 }
    {
        network.keeps_limits();
        let last = table.last(arc.head);
        // An arc arrives no earlier than it is left. For a plain arc, computing the arrival costs less than
        // this test.
        if arc.class > 0 {
            if last < departure {
                return;
            }
        }
        let time = times.arrive(arc.class, u64::from(arc.weight), departure);
        let candidate = Candidate {
            time,
            node: arc.head,
            from: arc.tail,
            place,
        };
        self.add(candidate, last);
    }

    /// Adds the arrivals by the arcs that leave a node, left at its label. Returns false, and changes
    /// nothing, if they might not fit.
    #[inline(always)]
    pub fn gather<T: TravelTimes, L: Table>(
        &mut self,
        network: &Network,
        times: &T,
        table: &L,
        node: u32,
        departure: u64,
    ) -> bool
        requires { CanRelaxFrom network.now (T.classes times.now) (L.labels table.now) node departure }
        ensures gathered { IsTrue result → Gathered network.now (T.answers times.now) node
            departure (leaving network.now node) (L.labels table.now) self.old self.new }
        ensures crowded { (IsTrue result → ⊥) → self.new ≡ self.old }
        ensures only { length self.old + length (leaving network.now node) ≤ 128 → IsTrue result }
    {
        let arcs = network.leaving(node).arcs;
        if arcs.len() > ROOM - self.count {
            return false;
        }
        for place in 0..arcs.len() {
            self.look_at(
                network,
                times,
                table,
                place,
                arcs[place].with_tail(node),
                departure,
            );
        }
        true
    }

    /// Offers each candidate to its node: if the node's label is above it, the label falls and the node is
    /// opened. No candidate is left.
    pub fn offer<L: Table, W: Opens>(&mut self, table: &mut L, todo: &mut W)
        requires { (c : Candidate) → Contains self.old c
            → CanBeOffered (W.room todo.old).nodes (L.labels table.old) c.node c.time }
        ensures none { self.new ≡ [] }
        ensures offered { Offered self.old (L.labels table.old)
            (W.waits todo.old (bound_of (L.labels table.old))) (L.met table.old) (L.had table.old)
            (L.labels table.new)
            (W.waits todo.new (bound_of (L.labels table.new))) (L.met table.new) (L.had table.new) }
        ensures keeps { KeepsSearch
            (L.labels table.old) (L.lists table.old) (W.room todo.old) (W.size todo.old)
            (L.labels table.new) (L.lists table.new) (W.room todo.new) (W.size todo.new) }
    {
        for place in 0..self.count {
            let c = self.list[place];
            lower(table, todo, c.node, c.time, c.from, c.place);
        }
        self.count = 0;
    }
}
