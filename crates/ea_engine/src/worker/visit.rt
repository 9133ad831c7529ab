//! A worker visits an entry.
ghost use Rattle.std.specs.Prelude.{◌≡◌, true, None, IfSome};
ghost use Rattle.ea_road.specs.Roads.{IsNode};
ghost use Rattle.ea_engine.specs.Equipped.{MayScan};
ghost use Rattle.ea_engine.specs.Grounds.{tables_of};
ghost use Rattle.ea_engine.specs.Reads.{TellsCut};
ghost use Rattle.ea_engine.specs.Steps.{VisitsEntry};
ghost use Rattle.ea_engine.specs.Turns.{is_idle, is_refused, is_leave, IsIdleTurn};

use crate::run::ground::Ground;
use crate::run::problem::Posed;
use crate::worker::means::Means;
use crate::worker::scan::scan_entry;
use crate::worker::turn::{Flow, Turn, TurnEnd, TurnKind};
use ea_labels::{LabelSeat, Labels};
use ea_pool::{Batch, Entry, EntryHeap};
use ea_road::Known;
use ea_travel_times::TravelTimes;
use rand_core::Rng;
use std::alloc::Global;

impl TurnKind {
    /// Whether the turn found nothing to pop.
    pub(crate) fn is_idle(self) -> bool
        ensures { result ≡ is_idle self }
    {
        matches!(self, TurnKind::Empty | TurnKind::Busy)
    }

    /// Whether the pool refused an entry.
    pub(crate) fn is_refused(self) -> bool
        ensures { result ≡ is_refused self }
    {
        matches!(self, TurnKind::Refused)
    }
}

impl Flow {
    /// Whether the worker ends.
    pub(crate) fn is_leave(self) -> bool
        ensures { result ≡ is_leave self }
    {
        matches!(self, Flow::Leave)
    }
}

/// A turn that popped and found nothing.
pub(crate) fn idle_turn(number: u64, kind: TurnKind) -> TurnEnd
    requires { is_idle kind ≡ true }
    ensures { IsIdleTurn number kind result }
{
    TurnEnd {
        turn: Turn {
            number,
            kind,
            node: 0,
            key: 0,
            lowered: 0,
        },
        broken: None,
        pops: 1,
        pushes: 0,
    }
}

// Whether the key is above the target's label, in a pair query.
fn is_above_target<K: Known>(
    labels: &Labels<K>,
    seat: &mut LabelSeat<K>,
    target: Option<u32>,
    entry: Entry,
) -> bool
    requires seat { seat.old.table ≡ labels.now.table }
    requires target { IfSome target (λ node. IsNode labels.now.nodes node) }
    ensures { TellsCut target seat.old seat.new entry result }
{
    match target {
        None => false,
        Some(node) => labels.read(seat, node) < entry.key,
    }
}

// A turn that visited an entry and lowered nothing.
fn visited_turn(number: u64, kind: TurnKind, entry: Entry) -> TurnEnd
    ensures { result ≡ record {
      turn = record { number = number; kind = kind; node = entry.node; key = entry.key; lowered = 0 };
      broken = None;
      pops = 0;
      pushes = 0;
    } }
{
    TurnEnd {
        turn: Turn {
            number,
            kind,
            node: entry.node,
            key: entry.key,
            lowered: 0,
        },
        broken: None,
        pops: 0,
        pushes: 0,
    }
}

/// Reads the label of a popped entry's node, and scans the entry unless it is stale or above the target's
/// label.
#[inline(always)]
pub fn visit<K: Known + Posed, E: EntryHeap, T: TravelTimes, R: Rng>(
    ground: &Ground<'_, K, T, E>,
    target: Option<u32>,
    means: &mut Means<K, R, E>,
    fresh: &mut Batch,
    batch: usize,
    number: u64,
    entry: Entry,
) -> TurnEnd
    requires entry { MayScan K.is_known K.problem T.answers T.classes ground.now
        batch means.old fresh.old.items entry }
    requires target { target ≡ K.problem.query.target }
    ensures { VisitsEntry K.is_known K.problem (tables_of ground.now) R.stream batch
        means.old fresh.old.items means.new fresh.new.items entry number result }
{
    let label = ground.labels.read(&mut means.label_seat, entry.node);
    if label < entry.key {
        return visited_turn(number, TurnKind::Stale, entry);
    }
    if is_above_target(ground.labels, &mut means.label_seat, target, entry) {
        return visited_turn(number, TurnKind::Cut, entry);
    }
    let end = scan_entry(ground, means, fresh, batch, entry);
    if end.refused {
        let mut turn = visited_turn(number, TurnKind::Refused, entry);
        turn.turn.lowered = end.lowered;
        turn.pushes = end.pushes;
        turn.broken = Some(entry);
        return turn;
    }
    let mut turn = visited_turn(number, TurnKind::Scanned, entry);
    turn.turn.lowered = end.lowered;
    turn.pushes = end.pushes;
    turn
}
