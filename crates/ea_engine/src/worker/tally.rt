ghost use Rattle.std.specs.Prelude.{◌≡◌};
ghost use Rattle.arrayvec.specs.ArrayVec.{array_vec_len};
ghost use Rattle.ea_engine.specs.Turns.{closed_by, counted, AreNoCounts, MayCloseBy, MayCount};

use crate::worker::counters::Counters;
use crate::worker::turn::{Hand, TurnEnd, TurnKind};

impl Counters {
    /// Counters at 0.
    pub(crate) fn new() -> Counters
        ensures { AreNoCounts result }
    {
        Counters {
            turns: 0,
            empty: 0,
            busy: 0,
            pops: 0,
            popped: 0,
            unvisited: 0,
            stale: 0,
            scanned: 0,
            refused: 0,
            cut: 0,
            lowered: 0,
            pushes: 0,
            pushed: 0,
            returned: 0,
        }
    }

    /// Counts a turn.
    pub(crate) fn count(&mut self, end: &TurnEnd)
        requires { MayCount self.old end.now }
        ensures { self.new ≡ counted self.old end.now }
    {
        self.turns += 1;
        self.pops += end.pops;
        self.lowered += end.turn.lowered;
        self.pushes += end.pushes;
        match end.turn.kind {
            TurnKind::Empty => self.empty += 1,
            TurnKind::Busy => self.busy += 1,
            TurnKind::Stale => self.stale += 1,
            TurnKind::Scanned => self.scanned += 1,
            TurnKind::Refused => self.refused += 1,
            TurnKind::Cut => self.cut += 1,
        }
    }

    /// Counts what the worker hands back.
    pub(crate) fn close(&mut self, hand: &Hand)
        requires { MayCloseBy (array_vec_len hand.now.fresh) self.old }
        ensures { self.new ≡ closed_by (array_vec_len hand.now.taken)
            (array_vec_len hand.now.fresh) self.old }
    {
        let unvisited = hand.taken.len() as u64;
        let fresh = hand.fresh.len() as u64;
        self.popped = self.stale + self.scanned + self.refused + self.cut + unvisited;
        self.unvisited = unvisited;
        self.pushed = self.lowered - fresh;
        self.returned = unvisited + self.refused + fresh;
    }
}
