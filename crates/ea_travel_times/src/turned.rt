ghost use Rattle.std.specs.Prelude.{◌≡◌};

use crate::HORIZON;
use crate::travel_times::TravelTimes;

/// Travel times turned round, for the question when to leave: an arc that is left at `HORIZON - a` arrives at `HORIZON - d`, with d being
/// the latest departure that arrives by a, and above the horizon if there is none.
#[derive(Clone, Copy)]
pub struct Turned<'a, T: TravelTimes> {
    pub times: &'a T,
}

impl<'a, T: TravelTimes> Turned<'a, T> {
    /// These travel times turned round.
    pub fn of(times: &'a T) -> Turned<'a, T>
        ensures { result.times.now ≡ times.now }
    {
        Turned { times }
    }
}

impl<'a, T: TravelTimes> TravelTimes for Turned<'a, T> {
    ghost use Rattle.ea_travel_times.specs.TurnedTimes.{IsTurned};
    ghost use Rattle.ea_travel_times.specs.TurnedLaws.{turned_is_fifo};

    ghost classes = { λ turned. T.classes turned.times.now };

    ghost answers = { λ turned class weight departure arrival.
        IsTurned (T.answers turned.times.now) class weight departure arrival };

    fn arrive(&self, class: u32, weight: u64, departure: u64) -> u64 {
        match self.times.latest(class, weight, HORIZON - departure) {
            Some(latest) => HORIZON - latest,
            None => HORIZON + 1,
        }
    }

    fn low(&self, class: u32, weight: u64) -> u64 {
        self.times.low(class, weight)
    }

    ghost fifo = { λ turned. turned_is_fifo (T.answers turned.times.now)
        (T.classes turned.times.now) (T.fifo turned.times.now) };
}
