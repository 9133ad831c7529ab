ghost use Rattle.std.specs.Prelude.{ℕ};
ghost use Rattle.ea_travel_times.specs.Answers.{IsFifo, IsQuestion};
ghost use Rattle.ea_travel_times.specs.Departures.{IsLatest};
ghost use Rattle.ea_travel_times.specs.Lows.{IsLowerBound};

/// Travel times that depend on the departure and are first in, first out: each class, weight and departure has an
/// arrival, no arrival is before its departure, and a later departure arrives no earlier. So one departure has exactly
/// one arrival.
pub trait TravelTimes {
    /// The greatest class.
    ghost classes: { Self → ℕ };

    /// Which arrivals may be answered for a class, a weight and a departure.
    ghost answers: { Self → ℕ → ℕ → ℕ → ℕ → Type 0 };

    /// When an arc of a class and a weight arrives that is left at a departure, at most HORIZON.
    fn arrive(&self, class: u32, weight: u64, departure: u64) -> u64
        requires { IsQuestion (classes self.now) class weight departure }
        ensures { answers self.now class weight departure result };

    /// A least travel time of an arc of a class and a weight: no arrival within the horizon is sooner after its departure, whenever that is.
    fn low(&self, class: u32, weight: u64) -> u64
        requires { IsQuestion (classes self.now) class weight 0 }
        ensures { IsLowerBound (answers self.now) class weight result }
    {
        0
    }

    /// The latest departure of an arc of a class and a weight that arrives by a time, at most HORIZON; none if every departure arrives
    /// later.
    fn latest(&self, class: u32, weight: u64, arrival: u64) -> Option<u64>
        requires { IsQuestion (classes self.now) class weight arrival }
        ensures { IsLatest (answers self.now) class weight arrival result }
    {
        self.latest_by_halves(class, weight, arrival)
    }

    /// The same by halving, with at most 49 calls of `arrive`.
    fn latest_by_halves(&self, class: u32, weight: u64, arrival: u64) -> Option<u64>
        requires { IsQuestion (classes self.now) class weight arrival }
        ensures { IsLatest (answers self.now) class weight arrival result }
    {
        if self.arrive(class, weight, 0) > arrival {
            return None;
        }
        let mut low = 0;
        let mut high = arrival + 1;
        while high - low > 1 {
            let middle = low + (high - low) / 2;
            if self.arrive(class, weight, middle) <= arrival {
                low = middle;
            } else {
                high = middle;
            }
        }
        Some(low)
    }

    ghost fifo: { (times : Self) → IsFifo (answers times) (classes times) };
}
