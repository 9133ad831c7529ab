//! Laws of travel times, as functions that do nothing.
ghost use Rattle.std.specs.Prelude.{◌≡◌, ◌≤◌, ◌+◌, ◌-◌, ◌^◌, ℕ};
ghost use Rattle.std.specs.Prelude.{List};
ghost use Rattle.ea_travel_times.specs.Answers.{IsFifo};
ghost use Rattle.ea_travel_times.specs.Points.{ArePoints, IsArrivalByPoints};
ghost use Rattle.ea_travel_times.specs.Speeds.{IsArrivalBySpeeds, speed_sum};
ghost use Rattle.ea_travel_times.specs.StepLists.{steps_in};
ghost use Rattle.ea_travel_times.specs.TimetableLists.{TimetablesAnswer};
ghost use Rattle.ea_travel_times.specs.Timetables.{KindAnswers};
ghost use Rattle.ea_travel_times.specs.Trips.{AreTrips, IsArrivalByTrips};

use crate::profile::Profile;
use crate::timetable::Timetable;
use crate::timetables::Timetables;
use crate::travel_times::TravelTimes;

/// One timetable by itself, or one profile, serves every class that an arc can have: the greatest is 2^32 - 1.
pub fn one_for_all_classes(table: &Timetable, profile: &Profile)
    ensures timetable { ⟦<Timetable as TravelTimes>⟧.classes table.now ≡ 2 ^ 32 - 1 }
    ensures profile { ⟦<Profile as TravelTimes>⟧.classes profile.now ≡ 2 ^ 32 - 1 }
{}

/// Travel times by one timetable, of whichever kind, are first in, first out.
pub fn timetable_is_fifo(table: &Timetable)
    ensures { (classes : ℕ) → IsFifo
        (λ class weight departure arrival. KindAnswers table.now.kind weight departure arrival)
        classes }
{}

/// Travel times by a list of timetables, of whichever kinds, are first in, first out.
pub fn timetables_are_fifo(times: &Timetables)
    ensures { (classes : ℕ) → IsFifo
        (TimetablesAnswer times.now.list.items (steps_in times.now.steps)) classes }
{}

/// Travel times by speeds are first in, first out, whatever the speeds of the times are.
pub fn speeds_are_fifo()
    ensures { (speed : ℕ → ℕ) (classes : ℕ) → IsFifo
        (λ class weight departure arrival. IsArrivalBySpeeds speed weight departure arrival)
        classes }
{}

/// Travel times by trips of which none overtakes another are first in, first out.
pub fn trips_are_fifo()
    ensures { (period : ℕ) (steps : List (ℕ × ℕ)) (classes : ℕ) → AreTrips period steps → IsFifo
        (λ class weight departure arrival. IsArrivalByTrips period steps weight departure arrival)
        classes }
{}

/// Travel times by points of which none lets who leaves later arrive earlier are first in, first out.
pub fn points_are_fifo()
    ensures { (period : ℕ) (steps : List (ℕ × ℕ)) (classes : ℕ) → ArePoints period steps → IsFifo
        (λ class weight departure arrival. IsArrivalByPoints period steps weight departure arrival)
        classes }
{}

/// The sum of the speeds of times is that of a part of them and of the rest.
pub fn sums_of_speeds_add()
    ensures { (speed : ℕ → ℕ) (first middle last : ℕ) → first ≤ middle → middle ≤ last
        → speed_sum speed first (last - first)
        ≡ speed_sum speed first (middle - first) + speed_sum speed middle (last - middle) }
{}
