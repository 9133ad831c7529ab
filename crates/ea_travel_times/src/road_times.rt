use crate::timetables::Timetables;
use crate::travel_times::TravelTimes;
use crate::turned::Turned;
use ea_base::Direction;

/// The travel times of a road by its timetables, or the same turned round for latest departures.
#[derive(Drop)]
pub struct RoadTimes {
    pub tables: Timetables,
    pub direction: Direction,
}

impl TravelTimes for RoadTimes {
    ghost use Rattle.std.specs.Prelude.{length};
    ghost use Rattle.ea_travel_times.specs.StepLists.{steps_in};
    ghost use Rattle.ea_travel_times.specs.TimetableLists.{TimetablesAnswer};
    ghost use Rattle.ea_travel_times.specs.TimetableLaws.{timetables_are_fifo};
    ghost use Rattle.ea_travel_times.specs.Directed.{IsDirected};
    ghost use Rattle.ea_travel_times.specs.DirectedLaws.{directed_is_fifo};

    ghost classes = { λ times. length times.tables.list.items };

    ghost answers = { λ times class weight departure arrival.
        IsDirected times.direction
        (TimetablesAnswer times.tables.list.items (steps_in times.tables.steps))
        class weight departure arrival };

    #[inline(always)]
    fn arrive(&self, class: u32, weight: u64, departure: u64) -> u64 {
        match self.direction {
            Direction::Forward => self.tables.arrive(class, weight, departure),
            Direction::Turned => Turned::of(&self.tables).arrive(class, weight, departure),
        }
    }

    fn low(&self, class: u32, weight: u64) -> u64 {
        match self.direction {
            Direction::Forward => TravelTimes::low(&self.tables, class, weight),
            Direction::Turned => 0,
        }
    }

    fn latest(&self, class: u32, weight: u64, arrival: u64) -> Option<u64> {
        match self.direction {
            Direction::Forward => self.tables.latest(class, weight, arrival),
            Direction::Turned => self.latest_by_halves(class, weight, arrival),
        }
    }

    ghost fifo = { λ times. directed_is_fifo times.direction
        (TimetablesAnswer times.tables.list.items (steps_in times.tables.steps))
        (length times.tables.list.items)
        (timetables_are_fifo times.tables.list.items (steps_in times.tables.steps)
        (length times.tables.list.items) times.tables.fit) };
}
