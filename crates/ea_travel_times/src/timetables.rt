ghost use Rattle.std.specs.Prelude.{◌≡◌, ◌≤◌, ◌<◌, ◌^◌, IfOk, IsTrue, [], length, true};
ghost use Rattle.std.specs.List.{IsAmong};
ghost use Rattle.ea_base.specs.declared.timetable.RawKind.{RawKind};
ghost use Rattle.ea_base.specs.declared.limits.TheConstants.{HORIZON};
ghost use Rattle.ea_travel_times.specs.Answers.{AreInRange, IsQuestion};
ghost use Rattle.ea_travel_times.specs.Extremes.{AreExtremes};
ghost use Rattle.ea_travel_times.specs.Lows.{TimetablesLow};
ghost use Rattle.ea_travel_times.specs.StepLists.{extremes_in, steps_in};
ghost use Rattle.ea_travel_times.specs.TimetableLists.{TimetablesAnswer, kind_of};
ghost use Rattle.ea_travel_times.specs.Timetables.{AreFit, ClassAnswers, HasKind, IsClass, has_run, is_kind};

use crate::latest_departures::latest_by;
use crate::latest_steps::latest_by_steps;
use crate::least_times::low_at;
use crate::ranges::all_fit;
use crate::step_table::StepTable;
use crate::timetable::arrive_by;
use crate::travel_times::TravelTimes;
use ea_base::RawKind;
use std::alloc::{AllocError, Global};

/// Timetables by their classes: class 0 is plain, class J is the J-th kind, and the steps of kinds that have some.
#[derive(Drop)]
pub struct Timetables {
    pub list: Vec<RawKind>,
    pub steps: Option<StepTable>,
    pub ghost fit: { AreFit list.items (steps_in steps) },
    pub ghost extremes: { AreExtremes list.items (steps_in steps) (extremes_in steps) },
}

impl Timetables {
    /// Travel times by these kinds of timetable, of which none has steps.
    pub fn new(kinds: Vec<RawKind>) -> Timetables
        requires { (kind : RawKind) → IsAmong kinds.items kind → IsTrue (is_kind kind) }
        ensures kinds { result.list.items ≡ kinds.items }
        ensures steps { steps_in result.steps ≡ [] }
    {
        Timetables {
            list: kinds,
            steps: None,
        }
    }

    /// The same of a slice. An error comes only if memory for the list was refused.
    pub fn of(alloc: Global, kinds: &[RawKind]) -> Result<Timetables, AllocError>
        requires { (kind : RawKind) → IsAmong kinds.now kind → IsTrue (is_kind kind) }
        ensures { IfOk result (λ times. (times.list.items ≡ kinds.now)
            × (steps_in times.steps ≡ [])) }
    {
        let mut list = Vec::with_capacity(alloc, kinds.len())?;
        for kind in kinds {
            list.push(*kind)?;
        }
        Ok(Timetables::new(list))
    }

    /// Travel times by kinds of timetable, whose steps are among these. An error comes only if memory for the table of
    /// the steps was refused.
    pub fn with_steps(
        alloc: Global,
        kinds: Vec<RawKind>,
        steps: Vec<(u64, u64)>,
    ) -> Result<Timetables, AllocError>
        requires { AreFit kinds.items steps.items }
        ensures { IfOk result (λ times.
            (times.list.items ≡ kinds.items) × (steps_in times.steps ≡ steps.items)) }
    {
        let steps = Some(StepTable::of(alloc, &kinds, steps)?);
        Ok(Timetables { list: kinds, steps })
    }

    /// Whether the numbers of kinds are in their ranges, and the steps of those that have some.
    pub fn fits(kinds: &[RawKind], steps: &[(u64, u64)]) -> bool
        ensures { result ≡ true → AreFit kinds.now steps.now }
    {
        all_fit(kinds, steps)
    }

    /// The greatest class.
    pub fn classes(&self) -> usize
        ensures { result ≡ length self.now.list.items }
    {
        self.list.len()
    }

    /// The kind of a class above 0.
    fn kind_at(&self, class: u32) -> RawKind
        requires { HasKind self.now.list.items class }
        ensures is { kind_of self.now.list.items class ≡ result }
        ensures fits { IsClass (steps_in self.now.steps) result }
    {
        self.list[class as usize - 1]
    }

    /// The least travel time of an arc of a class and a weight.
    pub fn low(&self, class: u32, weight: u64) -> u64
        requires { IsQuestion (length self.now.list.items) class weight 0 }
        ensures { TimetablesLow self.now.list.items (steps_in self.now.steps) class weight result }
    {
        if class == 0 {
            return weight;
        }
        low_at(&self.steps, self.kind_at(class), class as usize - 1, weight)
    }

    /// When an arc of a class and a weight arrives that is left at a departure.
    #[inline(always)]
    pub fn arrive(&self, class: u32, weight: u64, departure: u64) -> u64
        requires { IsQuestion (length self.now.list.items) class weight departure }
        ensures answer { TimetablesAnswer self.now.list.items (steps_in self.now.steps)
            class weight departure result }
    {
        if class == 0 {
            return departure + weight;
        }
        arrive_in(&self.list, &self.steps, class, weight, departure)
    }
}

/// The arrival of a class above 0. Kinds stay in place: each has four words, of which a search needs three at most.
#[inline(never)]
fn arrive_in(
    list: &[RawKind],
    steps: &Option<StepTable>,
    class: u32,
    weight: u64,
    departure: u64,
) -> u64
    requires kind { HasKind list.now class }
    requires fit { AreFit list.now (steps_in steps.now) }
    requires range { AreInRange weight departure }
    ensures { TimetablesAnswer list.now (steps_in steps.now) class weight departure result }
{
    arrive_of(steps, list[class as usize - 1], weight, departure)
}

/// Whether a kind has steps.
fn has_steps(kind: RawKind) -> bool
    ensures { result ≡ has_run kind }
{
    matches!(
        kind,
        RawKind::Speeds { .. } | RawKind::Trips { .. } | RawKind::Points { .. }
    )
}

/// The arrival of a kind, with the steps of those that have some.
#[inline(always)]
fn arrive_of(steps: &Option<StepTable>, kind: RawKind, weight: u64, departure: u64) -> u64
    requires class { IsClass (steps_in steps.now) kind }
    requires range { AreInRange weight departure }
    ensures { ClassAnswers (steps_in steps.now) kind weight departure result }
{
    match kind {
        RawKind::Speeds { .. } | RawKind::Trips { .. } | RawKind::Points { .. } => {
            arrive_by_steps(steps, kind, weight, departure)
        }
        _ => arrive_by(kind, weight, departure),
    }
}

/// The arrival of a kind that has steps, which is apart so that the others are found in few registers.
#[inline(never)]
fn arrive_by_steps(steps: &Option<StepTable>, kind: RawKind, weight: u64, departure: u64) -> u64
    requires class { IsClass (steps_in steps.now) kind }
    requires range { AreInRange weight departure }
    ensures { ClassAnswers (steps_in steps.now) kind weight departure result }
{
    match kind {
        RawKind::Speeds {
            period,
            first,
            count,
        } => match steps {
            Some(table) => table.by_speeds(period, first, count, weight, departure),
            None => departure,
        },
        RawKind::Trips {
            period,
            first,
            count,
        } => match steps {
            Some(table) => table.by_trips(period, first, count, weight, departure),
            None => departure,
        },
        RawKind::Points {
            period,
            first,
            count,
        } => match steps {
            Some(table) => table.by_points(period, first, count, weight, departure),
            None => departure,
        },
        _ => arrive_by(kind, weight, departure),
    }
}

impl TravelTimes for Timetables {
    ghost use Rattle.std.specs.Prelude.{length};
    ghost use Rattle.ea_travel_times.specs.StepLists.{steps_in};
    ghost use Rattle.ea_travel_times.specs.TimetableLists.{TimetablesAnswer};
    ghost use Rattle.ea_travel_times.specs.TimetableLaws.{timetables_are_fifo};

    ghost classes = { λ times. length times.list.items };

    ghost answers = { λ times class weight departure arrival.
        TimetablesAnswer times.list.items (steps_in times.steps) class weight departure arrival };

    #[inline(always)]
    fn arrive(&self, class: u32, weight: u64, departure: u64) -> u64 {
        Timetables::arrive(self, class, weight, departure)
    }

    fn low(&self, class: u32, weight: u64) -> u64 {
        Timetables::low(self, class, weight)
    }

    fn latest(&self, class: u32, weight: u64, arrival: u64) -> Option<u64> {
        if class == 0 {
            return latest_by(RawKind::Plain, weight, arrival);
        }
        let kind = self.kind_at(class);
        if has_steps(kind) {
            return latest_by_steps(&self.steps, kind, weight, arrival);
        }
        latest_by(kind, weight, arrival)
    }

    ghost fifo = { λ times.
        timetables_are_fifo times.list.items (steps_in times.steps)
        (length times.list.items) times.fit };
}
