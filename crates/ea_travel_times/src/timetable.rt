ghost use Rattle.std.specs.Prelude.{◌≡◌, ◌≤◌, ◌<◌, ◌^◌, ◌+◌, IsTrue};
ghost use Rattle.ea_base.specs.declared.timetable.RawKind.TheVariants.{Every};
ghost use Rattle.ea_travel_times.specs.Answers.{AreInRange};
ghost use Rattle.ea_travel_times.specs.Timetables.{is_kind, KindAnswers, IsNextTime};
ghost use Rattle.ea_base.specs.declared.limits.TheConstants.{HORIZON};

use crate::HORIZON;
use crate::latest_departures::latest_by;
use crate::travel_times::TravelTimes;
use ea_base::RawKind;

/// A timetable by itself: a kind that has no steps, and whose numbers are in their ranges.
#[derive(Clone, Copy)]
pub struct Timetable {
    pub kind: RawKind,
    pub ghost in_range: { IsTrue (is_kind kind) },
}

impl Timetable {
    /// Whether a kind's numbers are in their ranges: a period of 1 to 2^32 with an offset below it; an interval that is not
    /// empty and ends at HORIZON at the latest; at most 2^32 extra. A kind that has steps is none by itself.
    pub fn fits(kind: RawKind) -> bool
        ensures { result ≡ is_kind kind }
    {
        match kind {
            RawKind::Plain => true,
            RawKind::Every { period, offset } => period <= 4_294_967_296 && offset < period,
            RawKind::Closed { lo, hi } => lo < hi && hi <= HORIZON,
            RawKind::Rush { lo, hi, extra } => {
                lo < hi && hi <= HORIZON && extra <= 4_294_967_296
            }
            RawKind::Speeds { .. } | RawKind::Trips { .. } | RawKind::Points { .. } => false,
        }
    }

    /// The timetable of a kind that has no steps.
    pub fn of(kind: RawKind) -> Timetable
        requires { IsTrue (is_kind kind) }
        ensures { result.kind ≡ kind }
    {
        Timetable { kind }
    }

    /// When an arc of this timetable and a weight arrives that is left at a departure, at most HORIZON.
    pub fn arrive(&self, weight: u64, departure: u64) -> u64
        requires { AreInRange weight departure }
        ensures { KindAnswers self.now.kind weight departure result }
    {
        arrive_by(self.kind, weight, departure)
    }
}

/// One timetable for every arc, whatever its class.
impl TravelTimes for Timetable {
    ghost use Rattle.ea_travel_times.specs.Timetables.{KindAnswers};
    ghost use Rattle.ea_travel_times.specs.KindLaws.{kind_is_fifo};

    ghost classes = { λ table. 4294967295 };

    ghost answers = { λ table class weight departure arrival.
        KindAnswers table.kind weight departure arrival };

    fn arrive(&self, _class: u32, weight: u64, departure: u64) -> u64 {
        Timetable::arrive(self, weight, departure)
    }

    fn low(&self, _class: u32, weight: u64) -> u64 {
        weight
    }

    fn latest(&self, _class: u32, weight: u64, arrival: u64) -> Option<u64> {
        latest_by(self.kind, weight, arrival)
    }

    ghost fifo = { λ table. kind_is_fifo table.kind 4294967295 table.in_range };
}

/// The arrival of a kind that has no steps.
pub(crate) fn arrive_by(kind: RawKind, weight: u64, departure: u64) -> u64
    requires kind { IsTrue (is_kind kind) }
    requires range { AreInRange weight departure }
    ensures { KindAnswers kind weight departure result }
{
    match kind {
        RawKind::Plain => departure + weight,
        RawKind::Every { period, offset } => next_time(period, offset, departure) + weight,
        RawKind::Closed { lo, hi } => {
            if lo <= departure && departure < hi {
                hi + weight
            } else {
                departure + weight
            }
        }
        RawKind::Rush { lo, hi, extra } => {
            if departure < lo {
                departure + weight
            } else if departure < hi {
                departure + weight + extra
            } else {
                (departure + weight).max(hi + weight + extra)
            }
        }
        RawKind::Speeds { .. } | RawKind::Trips { .. } | RawKind::Points { .. } => departure,
    }
}

/// The least time at or after the departure that leaves the offset when divided by the period.
fn next_time(period: u64, offset: u64, departure: u64) -> u64
    requires kind { IsTrue (is_kind (Every period offset)) }
    requires departure { departure ≤ HORIZON }
    ensures next { IsNextTime period offset departure result }
    ensures small { result < departure + period }
{
    let rest = departure % period;
    if rest <= offset {
        departure + (offset - rest)
    } else {
        departure + (period - rest) + offset
    }
}
