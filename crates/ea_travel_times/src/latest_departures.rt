//! The latest departures of kinds that have no steps.
ghost use Rattle.std.specs.Prelude.{◌≤◌, ◌<◌, ◌^◌, IsTrue, MatchOption};
ghost use Rattle.ea_base.specs.declared.limits.TheConstants.{HORIZON};
ghost use Rattle.ea_base.specs.declared.timetable.RawKind.TheVariants.{Closed, Every, Plain, Rush};
ghost use Rattle.ea_travel_times.specs.Answers.{AreInRange};
ghost use Rattle.ea_travel_times.specs.Departures.{IsLastTime, IsLatest};
ghost use Rattle.ea_travel_times.specs.Timetables.{KindAnswers, is_kind};

use ea_base::RawKind;

/// At once: the weight before.
fn latest_plain(weight: u64, arrival: u64) -> Option<u64>
    requires arrival { arrival ≤ HORIZON }
    ensures { IsLatest (λ class. KindAnswers Plain) 0 weight arrival result }
{
    arrival.checked_sub(weight)
}

/// The last time up to one that leaves the offset when divided by the period.
fn last_time(period: u64, offset: u64, left: u64) -> Option<u64>
    requires { offset < period }
    ensures { MatchOption result (left < offset) (λ time. IsLastTime period offset left time) }
{
    let rest = left % period;
    if offset <= rest {
        return Some(left - (rest - offset));
    }
    let back = period - (offset - rest);
    if left < back { None } else { Some(left - back) }
}

/// The last time of the offset that leaves enough time for the weight.
fn latest_every(period: u64, offset: u64, weight: u64, arrival: u64) -> Option<u64>
    requires kind { IsTrue (is_kind (Every period offset)) }
    requires arrival { arrival ≤ HORIZON }
    ensures { IsLatest (λ class. KindAnswers (Every period offset)) 0 weight arrival result }
{
    if arrival < weight {
        return None;
    }
    last_time(period, offset, arrival - weight)
}

/// Before the interval, if its end is too late.
fn latest_closed(lo: u64, hi: u64, weight: u64, arrival: u64) -> Option<u64>
    requires kind { IsTrue (is_kind (Closed lo hi)) }
    requires arrival { arrival ≤ HORIZON }
    ensures { IsLatest (λ class. KindAnswers (Closed lo hi)) 0 weight arrival result }
{
    let left = arrival.checked_sub(weight)?;
    if lo <= left && left < hi {
        return lo.checked_sub(1);
    }
    Some(left)
}

/// After the rush, in it, or before it.
fn latest_rush(lo: u64, hi: u64, extra: u64, weight: u64, arrival: u64) -> Option<u64>
    requires kind { IsTrue (is_kind (Rush lo hi extra)) }
    requires arrival { arrival ≤ HORIZON }
    ensures { IsLatest (λ class. KindAnswers (Rush lo hi extra)) 0 weight arrival result }
{
    let left = arrival.checked_sub(weight)?;
    if left >= hi + extra {
        return Some(left);
    }
    if left >= lo + extra {
        return Some(left - extra);
    }
    if left < lo {
        return Some(left);
    }
    lo.checked_sub(1)
}

/// The latest departure of a kind that has no steps, by which an arc of a weight arrives by a time.
pub(crate) fn latest_by(kind: RawKind, weight: u64, arrival: u64) -> Option<u64>
    requires kind { IsTrue (is_kind kind) }
    requires range { AreInRange weight arrival }
    ensures { IsLatest (λ class. KindAnswers kind) 0 weight arrival result }
{
    match kind {
        RawKind::Plain => latest_plain(weight, arrival),
        RawKind::Every { period, offset } => latest_every(period, offset, weight, arrival),
        RawKind::Closed { lo, hi } => latest_closed(lo, hi, weight, arrival),
        RawKind::Rush { lo, hi, extra } => latest_rush(lo, hi, extra, weight, arrival),
        RawKind::Speeds { .. } | RawKind::Trips { .. } | RawKind::Points { .. } => None,
    }
}
