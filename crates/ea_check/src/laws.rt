//! Laws of reports, as functions that do nothing.
ghost use Rattle.std.specs.Prelude.{◌≡◌, ◌≢◌, ◌<◌, ◌^◌, ◌∷◌, [], ℕ, List, Result, Err, Ok, None, Some, length, true, false};
ghost use Rattle.ea_search.specs.Answers.{Answered, HasArrivals, IsAnswer, walk_of};
ghost use Rattle.ea_report.specs.Report.{problem_text};
ghost use Rattle.std.specs.List.{IsAmong};
ghost use Rattle.ea_road.specs.Queries.{Asking, IsProblem};
ghost use Rattle.ea_check.specs.Checked.{IsChecked, sources_of, AreCheckable};
ghost use Rattle.ea_road.specs.declared.source.Source.{Source};
ghost use Rattle.ea_check.specs.declared.fault.CheckFault.{CheckFault};
ghost use Rattle.ea_check.specs.declared.fault.CheckFault.TheVariants.{OutOfMemory};
ghost use Rattle.ea_check.specs.Form.{AreInOrder, Line, SaysProblem, lines_of_report};
ghost use Rattle.ea_check.specs.Verdicts.{IsFaultless, IsRight, IsVerdict, IsWellFormed, Said};

use ea_road::{Network, Query};
use ea_travel_times::TravelTimes;

/// A report of one problem without a fault is right, and a right one has no fault.
pub fn faultless_reports_are_right<T: TravelTimes>(network: &Network, times: &T, query: &Query)
    requires problem { IsProblem network.now (T.classes times.now) query.now }
    requires all { query.now.target ≡ None }
    ensures right { (reported : List Said) → IsWellFormed network.now.nodes reported
        → IsFaultless network.now (T.answers times.now) query.now.sources reported
        → IsRight network.now (T.answers times.now) query.now.sources reported }
    ensures faultless { (reported : List Said) → IsWellFormed network.now.nodes reported
        → IsRight network.now (T.answers times.now) query.now.sources reported
        → IsFaultless network.now (T.answers times.now) query.now.sources reported }
{
    network.keeps_limits();
}

/// What the lines of a report say of a problem is well formed, if they are in the order of their numbers.
pub fn forms_are_well_formed()
    ensures { (nodes : ℕ) (sources : List Source) (reported : List Said) (lines : List Line)
        → AreInOrder lines → SaysProblem nodes sources reported lines
        → IsWellFormed nodes reported }
{}

/// A report of one problem has one verdict, apart from refused memory.
pub fn problems_have_one_verdict<T: TravelTimes>(network: &Network, times: &T, query: &Query)
    requires problem { IsProblem network.now (T.classes times.now) query.now }
    requires all { query.now.target ≡ None }
    ensures { (reported : List Said) (this that : Result (Unit {0}) CheckFault)
        → IsWellFormed network.now.nodes reported
        → IsVerdict network.now (T.answers times.now) query.now.sources reported this
        → IsVerdict network.now (T.answers times.now) query.now.sources reported that
        → this ≢ Err OutOfMemory → that ≢ Err OutOfMemory → this ≡ that }
{
    network.keeps_limits();
}

/// A report has one verdict, apart from refused memory: every check of its lines gives the same.
pub fn reports_have_one_verdict<T: TravelTimes>(network: &Network, times: &T, queries: &[Query])
    requires { AreCheckable network.now (T.classes times.now) queries.now }
    ensures { (report : List ℕ) (this that : Result (Unit {0}) CheckFault)
        → IsChecked network.now (T.answers times.now) (sources_of queries.now)
        (lines_of_report report) this
        → IsChecked network.now (T.answers times.now) (sources_of queries.now)
        (lines_of_report report) that
        → this ≢ Err OutOfMemory → that ≢ Err OutOfMemory → this ≡ that }
{
    network.keeps_limits();
}

/// The report of an answer is accepted, with walks or without.
pub fn written_reports_are_right<T: TravelTimes>(network: &Network, times: &T, query: &Query)
    requires problem { IsProblem network.now (T.classes times.now) query.now }
    requires all { query.now.target ≡ None }
    ensures arrivals { (answer : Answered)
        → HasArrivals network.now (T.answers times.now) query.now answer
        → IsChecked network.now (T.answers times.now) (query.now.sources ∷ [])
        (lines_of_report (problem_text false network.now.nodes query.now answer)) (Ok tt) }
    // A walk's length is that of a list in memory.
    ensures walks { (answer : Answered)
        → IsAnswer network.now (T.answers times.now) query.now answer
        → ((node : ℕ) (walk : List ℕ) → walk_of answer node ≡ Some walk → length walk < 2 ^ 64)
        → IsChecked network.now (T.answers times.now) (query.now.sources ∷ [])
        (lines_of_report (problem_text true network.now.nodes query.now answer)) (Ok tt) }
{
    network.keeps_limits();
}
