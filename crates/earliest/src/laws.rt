//! Laws of reports, as functions that do nothing.
ghost use Rattle.earliest.specs.SameBytes.{AnsweredPairsAgree, AnsweredRunsAgree, PairsHaveOneReport, RunsHaveOneReport};

/// Apart from the totals, what `answer` writes is determined by the texts of its files and by `joint`,
/// `depart`, `gap`, `direction` and `walks`: two reports of the same are equal, for all workers, heaps, turns,
/// seeds and schedules. The same holds for `answer_pairs`. So two whole answers of the same sent one report, each with
/// its totals after it.
pub fn reports_are_one()
    ensures runs { RunsHaveOneReport }
    ensures pairs { PairsHaveOneReport }
    ensures answered_runs { AnsweredRunsAgree }
    ensures answered_pairs { AnsweredPairsAgree }
{}
