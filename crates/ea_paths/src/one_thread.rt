ghost use Rattle.std.specs.Prelude.{◌≡◌, false, IfOk};
ghost use Rattle.ea_travel_times.specs.Answers.{IsFifoFunction};
ghost use Rattle.ea_road.specs.Queries.{IsProblem};
ghost use Rattle.ea_search.specs.Answers.{HasArrivals, IsAnswer};

use crate::answer::Answer;
use crate::search::Search;
use ea_road::{Network, Query};
use ea_travel_times::{ArrivalFunction, Profiles, TravelTimes};
use std::alloc::{AllocError, Global};

/// The earliest arrivals and their canonical walks, found by one thread. Fails only if memory for the arrays
/// is refused, before the search begins.
pub fn solve_alone<T: TravelTimes>(
    alloc: Global,
    network: &Network,
    times: &T,
    query: &Query,
) -> Result<Answer, AllocError>
    requires { IsProblem network.now (T.classes times.now) query.now }
    ensures { IfOk result (IsAnswer network.now (T.answers times.now) query.now) }
{
    let search = Search::reserve(alloc, network.nodes())?;
    Ok(search.find_walks(network, times, query).into_answer())
}

/// The earliest arrivals without walks, found by one thread. Fails as `solve_alone` does.
pub fn arrivals_alone<T: TravelTimes>(
    alloc: Global,
    network: &Network,
    times: &T,
    query: &Query,
) -> Result<Answer, AllocError>
    requires { IsProblem network.now (T.classes times.now) query.now }
    ensures arrivals { IfOk result (HasArrivals network.now (T.answers times.now) query.now) }
    ensures none { IfOk result (λ answer. answer.walks ≡ false) }
{
    let search = Search::reserve_without_walks(alloc, network.nodes())?;
    Ok(search.find_arrivals(network, times, query).into_answer())
}

/// `solve_alone` with a caller's closure from class, weight and departure to the arrival, for classes up to
/// the greatest. Fails as `solve_alone` does.
pub fn solve_alone_by<F: ArrivalFunction + Drop>(
    alloc: Global,
    network: &Network,
    closure: F,
    classes: u32,
    query: &Query,
) -> Result<Answer, AllocError>
    requires fifo { IsFifoFunction (F.may closure) (F.answers closure) classes }
    requires problem { IsProblem network.now classes query.now }
    ensures { IfOk result (IsAnswer network.now
        (λ class weight departure arrival. ∥ F.answers closure class weight departure arrival ∥₁)
        query.now) }
{
    let profiles = Profiles::new(closure, classes);
    solve_alone(alloc, network, &profiles, query)
}

/// `arrivals_alone` with a caller's closure. Fails as `solve_alone` does.
pub fn arrivals_alone_by<F: ArrivalFunction + Drop>(
    alloc: Global,
    network: &Network,
    closure: F,
    classes: u32,
    query: &Query,
) -> Result<Answer, AllocError>
    requires fifo { IsFifoFunction (F.may closure) (F.answers closure) classes }
    requires problem { IsProblem network.now classes query.now }
    ensures arrivals { IfOk result (HasArrivals network.now
        (λ class weight departure arrival. ∥ F.answers closure class weight departure arrival ∥₁)
        query.now) }
    ensures none { IfOk result (λ answer. answer.walks ≡ false) }
{
    let profiles = Profiles::new(closure, classes);
    arrivals_alone(alloc, network, &profiles, query)
}
