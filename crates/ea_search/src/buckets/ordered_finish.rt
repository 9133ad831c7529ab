//! The finishing pass in nearly the order of labels.
ghost use Rattle.std.specs.Prelude.{◌≡◌, length, map};
ghost use Rattle.ea_search.specs.Frontiers.{HaveNone};
ghost use Rattle.ea_search.specs.Searching.{CanFinish, FinishesFrom};

use crate::buckets::bucket_search::search_on;
use crate::buckets::frontier::{Frontier, empty_lists};
use crate::finishing_pass::{Finished, finish};
use crate::labels::table::Bare;
use crate::queue::open::Open;
use ea_road::{Network, Query};
use ea_travel_times::TravelTimes;
use std::alloc::Global;

/// Searches from the waiting nodes with empty lists, then finishes what is left.
fn finish_on<T: TravelTimes>(
    network: &Network,
    times: &T,
    query: &Query,
    lists: Vec<Vec<(u64, u32)>>,
    table: Vec<u64>,
    todo: Open,
) -> Finished
    requires can { CanFinish network.now (T.answers times.now) (T.classes times.now) query.now
        table.items todo }
    requires lists { (length lists.items ≡ 66) × HaveNone (map (λ l. l.items) lists.items) }
    ensures { FinishesFrom network.now (T.answers times.now) query.now
        table.items todo result.table.items result.todo }
{
    network.keeps_limits();
    let mut frontier = Frontier::over(lists, todo, network.mean_weight());
    let mut bare = Bare { labels: table };
    search_on(network, times, query, &mut bare, &mut frontier);
    let (_, todo) = frontier.into_parts();
    finish(network, times, query, bare.labels, todo)
}

/// Like `finish`, but first searches from the waiting nodes in nearly the order of their labels, as
/// `arrivals_alone` does from the sources; so open nodes cost no more than in a search by one thread. What
/// memory didn't suffice for is then finished in the order of opening, with the same answer.
pub fn finish_in_order<T: TravelTimes>(
    alloc: Global,
    network: &Network,
    times: &T,
    query: &Query,
    table: Vec<u64>,
    todo: Open,
) -> Finished
    requires { CanFinish network.now (T.answers times.now) (T.classes times.now) query.now
        table.items todo }
    ensures { FinishesFrom network.now (T.answers times.now) query.now
        table.items todo result.table.items result.todo }
{
    match empty_lists(alloc) {
        Ok(lists) => finish_on(network, times, query, lists, table, todo),
        Err(_) => finish(network, times, query, table, todo),
    }
}
