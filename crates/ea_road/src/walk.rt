ghost use Rattle.std.specs.Prelude.{◌≡◌, ◌≤◌, ◌<◌, ℕ, MatchOption};
ghost use Rattle.ea_road.specs.Arrivals.{Arrives, GoesOn};
ghost use Rattle.ea_road.specs.Roads.{IsArc, IsNetwork, IsNode, top_class};
ghost use Rattle.ea_base.specs.declared.limits.TheConstants.{HORIZON};

use crate::HORIZON;
use crate::network::Network;
use ea_travel_times::TravelTimes;

/// The node and the time at which a walk ends that leaves a node at a departure. None if a number is no
/// arc's, the arcs don't join, or the horizon is passed.
pub fn run_walk<T: TravelTimes>(
    network: &Network,
    times: &T,
    start: u32,
    walk: &[u32],
    departure: u64,
) -> Option<(u32, u64)>
    requires classes { top_class network.now.arcs ≤ T.classes times.now }
    requires start { IsNode network.now.nodes start }
    requires departure { departure ≤ HORIZON }
    ensures { MatchOption result
        ((node time : ℕ)
        → Arrives network.now (T.answers times.now) start departure walk.now node time
        → HORIZON < time)
        (λ end. Arrives network.now (T.answers times.now) start departure walk.now end.0 end.1
        × (end.1 ≤ HORIZON)) }
{
    let mut node = start;
    let mut time = departure;
    for number in walk {
        let Some((head, arrival)) = go_on(network, times, node, time, *number) else {
            return None;
        };
        node = head;
        time = arrival;
    }
    Some((node, time))
}

/// Follows one arc.
fn go_on<T: TravelTimes>(
    network: &Network,
    times: &T,
    node: u32,
    time: u64,
    number: u32,
) -> Option<(u32, u64)>
    requires classes { top_class network.now.arcs ≤ T.classes times.now }
    requires time { time ≤ HORIZON }
    ensures network { IsNetwork network.now }
    ensures outcome { MatchOption result
        ((head arrival : ℕ)
        → GoesOn network.now (T.answers times.now) node time number head arrival
        → HORIZON < arrival)
        (λ end. GoesOn network.now (T.answers times.now) node time number end.0 end.1
        × (end.1 ≤ HORIZON)) }
{
    let arcs = network.arcs();
    if number == 0 || number as usize > arcs.len() {
        return None;
    }
    let arc = network.arc(number);
    if arc.tail != node {
        return None;
    }
    let arrival = times.arrive(arc.class, u64::from(arc.weight), time);
    if arrival > HORIZON {
        return None;
    }
    Some((arc.head, arrival))
}
