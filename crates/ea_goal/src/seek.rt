//! The search from the sources, led by bounds.
ghost use Rattle.std.specs.Prelude.{◌≡◌, ◌⊎◌, ◌≤◌, ◌<◌, ◌-◌, ℕ, OnOk, [], length, replicate};
ghost use Rattle.std.specs.List.{IsAmong};
ghost use Rattle.ea_base.specs.declared.limits.TheConstants.{HORIZON};
ghost use Rattle.ea_hierarchy.specs.Bounds.{IsRoomFor};
ghost use Rattle.ea_hierarchy.specs.Preparations.{IsPreparedFor};
ghost use Rattle.ea_road.specs.Roads.{IsNode, top_class};
ghost use Rattle.ea_road.specs.declared.TheConstants.{NONE};
ghost use Rattle.ea_road.specs.declared.source.Source.{Source};
ghost use Rattle.ea_road.specs.Labels.{label_of};
ghost use Rattle.ea_search.specs.Links.{AreStarts};
ghost use Rattle.ea_goal.specs.Led.{IsLedTo};
ghost use Rattle.ea_goal.specs.Potentials.{IsPotentialOver, potential_of};
ghost use Rattle.ea_goal.specs.Seeds.{AreSeeded};
ghost use Rattle.ea_goal.specs.Visits.{KeepsReached};

use crate::search::Underway;
use ea_hierarchy::Prepared;
use ea_hierarchy::laws::{bounds_are_below_each_walk, bounds_are_consistent};
use ea_road::{Network, Source};
use ea_travel_times::TravelTimes;
use std::alloc::AllocError;

/// The first source; the target, if there is none.
fn start_of(sources: &[Source], target: u32) -> Source
    ensures { (result.node ≡ target) ⊎ IsAmong sources.now result }
{
    match sources.first() {
        Some(source) => *source,
        None => Source {
            node: target,
            departure: 0,
        },
    }
}

impl Underway {
    /// Offers the sources their departures.
    fn begin(
        &mut self,
        network: &Network,
        prepared: &Prepared,
        sources: &[Source],
        target: u32,
    ) -> Result<(), AllocError>
        requires sources { AreStarts network.now.nodes sources.now }
        requires target { IsNode network.now.nodes target }
        requires labels { self.old.table.labels.items ≡ replicate network.now.nodes NONE }
        requires none { self.old.frontier ≡ [] }
        requires ranks { length prepared.now.ranks ≡ network.now.nodes }
        requires over { IsPotentialOver prepared.now self.old.potential }
        ensures over { IsPotentialOver prepared.now self.new.potential }
        ensures same { (other : ℕ) → potential_of prepared.now self.new.potential other
            ≡ potential_of prepared.now self.old.potential other }
        ensures reached { KeepsReached self.old.table self.new.table }
        ensures seeded { OnOk result (AreSeeded network.now.nodes sources.now target
            (potential_of prepared.now self.old.potential) self.new.table.labels.items
            self.new.frontier (length sources.now)) }
    {
        for source in sources {
            self.offer(prepared, target, source.node, source.departure)?;
        }
        Ok(())
    }

    /// Searches from the sources until no node is open, led by bounds. Without bounds, it was searched up to a time: this says how far a first
    /// look for bounds has to go.
    pub(crate) fn seek<T: TravelTimes>(
        &mut self,
        network: &Network,
        times: &T,
        prepared: &Prepared,
        sources: &[Source],
        target: u32,
        until: u64,
    ) -> Result<(), AllocError>
        requires sources { AreStarts network.now.nodes sources.now }
        requires target { IsNode network.now.nodes target }
        requires classes { top_class network.now.arcs ≤ T.classes times.now }
        requires labels { self.old.table.labels.items ≡ replicate network.now.nodes NONE }
        requires none { self.old.frontier ≡ [] }
        requires prepared { IsPreparedFor network.now (T.answers times.now) prepared.now }
        requires room { IsRoomFor prepared.now self.old.potential.bounds }
        ensures over { IsPotentialOver prepared.now self.new.potential }
        ensures reached { KeepsReached self.old.table self.new.table }
        ensures led { OnOk result (IsLedTo network.now (T.answers times.now) sources.now target
            (label_of self.new.table.labels.items)) }
    {
        network.keeps_limits();
        let source = start_of(sources, target);
        let searched = until.saturating_sub(source.departure);
        self.potential
            .begin(prepared, source.node, target, searched);
        bounds_are_consistent(network, times, prepared, target, &self.potential.bounds);
        bounds_are_below_each_walk(network, prepared, target, &self.potential.bounds);
        self.begin(network, prepared, sources, target)?;
        self.run(network, times, prepared, target)?;
        Ok(())
    }
}
