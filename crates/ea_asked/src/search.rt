//! The search: labels fall along arcs from open nodes, those with the least labels nearly first.
ghost use Rattle.std.specs.Prelude.{◌≡◌, ◌≤◌, ◌<◌, ℕ, All, MatchOption, length};
ghost use Rattle.ea_base.specs.declared.limits.TheConstants.{HORIZON};
ghost use Rattle.ea_road.specs.Labels.{label_of};
ghost use Rattle.ea_road.specs.Roads.{IsArc, IsNode};
ghost use Rattle.ea_goal.specs.Frontiers.{Takes};
ghost use Rattle.ea_asked.specs.Open.{IsOver, met};
ghost use Rattle.ea_asked.specs.Seeking.{AreLedTo, AreOpened, AreSeededFor, CanPass, CanScan, CanSeek, CanStart, EndsFor, FollowsFor, IsPassed, MakesStep, OffersFor, ScansFor, VisitsFor};

use crate::frontier::{Entry, Frontier};
use crate::passed::Passed;
use ea_base::HORIZON;
use ea_road::{Arc, Network, Source};
use ea_search::Reached;
use ea_travel_times::TravelTimes;
use std::alloc::AllocError;

/// Labels by nodes with the reached nodes listed, and the nodes that are open.
#[derive(Drop)]
pub(crate) struct Underway {
    pub(crate) table: Reached,
    pub(crate) frontier: Frontier,
}

impl Underway {
    /// Offers a node a time: if its label is above it, the label falls and the node is opened. An error comes
    /// only if memory was refused.
    fn offer(&mut self, node: u32, time: u64) -> Result<(), AllocError>
        requires node { IsNode (length self.old.table.labels.items) node }
        requires time { time ≤ HORIZON }
        ensures { MakesStep self.old.table self.new.table result
            (OffersFor self.old.table.labels.items self.old.frontier
            self.new.table.labels.items self.new.frontier node time) }
    {
        let slot = node as usize - 1;
        if time >= self.table.labels[slot] {
            return Ok(());
        }
        self.table.labels[slot] = time;
        self.table.listed.add(node);
        self.frontier.open(time, node)?;
        Ok(())
    }

    /// Offers the head of an arc the arrival by it.
    fn follow<T: TravelTimes>(
        &mut self,
        network: &Network,
        times: &T,
        arc: Arc,
        departure: u64,
    ) -> Result<(), AllocError>
        requires can { CanScan network.now (T.classes times.now) self.old.table.labels.items }
        requires arc { (number : ℕ) × IsArc network.now number arc }
        requires departure { departure ≤ HORIZON }
        ensures { MakesStep self.old.table self.new.table result
            (FollowsFor (T.answers times.now) self.old.table.labels.items self.old.frontier
            self.new.table.labels.items self.new.frontier arc departure) }
    {
        network.keeps_limits();
        let arrival = times.arrive(arc.class, u64::from(arc.weight), departure);
        if arrival > HORIZON {
            return Ok(());
        }
        self.offer(arc.head, arrival)?;
        Ok(())
    }

    /// Leaves the arcs from a node at a departure.
    fn scan<T: TravelTimes>(
        &mut self,
        network: &Network,
        times: &T,
        node: u32,
        departure: u64,
    ) -> Result<(), AllocError>
        requires can { CanScan network.now (T.classes times.now) self.old.table.labels.items }
        requires node { IsNode network.now.nodes node }
        requires departure { departure ≤ HORIZON }
        ensures { MakesStep self.old.table self.new.table result
            (ScansFor network.now (T.answers times.now)
            self.old.table.labels.items self.old.frontier
            self.new.table.labels.items self.new.frontier node departure) }
    {
        network.keeps_limits();
        let arcs = network.leaving(node).arcs;
        for place in 0..arcs.len() {
            let arc = arcs[place].with_tail(node);
            self.follow(network, times, arc, departure)?;
        }
        Ok(())
    }

    /// Leaves the arcs from a node that was open, unless its label fell since.
    fn visit<T: TravelTimes>(
        &mut self,
        network: &Network,
        times: &T,
        entry: Entry,
    ) -> Result<(), AllocError>
        requires can { CanScan network.now (T.classes times.now) self.old.table.labels.items }
        requires node { IsNode network.now.nodes entry.node }
        ensures { MakesStep self.old.table self.new.table result
            (VisitsFor network.now (T.answers times.now)
            self.old.table.labels.items self.old.frontier
            self.new.table.labels.items self.new.frontier (met entry)) }
    {
        network.keeps_limits();
        let label = self.table.labels[entry.node as usize - 1];
        if entry.label != label {
            return Ok(());
        }
        if label > HORIZON {
            return Ok(());
        }
        self.scan(network, times, entry.node, label)?;
        Ok(())
    }

    /// Takes one of the open nodes with the least labels; none if the labels of all asked nodes are below all of them.
    fn next(&mut self, asked: &[u32], passed: &mut Passed) -> Option<Entry>
        requires { CanPass self.old.table.labels.items asked.now passed.old }
        ensures table { self.new.table ≡ self.old.table }
        ensures passed { IsPassed self.new.table.labels.items asked.now passed.new }
        ensures taken { MatchOption result ((self.new.frontier ≡ self.old.frontier)
            × IsOver self.old.table.labels.items self.old.frontier asked.now)
            (λ entry. Takes self.old.frontier self.new.frontier (met entry)) }
    {
        let least = self.frontier.least()?;
        passed.pass(&self.table.labels, asked, least);
        if passed.are_below(&self.table.labels, asked, least) {
            return None;
        }
        self.frontier.take()
    }

    /// Visits open nodes until the labels of all asked nodes are below theirs.
    fn run<T: TravelTimes>(
        &mut self,
        network: &Network,
        times: &T,
        asked: &[u32],
    ) -> Result<(), AllocError>
        requires can { CanScan network.now (T.classes times.now) self.old.table.labels.items }
        requires asked { All (IsNode network.now.nodes) asked.now }
        requires opened { AreOpened network.now.nodes self.old.frontier }
        ensures { MakesStep self.old.table self.new.table result
            (EndsFor network.now (T.answers times.now)
            self.old.table.labels.items self.old.frontier
            self.new.table.labels.items self.new.frontier asked.now) }
    {
        let mut passed = Passed::none(&self.table.labels, asked);
        while let Some(entry) = self.next(asked, &mut passed) {
            self.visit(network, times, entry)?;
        }
        Ok(())
    }

    /// Offers the sources their departures.
    fn begin(&mut self, network: &Network, sources: &[Source]) -> Result<(), AllocError>
        requires { CanStart network.now.nodes sources.now self.old }
        ensures { MakesStep self.old.table self.new.table result
            (AreSeededFor network.now.nodes sources.now
            self.new.table.labels.items self.new.frontier (length sources.now)) }
    {
        self.frontier.pace(network.mean_weight());
        for source in sources {
            self.offer(source.node, source.departure)?;
        }
        Ok(())
    }

    /// Searches from the sources until the asked nodes are settled.
    pub(crate) fn seek<T: TravelTimes>(
        &mut self,
        network: &Network,
        times: &T,
        sources: &[Source],
        asked: &[u32],
    ) -> Result<(), AllocError>
        requires { CanSeek network.now (T.classes times.now) sources.now asked.now self.old }
        ensures { MakesStep self.old.table self.new.table result
            (AreLedTo network.now (T.answers times.now) sources.now asked.now
            (label_of self.new.table.labels.items)) }
    {
        network.keeps_limits();
        self.begin(network, sources)?;
        self.run(network, times, asked)?;
        Ok(())
    }
}
