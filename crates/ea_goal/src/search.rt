//! Steps of the search: labels fall along arcs from open nodes, the nearest to the target first.
ghost use Rattle.std.specs.Prelude.{◌≡◌, ◌≢◌, ◌≤◌, ◌<◌, ◌+◌, ◌-◌, ℕ, OnOk, length};
ghost use Rattle.ea_base.specs.declared.limits.TheConstants.{HORIZON};
ghost use Rattle.ea_hierarchy.specs.declared.numbers.TheConstants.{NONE as NO_WALK};
ghost use Rattle.ea_road.specs.Roads.{IsArc, IsNode, top_class};
ghost use Rattle.ea_road.specs.Labels.{label_of};
ghost use Rattle.ea_goal.specs.Frontiers.{AreKeyed, IsKeyed};
ghost use Rattle.ea_goal.specs.Potentials.{IsPotentialOver, potential_of};
ghost use Rattle.ea_goal.specs.Scans.{Follows, Offers, OpensNear, Scans};
ghost use Rattle.ea_goal.specs.Visits.{AreOpenNodes, Ends, KeepsReached, Visits};

use crate::frontier::{Entry, FARTHEST, Frontier};
use crate::potential::Potential;
use ea_base::HORIZON;
use ea_hierarchy::Prepared;
use ea_road::{Arc, Network};
use ea_search::Reached;
use ea_travel_times::TravelTimes;
use std::alloc::AllocError;

/// Labels by nodes with the reached nodes listed, the nodes that are open, and bounds to the target.
#[derive(Drop)]
pub(crate) struct Underway {
    pub(crate) table: Reached,
    pub(crate) frontier: Frontier,
    pub(crate) potential: Potential,
}

impl Underway {
    /// Opens a node with its label, unless it is beyond the target or no walk leads from it to there. A node on a chain
    /// is passed through at once, without a bound. An error comes only if memory was refused.
    pub(crate) fn open(
        &mut self,
        prepared: &Prepared,
        target: u32,
        node: u32,
        label: u64,
    ) -> Result<(), AllocError>
        requires from_one { 0 < node }
        requires to_last { node ≤ length prepared.now.ranks }
        requires target { (0 < target) × (target ≤ length self.old.table.labels.items) }
        requires over { IsPotentialOver prepared.now self.old.potential }
        requires label { label ≤ HORIZON }
        ensures over { IsPotentialOver prepared.now self.new.potential }
        ensures same { (other : ℕ) → potential_of prepared.now self.new.potential other
            ≡ potential_of prepared.now self.old.potential other }
        ensures table { self.new.table ≡ self.old.table }
        ensures opens { OnOk result (OpensNear (label_of self.old.table.labels.items target)
            (potential_of prepared.now self.old.potential node) self.old.frontier self.new.frontier
            node label) }
    {
        let last = self.table.labels[target as usize - 1];
        if label > last {
            return Ok(());
        }
        if node != target && prepared.is_on_chain(node) && self.frontier.may_pass() {
            self.frontier.pass(label, node)?;
            return Ok(());
        }
        let Some(bound) = self.potential.bound(prepared, node) else {
            return Ok(());
        };
        if label + u64::from(bound) > last {
            return Ok(());
        }
        self.frontier.open(label, bound, node)?;
        Ok(())
    }

    /// Offers a node a time: if its label is above it, the label falls and the node is opened. An error comes only
    /// if memory was refused.
    pub(crate) fn offer(
        &mut self,
        prepared: &Prepared,
        target: u32,
        node: u32,
        time: u64,
    ) -> Result<(), AllocError>
        requires from_one { 0 < node }
        requires in_table { node ≤ length self.old.table.labels.items }
        requires to_last { node ≤ length prepared.now.ranks }
        requires target { (0 < target) × (target ≤ length self.old.table.labels.items) }
        requires over { IsPotentialOver prepared.now self.old.potential }
        requires time { time ≤ HORIZON }
        ensures over { IsPotentialOver prepared.now self.new.potential }
        ensures same { (other : ℕ) → potential_of prepared.now self.new.potential other
            ≡ potential_of prepared.now self.old.potential other }
        ensures reached { KeepsReached self.old.table self.new.table }
        ensures offers { OnOk result (Offers target (potential_of prepared.now self.old.potential)
            self.old.table.labels.items self.old.frontier self.new.table.labels.items self.new.frontier
            node time) }
    {
        let slot = node as usize - 1;
        if time >= self.table.labels[slot] {
            return Ok(());
        }
        self.table.labels[slot] = time;
        self.table.listed.add(node);
        self.open(prepared, target, node, time)?;
        Ok(())
    }

    /// Offers the head of an arc the arrival by it. A head that is reached before the departure can't be reached earlier.
    fn follow<T: TravelTimes>(
        &mut self,
        network: &Network,
        times: &T,
        prepared: &Prepared,
        target: u32,
        arc: Arc,
        departure: u64,
    ) -> Result<(), AllocError>
        requires arc { (number : ℕ) × IsArc network.now number arc }
        requires target { IsNode network.now.nodes target }
        requires classes { top_class network.now.arcs ≤ T.classes times.now }
        requires departure { departure ≤ HORIZON }
        requires table { length self.old.table.labels.items ≡ network.now.nodes }
        requires ranks { length prepared.now.ranks ≡ network.now.nodes }
        requires over { IsPotentialOver prepared.now self.old.potential }
        ensures over { IsPotentialOver prepared.now self.new.potential }
        ensures same { (other : ℕ) → potential_of prepared.now self.new.potential other
            ≡ potential_of prepared.now self.old.potential other }
        ensures reached { KeepsReached self.old.table self.new.table }
        ensures follows { OnOk result (Follows (T.answers times.now) target
            (potential_of prepared.now self.old.potential) self.old.table.labels.items
            self.old.frontier self.new.table.labels.items self.new.frontier arc departure) }
    {
        network.keeps_limits();
        if self.table.labels[arc.head as usize - 1] <= departure {
            return Ok(());
        }
        let arrival = times.arrive(arc.class, u64::from(arc.weight), departure);
        if arrival > HORIZON {
            return Ok(());
        }
        self.offer(prepared, target, arc.head, arrival)?;
        Ok(())
    }

    /// Leaves the arcs from a node at a departure.
    fn scan<T: TravelTimes>(
        &mut self,
        network: &Network,
        times: &T,
        prepared: &Prepared,
        target: u32,
        node: u32,
        departure: u64,
    ) -> Result<(), AllocError>
        requires node { IsNode network.now.nodes node }
        requires target { IsNode network.now.nodes target }
        requires classes { top_class network.now.arcs ≤ T.classes times.now }
        requires departure { departure ≤ HORIZON }
        requires table { length self.old.table.labels.items ≡ network.now.nodes }
        requires ranks { length prepared.now.ranks ≡ network.now.nodes }
        requires over { IsPotentialOver prepared.now self.old.potential }
        ensures over { IsPotentialOver prepared.now self.new.potential }
        ensures same { (other : ℕ) → potential_of prepared.now self.new.potential other
            ≡ potential_of prepared.now self.old.potential other }
        ensures reached { KeepsReached self.old.table self.new.table }
        ensures scans { OnOk result (Scans network.now (T.answers times.now) target
            (potential_of prepared.now self.old.potential) self.old.table.labels.items
            self.old.frontier self.new.table.labels.items self.new.frontier node departure) }
    {
        network.keeps_limits();
        let arcs = network.leaving(node).arcs;
        for place in 0..arcs.len() {
            let arc = arcs[place].with_tail(node);
            self.follow(network, times, prepared, target, arc, departure)?;
        }
        Ok(())
    }

    /// Leaves the arcs from a node that was open, unless its label fell since, or it is beyond the target. Returns whether
    /// it left them.
    pub(crate) fn visit<T: TravelTimes>(
        &mut self,
        network: &Network,
        times: &T,
        prepared: &Prepared,
        target: u32,
        entry: Entry,
    ) -> Result<bool, AllocError>
        requires target { IsNode network.now.nodes target }
        requires node { IsNode network.now.nodes entry.node }
        requires classes { top_class network.now.arcs ≤ T.classes times.now }
        requires table { length self.old.table.labels.items ≡ network.now.nodes }
        requires ranks { length prepared.now.ranks ≡ network.now.nodes }
        requires over { IsPotentialOver prepared.now self.old.potential }
        requires key { IsKeyed (potential_of prepared.now self.old.potential) entry }
        requires keys { AreKeyed (potential_of prepared.now self.old.potential) self.old.frontier }
        ensures over { IsPotentialOver prepared.now self.new.potential }
        ensures same { (other : ℕ) → potential_of prepared.now self.new.potential other
            ≡ potential_of prepared.now self.old.potential other }
        ensures reached { KeepsReached self.old.table self.new.table }
        ensures visits { OnOk result (Visits network.now (T.answers times.now) target
            (potential_of prepared.now self.old.potential) self.old.table.labels.items
            self.old.frontier self.new.table.labels.items self.new.frontier entry) }
    {
        network.keeps_limits();
        let last = self.table.labels[target as usize - 1];
        if FARTHEST - entry.nearness > last {
            self.frontier.close(last);
            return Ok(false);
        }
        let label = self.table.labels[entry.node as usize - 1];
        if entry.label != label {
            return Ok(false);
        }
        if label > HORIZON {
            return Ok(false);
        }
        self.scan(network, times, prepared, target, entry.node, label)?;
        Ok(true)
    }

    /// Visits open nodes until none is left.
    pub(crate) fn run<T: TravelTimes>(
        &mut self,
        network: &Network,
        times: &T,
        prepared: &Prepared,
        target: u32,
    ) -> Result<(), AllocError>
        requires target { IsNode network.now.nodes target }
        requires nodes { AreOpenNodes network.now.nodes self.old.frontier }
        requires classes { top_class network.now.arcs ≤ T.classes times.now }
        requires table { length self.old.table.labels.items ≡ network.now.nodes }
        requires ranks { length prepared.now.ranks ≡ network.now.nodes }
        requires over { IsPotentialOver prepared.now self.old.potential }
        requires keys { AreKeyed (potential_of prepared.now self.old.potential) self.old.frontier }
        ensures over { IsPotentialOver prepared.now self.new.potential }
        ensures same { (other : ℕ) → potential_of prepared.now self.new.potential other
            ≡ potential_of prepared.now self.old.potential other }
        ensures reached { KeepsReached self.old.table self.new.table }
        ensures ends { OnOk result (Ends network.now (T.answers times.now) target
            (potential_of prepared.now self.old.potential) self.old.table.labels.items
            self.old.frontier self.new.table.labels.items self.new.frontier) }
    {
        while let Some(entry) = self.frontier.take() {
            self.visit(network, times, prepared, target, entry)?;
        }
        Ok(())
    }
}
