//! A report's lines on one problem.
ghost use Rattle.std.specs.Prelude.{◌≡◌, ◌+◌, ◌<◌, ◌≤◌, ◌^◌, ◌++◌, ◌∷◌, [], ℕ, IfErr, IsTrue, MatchResult, None, length};
ghost use Rattle.ea_road.specs.Roads.{IsNode};
ghost use Rattle.ea_check.specs.declared.fault.CheckFault.TheVariants.{OutOfMemory};
ghost use Rattle.ea_check.specs.Runs.{saids};
ghost use Rattle.ea_check.specs.Verdicts.{IsSaid, Said, reported_time, times_of};
ghost use Rattle.ea_check.specs.Views.{HasCount, said_of};
ghost use Rattle.ea_check.specs.WalksLeft.{IsAtNode};

use crate::fault::CheckFault;
use crate::form::kept::{Kept, SaidLine, keep, keep_run};
use crate::form::walk_reader::WalkReader;
use std::alloc::Global;
use std::marker::Model;

/// A report's lines on the nodes of one problem, in their order. In contracts it is the list of what they
/// say.
#[derive(Drop)]
pub(crate) struct Reported {
    kept: Kept,
}

impl Model for Reported {
    ghost use Rattle.std.specs.Prelude.{List};
    ghost use Rattle.ea_check.specs.Verdicts.{Said};
    ghost use Rattle.ea_check.specs.Views.{AreKept, said_kept};

    ghost Value = { List Said };

    ghost view = { λ r. said_kept r.kept };

    ghost invariant = { λ r. AreKept r.kept };
}

impl Reported {
    /// No line yet.
    pub(crate) fn new(alloc: Global) -> Reported
        ensures { result ≡ [] }
    {
        Reported {
            kept: Kept::new(alloc),
        }
    }

    /// Forgets the lines, and makes room for those of this many nodes.
    pub(crate) fn begin(&mut self, nodes: usize) -> Result<(), CheckFault>
        ensures none { self.new ≡ [] }
        ensures refused { IfErr result (λ fault. fault ≡ OutOfMemory) }
    {
        self.kept.clear();
        self.kept.lines.reserve(nodes)?;
        self.kept.table.reserve(nodes)?;
        Ok(())
    }

    /// Keeps the lines of the next node. After a refusal no line is kept.
    pub(crate) fn push(&mut self, said: SaidLine<'_>) -> Result<(), CheckFault>
        requires { HasCount said.walk }
        ensures { MatchResult result
            (λ _. self.new ≡ self.old ++ said_of said.entry ∷ [])
            (λ fault. fault ≡ OutOfMemory) }
    {
        if let Err(fault) = keep(&mut self.kept, said) {
            self.kept.clear();
            return Err(fault);
        }
        Ok(())
    }

    /// Keeps the times of the next nodes, which have no walks. Their lines follow each other from this one on.
    /// After a refusal no line is kept.
    pub(crate) fn extend(&mut self, number: u64, times: &[u64]) -> Result<(), CheckFault>
        requires { number + length times.now < 2 ^ 64 }
        ensures { MatchResult result
            (λ _. self.new ≡ self.old ++ saids number times.now)
            (λ fault. fault ≡ OutOfMemory) }
    {
        if let Err(fault) = keep_run(&mut self.kept, number, times) {
            self.kept.clear();
            return Err(fault);
        }
        Ok(())
    }

    /// The times of all nodes, the first that of node 1; NONE for `inf`.
    pub(crate) fn table(&self) -> &[u64]
        ensures { result.now ≡ times_of self.now }
    {
        &self.kept.table
    }

    /// The time of a node, or NONE.
    pub(crate) fn time(&self, node: u32) -> u64
        requires { IsNode (length self.now) node }
        ensures { result ≡ reported_time self.now node }
    {
        self.kept.table[node as usize - 1]
    }

    /// The number of a node's `d` line.
    pub(crate) fn line(&self, node: u32) -> u64
        requires { IsNode (length self.now) node }
        ensures { (said : Said) → IsSaid self.now node said → result ≡ said.line }
    {
        self.kept.lines[node as usize - 1]
    }

    /// Whether no node has a `w` line.
    pub(crate) fn has_no_walks(&self) -> bool
        ensures { IsTrue result
            → (node : ℕ) (said : Said) → IsSaid self.now node said → said.walk ≡ None }
    {
        if self.kept.walks.len() > 0 {
            return false;
        }
        true
    }

    /// The number of nodes with a `w` line.
    pub(crate) fn walks(&self) -> usize
        ensures { result ≤ length self.now }
    {
        let mut walks = 0;
        for walk in &self.kept.walks {
            if walk.is_some() {
                walks += 1;
            }
        }
        walks
    }

    /// The walks, from that of node 1 on.
    pub(crate) fn reader(&self, alloc: Global) -> WalkReader<'_>
        ensures { IsAtNode self.now 1 result }
    {
        WalkReader {
            walks: &self.kept.walks,
            own: &self.kept.own,
            arcs: Vec::new(alloc),
            shared: 0,
        }
    }
}
