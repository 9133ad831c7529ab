//! The moves of a run of one thread.
ghost use Rattle.std.specs.Prelude.{◌≡◌, ◌<◌, ◌≤◌, ◌-◌, [], length, replicate, slice_index, IfOk, MatchOption};
ghost use Rattle.ea_base.specs.declared.limits.TheConstants.{LEAST_HEAPS};
ghost use Rattle.ea_pool.specs.declared.shared.words.TheConstants.{MOST_IN_POOL};
ghost use Rattle.ea_road.specs.declared.TheConstants.{NONE};
ghost use Rattle.ea_machine.specs.Totals.{total};
ghost use Rattle.ea_rank.specs.Courses.{LowersBy};
ghost use Rattle.ea_rank.specs.Runs.{Finds, HasHeaps, PopsFound};
ghost use Rattle.ea_rank.specs.States.{state_of};

use crate::event::Event;
use crate::run::Run;
use ea_pool::{Entry, OutOfMemory, Solo};
use ea_road::NONE;
use std::alloc::Global;

/// Pops an entry by two words. If the two heaps are empty, tries the words that follow the first one's
/// remainder. None if all heaps are empty.
fn find_entry(solo: &mut Solo<Global>, heaps: usize, first: u64, second: u64) -> Option<Entry>
    requires { HasHeaps heaps solo.old }
    ensures { MatchOption result ((total length solo.old ≡ 0) × (solo.new ≡ solo.old))
        (λ entry. Finds first second entry solo.old solo.new) }
{
    let start = first % heaps as u64;
    for step in 0..heaps as u64 {
        if let Some(entry) = solo.pop_at(start + step, second) {
            return Some(entry);
        }
    }
    None
}

impl Run {
    /// A run without labels, with empty heaps and an empty record.
    pub(crate) fn new(alloc: Global, nodes: u32, heaps: usize) -> Result<Run, OutOfMemory>
        requires { (LEAST_HEAPS ≤ heaps) × (heaps ≤ MOST_IN_POOL) }
        ensures { IfOk result (λ run. (run.labels.items ≡ replicate nodes NONE)
            × (run.heaps ≡ replicate heaps []) × (run.events.items ≡ [])) }
    {
        let labels = vec![in alloc; NONE; nodes as usize]?;
        let heaps = Solo::new(alloc, heaps)?;
        let events = Vec::new(alloc);
        Ok(Run {
            labels,
            heaps,
            events,
        })
    }

    /// The label of a node.
    pub(crate) fn label(&self, node: u32) -> u64
        requires { (0 < node) × (node ≤ length self.now.labels.items) }
        ensures { result ≡ slice_index self.now.labels.items (node - 1) }
    {
        self.labels[node as usize - 1]
    }

    /// Lowers the label of a node to a time, and pushes its entry.
    pub(crate) fn lower(&mut self, word: u64, node: u32, time: u64) -> Result<(), OutOfMemory>
        requires node { (0 < node) × (node ≤ length self.old.labels.items) }
        requires heaps { 2 ≤ length self.old.heaps }
        ensures { IfOk result (λ _.
            LowersBy word node time (state_of self.old) (state_of self.new)) }
    {
        self.labels[node as usize - 1] = time;
        let Ok(()) = self.heaps.push_at(word, Entry { key: time, node }) else {
            return Err(OutOfMemory);
        };
        let Ok(()) = self.events.push(Event::Push(time)) else {
            return Err(OutOfMemory);
        };
        Ok(())
    }

    /// Pops the next entry. None if there is none.
    pub(crate) fn pop(
        &mut self,
        heaps: usize,
        first: u64,
        second: u64,
    ) -> Result<Option<Entry>, OutOfMemory>
        requires { HasHeaps heaps self.old.heaps }
        ensures { IfOk result (λ found. MatchOption found
            ((total length self.old.heaps ≡ 0) × (state_of self.new ≡ state_of self.old))
            (λ entry. PopsFound first second entry (state_of self.old) (state_of self.new))) }
    {
        let Some(entry) = find_entry(&mut self.heaps, heaps, first, second) else {
            return Ok(None);
        };
        let Ok(()) = self.events.push(Event::Pop(entry.key)) else {
            return Err(OutOfMemory);
        };
        Ok(Some(entry))
    }
}
