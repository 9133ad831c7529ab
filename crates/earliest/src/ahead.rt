//! Problems whose turns are counted, searched several at once, each by its own workers, before their turn.
ghost use Rattle.std.specs.Prelude.{◌≡◌, ◌≤◌, All, IfOk, IfSome, length};
ghost use Rattle.ea_base.specs.declared.limits.TheConstants.{MOST_AT_ONCE};
ghost use Rattle.earliest.specs.Ahead.{AreFilled, CanFill, IsFilled, IsFoundAt, IsNew};

use crate::solver_choice::{Found, find};
use ea_fork_join::for_each_mut;
use ea_load::Road;
use ea_options::RunOptions;
use ea_road::Query;
use std::alloc::{AllocError, Global};
use std::thread::Threads;

/// The place of a problem, from 0, and what was found of it.
#[derive(Drop)]
pub(crate) struct Slot {
    place: usize,
    found: Option<Found>,
}

/// What was found of some problems in a row, in any order.
#[derive(Drop)]
pub(crate) struct Ahead {
    slots: Vec<Slot>,
}

/// Empty slots.
fn slots_for(alloc: Global, count: usize) -> Result<Vec<Slot>, AllocError>
    requires { count ≤ MOST_AT_ONCE }
    ensures { IfOk result (λ slots. IsNew (record { slots = slots })) }
{
    let mut slots = Vec::with_capacity(alloc, count)?;
    for place in 0..count {
        slots.push(Slot { place, found: None })?;
    }
    Ok(slots)
}

/// Searches the problem of a slot; leaves it empty if there is none, or if memory is refused.
fn fill<H: Threads + Sync>(
    alloc: Global,
    rt: &H,
    road: &Road,
    queries: &[Query],
    options: &RunOptions,
    slot: &mut Slot,
)
    requires { CanFill road.now queries.now options.now }
    ensures { IsFilled road.now queries.now options.now slot.new }
{
    let Some(query) = queries.get(slot.place) else {
        slot.found = None;
        return;
    };
    let workers = options.counted_workers() as u32;
    match find(alloc, rt, road, query, options, workers) {
        Ok(found) => slot.found = Some(found),
        Err(_) => slot.found = None,
    }
}

/// Searches the problems of all slots, each in a separate thread if one can be started.
fn fill_all<H: Threads + Sync>(
    alloc: Global,
    rt: &H,
    road: &Road,
    queries: &[Query],
    options: &RunOptions,
    slots: &mut [Slot],
)
    requires can { CanFill road.now queries.now options.now }
    requires few { length slots.old ≤ MOST_AT_ONCE }
    ensures { All (IsFilled road.now queries.now options.now) slots.new }
{
    let filling = |_at: usize, slot: &mut Slot|
        requires { CanFill road.now queries.now options.now }
        ensures { IsFilled road.entry.now queries.entry.now options.entry.now slot.exit.now }
    { fill(alloc, rt, road, queries, options, slot) };
    for_each_mut(rt, slots, &filling);
}

impl Ahead {
    /// Room for this many problems, or for none if memory is refused. None are searched before their turn if there is room for one alone.
    pub(crate) fn over(alloc: Global, count: usize) -> Ahead
        requires { count ≤ MOST_AT_ONCE }
        ensures { IsNew result }
    {
        match slots_for(alloc, count) {
            Ok(slots) => Ahead { slots },
            Err(_) => Ahead {
                slots: Vec::new(alloc),
            },
        }
    }

    /// Searches the problems from this one on, as many as there is room for.
    fn search<H: Threads + Sync>(
        &mut self,
        alloc: Global,
        rt: &H,
        road: &Road,
        queries: &[Query],
        options: &RunOptions,
        from: usize,
    )
        requires can { CanFill road.now queries.now options.now }
        requires few { length self.old.slots.items ≤ MOST_AT_ONCE }
        ensures filled { AreFilled road.now queries.now options.now self.new }
    {
        let mut place = from;
        for slot in &mut self.slots {
            slot.place = place;
            place = place.saturating_add(1);
        }
        fill_all(alloc, rt, road, queries, options, &mut self.slots);
    }

    /// Takes what was found of a problem, the next in turn. When all of the last ones are taken, the next are searched. None comes if there
    /// is no room, or if memory is refused.
    pub(crate) fn take<H: Threads + Sync>(
        &mut self,
        alloc: Global,
        rt: &H,
        road: &Road,
        queries: &[Query],
        options: &RunOptions,
        place: usize,
    ) -> Option<Found>
        requires can { CanFill road.now queries.now options.now }
        requires filled { AreFilled road.now queries.now options.now self.old }
        ensures found { IfSome result (IsFoundAt road.now queries.now options.now place) }
        ensures filled { AreFilled road.now queries.now options.now self.new }
    {
        let count = self.slots.len();
        if count < 2 {
            return None;
        }
        let at = place % count;
        if at == 0 {
            self.search(alloc, rt, road, queries, options, place);
        }
        let slot = self.slots.get_mut(at)?;
        if slot.place != place {
            return None;
        }
        slot.found.take()
    }
}
