//! The place of each event's key among the keys.
ghost use Rattle.std.specs.Prelude.{◌≡◌, ℕ, List, length, map, IfOk};
ghost use Rattle.ea_rank.specs.Places.{AreMarks, ArePlaces};
ghost use Rattle.ea_rank.specs.Ranks.{key_of};

use crate::event::Event;
use std::alloc::{AllocError, Global};

/// The key of an event and the event's number, from 0.
#[derive(Clone, Copy, PartialEq, Eq, PartialOrd, Ord)]
pub(crate) struct Mark {
    pub(crate) key: u64,
    pub(crate) index: usize,
}

/// For each event the place of its key among the distinct keys, ascending, and the number of distinct keys.
#[derive(Drop)]
pub(crate) struct Places {
    pub(crate) of_events: Vec<usize>,
    pub(crate) keys: usize,
}

/// The marks of the events, by their keys.
fn marks_of(alloc: Global, events: &[Event]) -> Result<Vec<Mark>, AllocError>
    ensures { IfOk result (λ marks. AreMarks (map key_of events.now) marks.items) }
{
    let mut marks = Vec::with_capacity(alloc, events.len())?;
    for (index, event) in events.iter().enumerate() {
        marks.push(Mark {
            key: event.key(),
            index,
        })?;
    }
    marks.sort_unstable();
    Ok(marks)
}

/// The places of the events' keys, in O(n log n).
pub(crate) fn places_of(alloc: Global, events: &[Event]) -> Result<Places, AllocError>
    ensures { IfOk result (λ places. (keys : List ℕ)
        × ArePlaces keys (map key_of events.now) places.of_events.items
        × (length keys ≡ places.keys)) }
{
    let marks = marks_of(alloc, events)?;
    let mut of_events = vec![in alloc; 0; events.len()]?;
    let mut place = 0;
    let mut last = match marks.first() {
        Some(mark) => mark.key,
        None => 0,
    };
    for mark in &marks {
        if mark.key != last {
            last = mark.key;
            place += 1;
        }
        of_events[mark.index] = place;
    }
    Ok(Places {
        of_events,
        keys: place + 1,
    })
}
