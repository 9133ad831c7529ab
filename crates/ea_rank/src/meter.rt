//! The rank errors of the pops in a record.
ghost use Rattle.std.specs.Prelude.{◌≡◌, Ok, IfOk, IfErr};
ghost use Rattle.ea_rank.specs.Faults.{IsRankFault};
ghost use Rattle.ea_rank.specs.Ranks.{rank_errors};

use crate::event::{Event, Record};
use crate::fault::RankFault;
use crate::places::places_of;
use crate::tally::Tally;
use std::alloc::Global;

/// The rank error of each pop, in order: the number of entries in the queue before it with a smaller key.
/// Takes O(n log n) for n events.
pub fn ranks(alloc: Global, recorded: &Record) -> Result<Vec<u64>, RankFault>
    ensures ranks { IfOk result (λ ranks. rank_errors recorded.now.events.items ≡ Ok ranks.items) }
    ensures fault { IfErr result (IsRankFault recorded.now.events.items) }
{
    let places = places_of(alloc, &recorded.events)?;
    let mut tally = Tally::new(alloc, places.keys)?;
    let mut ranks = Vec::new(alloc);
    for (index, event) in recorded.events.iter().enumerate() {
        let place = places.of_events[index];
        match event {
            Event::Push(_) => tally.raise(place),
            Event::Pop(_) => {
                if tally.at(place) == 0 {
                    return Err(RankFault::NotThere(index));
                }
                ranks.push(tally.before(place))?;
                tally.lower(place);
            }
        }
    }
    Ok(ranks)
}
