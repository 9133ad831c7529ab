//! The arrays of searches by one thread, and what the searches may use.
ghost use Rattle.std.specs.Prelude.{◌≡◌, IfNone, IfSome, Some, length};
ghost use Rattle.ea_batch.specs.Shown.{AreFew, AreMany};
ghost use Rattle.ea_batch.specs.Solved.{searched};
ghost use Rattle.ea_report.specs.Asked.{chosen_by};

use ea_asked::AskedSearch;
use ea_layout::{LaidSearch, Layout};
use ea_paths::{Answer, Search};
use ea_report::ReportOptions;

/// The arrays of searches by one thread, with the last answer.
#[derive(Drop)]
pub enum Searching {
    /// Of searches on the road as it was given.
    Plain(Search),
    /// Of searches on the road laid out.
    Laid(LaidSearch),
    /// Of searches for some nodes.
    Asked(AskedSearch),
}

impl Searching {
    /// The last answer.
    pub fn answer(&self) -> &Answer
        ensures { result.now ≡ (searched self.now).answer }
    {
        match self {
            Searching::Plain(search) => search.answer(),
            Searching::Laid(search) => search.answer(),
            Searching::Asked(search) => search.answer(),
        }
    }
}

/// What searches on a road may use, if it is there. Answers are the same without.
#[derive(Clone, Copy)]
pub struct Aids<'a> {
    /// A layout of the road's network; for pairs, it may be prepared.
    pub layout: Option<&'a Layout>,
}

/// Up to this number of chosen nodes are few in any network.
pub const FEW: usize = 16;

/// More than one node in this number are many: mostly some of them are far.
pub const PART: usize = 64;

/// The nodes that are searched for alone: those that are chosen for a report, if they are few.
pub fn few_chosen<'a>(nodes: u32, shown: ReportOptions<'a>) -> Option<&'a [u32]>
    ensures chosen { IfSome result (λ asked. chosen_by shown.entry ≡ Some asked.now) }
    ensures few { IfSome result (λ asked. AreFew nodes (length asked.now)) }
    ensures many { IfNone result (IfSome (chosen_by shown.entry)
        (λ chosen. AreMany nodes (length chosen))) }
{
    match shown.nodes {
        Some(asked) => {
            if asked.len() <= FEW || asked.len() <= nodes as usize / PART {
                return Some(asked);
            }
            None
        }
        None => None,
    }
}
