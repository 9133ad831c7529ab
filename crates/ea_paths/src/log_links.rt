//! Links from the log of a search: its notes are replayed, and the links repaired.
ghost use Rattle.std.specs.Prelude.{◌≡◌, ◌<◌, length, IfSome, IsTrue};
ghost use Rattle.ea_search.specs.Links.{AreStarts, link};
ghost use Rattle.ea_search.specs.Notes.{notes_in};
ghost use Rattle.ea_search.specs.Scans.{IsPlaced};
ghost use Rattle.ea_paths.specs.Linkable.{CanLink, HaveLinks, LinksSources};
ghost use Rattle.ea_paths.specs.Logs.{AreNotesOf, IsLogOf};
ghost use Rattle.ea_paths.specs.Mended.{AreReady};
ghost use Rattle.ea_paths.specs.Places.{HaveNoLinks, TakesStep};
ghost use Rattle.ea_paths.specs.Replayed.{AreSettled};
ghost use Rattle.ea_paths.specs.Searches.{AsksAll};

use crate::link_search::{link_all, sow};
use crate::log_replay::{number_of, replay};
use crate::repair::mend_waiting;
use crate::ties::Ties;
use ea_road::{Network, Query, Source};
use ea_search::{Link, NO_LEVEL, NO_LINK, Noted, Waiting};
use ea_travel_times::TravelTimes;

/// Links the sources that depart at their nodes' labels, over any links.
fn sow_all(table: &[u64], sources: &[Source], links: &mut [Link], waiting: &mut Waiting)
    requires sources { AreStarts waiting.old.nodes sources.now }
    requires places { (length table.now ≡ waiting.old.nodes)
        × (length links.old ≡ waiting.old.nodes) }
    ensures { LinksSources sources.now table.now (length sources.now)
        links.old waiting.old links.new waiting.new }
{
    for source in sources {
        sow(table, *source, links, waiting);
    }
}

/// The number of a link's arc. None if there is no such arc, or its tail's level is no lower.
fn number_above_tail(network: &Network, links: &[Link], old: Link) -> Option<u32>
    requires by_arc { 0 < old.from }
    requires places { length links.now ≡ network.now.nodes }
    ensures { IfSome result (λ number. IsPlaced network.now old.from old.arc number
        × ((link links.now old.from).level < old.level)) }
{
    if old.from > network.nodes() {
        return None;
    }
    if links[old.from as usize - 1].level >= old.level {
        return None;
    }
    number_of(network, old.from, old.arc)
}

/// Gives each link the number of its arc. Returns false if a link has no such arc or no lower tail, or no
/// level fits above it.
fn settle(network: &Network, links: &mut [Link]) -> bool
    requires places { length links.old ≡ network.now.nodes }
    ensures places { length links.new ≡ length links.old }
    ensures settled { IsTrue result
        → AreSettled network.now links.old links.new × AreReady links.new }
{
    for place in 0..links.len() {
        let old = links[place];
        if old.level == NO_LEVEL - 1 {
            return false;
        }
        if old.level < NO_LEVEL && old.from > 0 {
            let Some(number) = number_above_tail(network, links, old) else {
                return false;
            };
            links[place] = Link {
                level: old.level,
                arc: number,
                from: old.from,
            };
        }
    }
    true
}

/// Finds the links of nodes from the log of the search that computed the labels. Returns false if it gives
/// up; then links and waiting nodes are useless.
fn link_by_notes<T: TravelTimes>(
    network: &Network,
    times: &T,
    sources: &[Source],
    noted: &Noted,
    links: &mut [Link],
    waiting: &mut Waiting,
    ties: &mut Ties,
) -> bool
    requires can { CanLink network.now (T.classes times.now) sources.now noted.now.labels.items
        links.old waiting.old }
    requires notes { AreNotesOf network.now (T.answers times.now) noted.now.labels.items
        (notes_in noted.now.notes) }
    ensures { TakesStep network.now.nodes result links.new waiting.new
        (HaveLinks network.now (T.answers times.now) sources.now
        noted.now.labels.items links.new waiting.new) }
{
    network.keeps_limits();
    let table: &[u64] = &noted.labels;
    sow_all(table, sources, links, waiting);
    if !replay(network, noted.notes.as_slice(), links, waiting, ties) {
        return false;
    }
    sow_all(table, sources, links, waiting);
    if !settle(network, links) {
        return false;
    }
    mend_waiting(network, times, table, links, waiting)
}

/// Same result as `link_all`, by replaying the log if it is complete. Not for a pair query: a node beyond the
/// target may have a label from an arc that is not followed.
pub(crate) fn link_noted<T: TravelTimes>(
    network: &Network,
    times: &T,
    query: &Query,
    noted: &Noted,
    links: &mut [Link],
    waiting: &mut Waiting,
    ties: &mut Ties,
)
    requires all { AsksAll network.now (T.classes times.now) query.now }
    requires none { HaveNoLinks network.now.nodes links.old waiting.old }
    requires log { IsLogOf network.now (T.answers times.now) query.now noted.now }
    ensures { HaveLinks network.now (T.answers times.now) query.now.sources
        noted.now.labels.items links.new waiting.new }
{
    let sources = query.sources();
    if noted.tell() {
        if link_by_notes(network, times, sources, noted, links, waiting, ties) {
            return;
        }
        links.fill(NO_LINK);
        waiting.clear();
    }
    link_all(network, times, sources, &noted.labels, links, waiting);
}
