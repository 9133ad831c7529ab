//! Queries under the numbers of a layout.
ghost use Rattle.std.specs.List.{IsAmong};
ghost use Rattle.std.specs.Prelude.{◌≡◌, ℕ, IfOk, IfSome, None, Some, length};
ghost use Rattle.ea_layout.specs.Copied.{AsksFor};
ghost use Rattle.ea_layout.specs.Laid.{CanRename};
ghost use Rattle.ea_layout.specs.Renamed.{renamed_source, renamed_sources};
ghost use Rattle.ea_road.specs.Queries.{AreSources};
ghost use Rattle.ea_road.specs.Roads.{IsNode};
ghost use Rattle.ea_road.specs.declared.source.Source.{Source as SourceType};

use ea_road::{Query, Source};
use std::alloc::{AllocError, Global};

/// A source under new numbers of the nodes.
fn laid_source(places: &[u32], source: Source) -> Source
    requires { IsNode (length places.now) source.node }
    ensures { result ≡ renamed_source places.now source }
{
    Source {
        node: places[source.node as usize - 1],
        departure: source.departure,
    }
}

/// Sources under new numbers of the nodes.
fn laid_sources(
    alloc: Global,
    places: &[u32],
    sources: &[Source],
) -> Result<Vec<Source>, AllocError>
    requires { (source : SourceType) → IsAmong sources.now source
        → IsNode (length places.now) source.node }
    ensures { IfOk result (λ laid. laid.items ≡ renamed_sources places.now sources.now) }
{
    let mut laid = Vec::with_capacity(alloc, sources.len())?;
    for source in sources {
        laid.push(laid_source(places, *source))?;
    }
    Ok(laid)
}

/// A query for all nodes from sources, under new numbers of the nodes.
fn laid_query_of_all(alloc: Global, places: &[u32], sources: &[Source]) -> Result<Query, AllocError>
    requires sources { AreSources sources.now }
    requires can { CanRename places.now sources.now }
    ensures { IfOk result (λ laid. laid
        ≡ record { sources = renamed_sources places.now sources.now; target = None }) }
{
    match sources {
        [source] => Ok(Query::from_one(laid_source(places, *source))),
        _ => Ok(Query::new(laid_sources(alloc, places, sources)?)),
    }
}

/// The query of a pair from one source under new numbers of the nodes; none if there are several sources.
fn laid_from(places: &[u32], sources: &[Source], target: u32) -> Option<Query>
    requires sources { AreSources sources.now }
    requires can { CanRename places.now sources.now }
    requires target { IsNode (length places.now) target }
    ensures { IfSome result (λ laid. AsksFor places.now
        (record { sources = sources.now; target = Some target }) laid) }
{
    match sources {
        [source] => Some(Query::pair(laid_source(places, *source), places[target as usize - 1])),
        _ => None,
    }
}

/// The query of a pair under new numbers of the nodes; none if all nodes are asked for, or there are several sources.
pub(crate) fn laid_pair(places: &[u32], query: &Query) -> Option<Query>
    requires can { CanRename places.now query.now.sources }
    requires target { (node : ℕ) → query.now.target ≡ Some node
        → IsNode (length places.now) node }
    ensures { IfSome result (λ laid. AsksFor places.now query.now laid) }
{
    let sources = query.sources();
    match query.target() {
        None => None,
        Some(target) => laid_from(places, sources, target),
    }
}

/// A query that asks under new numbers of the nodes for what a query asks. With a target and several sources it asks for all nodes. Takes no
/// memory for one source.
pub(crate) fn laid_query(alloc: Global, places: &[u32], query: &Query) -> Result<Query, AllocError>
    requires can { CanRename places.now query.now.sources }
    requires target { (node : ℕ) → query.now.target ≡ Some node
        → IsNode (length places.now) node }
    ensures { IfOk result (λ laid. AsksFor places.now query.now laid) }
{
    let sources = query.sources();
    match laid_pair(places, query) {
        Some(laid) => Ok(laid),
        None => laid_query_of_all(alloc, places, sources),
    }
}
