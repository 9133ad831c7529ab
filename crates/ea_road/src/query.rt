ghost use Rattle.std.specs.Prelude.{◌≡◌, ◌<◌, ◌↔◌, IsTrue, Some, None, ◌∷◌, []};
ghost use Rattle.ea_road.specs.Queries.{AreSources, IsAsked, IsQuery, IsSource};

use crate::HORIZON;
use crate::source::Source;
use std::marker::Model;

/// A query: the earliest arrivals from these sources at all nodes, or from one source at one target. In
/// contracts it is its sources and its target.
#[derive(Drop)]
pub struct Query {
    asked: QueryForm,
}

/// The forms of a query.
#[derive(Drop)]
enum QueryForm {
    All(Vec<Source>),
    One([Source; 1]),
    Pair([Source; 1], u32),
}

impl Model for Query {
    ghost use Rattle.ea_road.specs.Queries.{Asking, IsQuery};

    ghost Value = { Asking };

    ghost use Rattle.ea_road.specs.QueryForms.{asking_of};

    ghost view = { λ q. asking_of q.asked };

    ghost invariant = { λ q. IsQuery (asking_of q.asked) };
}

impl Query {
    /// A query for all nodes.
    pub fn new(sources: Vec<Source>) -> Query
        requires { AreSources sources.items }
        ensures { result ≡ record { sources = sources.items; target = None } }
    {
        Query {
            asked: QueryForm::All(sources),
        }
    }

    /// A query for all nodes, from one source. Takes no memory.
    pub fn from_one(source: Source) -> Query
        requires { IsSource source }
        ensures { result ≡ record { sources = source ∷ []; target = None } }
    {
        Query {
            asked: QueryForm::One([source]),
        }
    }

    /// Whether sources are valid for a query: node numbers from 1, departures up to HORIZON.
    pub fn fits(sources: &[Source]) -> bool
        ensures { IsTrue result ↔ AreSources sources.now }
    {
        for source in sources {
            if !is_source(*source) {
                return false;
            }
        }
        true
    }

    /// A query for one target, from one source.
    pub fn pair(source: Source, target: u32) -> Query
        requires source { IsSource source }
        requires target { 0 < target }
        ensures { result ≡ record { sources = source ∷ []; target = Some target } }
    {
        Query {
            asked: QueryForm::Pair([source], target),
        }
    }

    /// The sources, in the order in which they were given.
    pub fn sources(&self) -> &[Source]
        ensures sources { result.now ≡ self.now.sources }
        ensures query { IsQuery self.now }
    {
        match &self.asked {
            QueryForm::All(sources) => sources,
            QueryForm::One(source) => source,
            QueryForm::Pair(source, _) => source,
        }
    }

    /// The target of a pair query; none if all nodes are asked.
    pub fn target(&self) -> Option<u32>
        ensures target { result ≡ self.now.target }
        ensures query { IsQuery self.now }
    {
        match &self.asked {
            QueryForm::All(_) => None,
            QueryForm::One(_) => None,
            QueryForm::Pair(_, target) => Some(*target),
        }
    }

    /// Whether a node is asked.
    pub fn asks(&self, node: u32) -> bool
        ensures { IsTrue result ↔ IsAsked self.now node }
    {
        match self.target() {
            None => true,
            Some(target) => node == target,
        }
    }
}

/// Whether a source's node is numbered from 1, and its departure is within the horizon.
fn is_source(source: Source) -> bool
    ensures { IsTrue result ↔ IsSource source }
{
    0 < source.node && source.departure <= HORIZON
}
