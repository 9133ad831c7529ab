ghost use Rattle.std.specs.Prelude.{◌≡◌, ℕ, ◌<◌, ◌≤◌, ◌+◌, [], ◌∷◌, ◌++◌, true, false, length};
ghost use Rattle.std.specs.Prelude.{Contains, IfOk, IfSome, MatchOption};
ghost use Rattle.ea_search.specs.Links.{no_links};

use crate::link::{Link, NO_LINK};
use crate::queue::open_list::Opens;
use crate::queue::waiting::Waiting;
use std::alloc::{AllocError, Global};
use std::marker::Model;

/// The open nodes, oldest first, each at most once, with the storage of the finishing pass and of walks.
#[derive(Drop)]
pub struct Open {
    waiting: Waiting,
    links: Vec<Link>,
    walks: bool,
}

impl Model for Open {
    ghost use Rattle.std.specs.Prelude.{◌≡◌};
    ghost use Rattle.ea_search.specs.Worklist.{Worklist};
    ghost use Rattle.ea_search.specs.Links.{no_links};

    ghost Value = { Worklist };

    ghost view = { λ o.
        record { nodes = o.waiting.nodes; waiting = o.waiting.waiting; walks = o.walks } };

    ghost invariant = { λ o. o.links.items ≡ no_links o.waiting.nodes o.walks };
}

impl Open {
    /// An empty list with room for every node and for walks. Fails only if memory is refused.
    pub fn reserve(alloc: Global, nodes: u32) -> Result<Open, AllocError>
        ensures { IfOk result (λ todo.
            todo ≡ record { nodes = nodes; waiting = []; walks = true }) }
    {
        let waiting = Waiting::reserve(alloc, nodes)?;
        let links = vec![in alloc; NO_LINK; nodes as usize]?;
        Ok(Open {
            waiting,
            links,
            walks: true,
        })
    }

    /// An empty list with room for every node, without storage for walks. Fails only if memory is refused.
    pub fn reserve_without_walks(alloc: Global, nodes: u32) -> Result<Open, AllocError>
        ensures { IfOk result (λ todo.
            todo ≡ record { nodes = nodes; waiting = []; walks = false }) }
    {
        let waiting = Waiting::reserve(alloc, nodes)?;
        Ok(Open {
            waiting,
            links: Vec::new(alloc),
            walks: false,
        })
    }

    /// The number of waiting nodes.
    pub fn len(&self) -> usize
        ensures { result ≡ length self.now.waiting }
    {
        self.waiting.len()
    }

    /// Appends a node, unless it waits already.
    pub fn add(&mut self, node: u32)
        requires { (0 < node) × (node ≤ self.old.nodes) }
        ensures again { Contains self.old.waiting node → self.new ≡ self.old }
        ensures fresh { (Contains self.old.waiting node → ⊥)
            → self.new.waiting ≡ self.old.waiting ++ node ∷ [] }
        ensures room { (self.new.nodes ≡ self.old.nodes) × (self.new.walks ≡ self.old.walks) }
        ensures inside { Contains self.new.waiting node }
        ensures kept { (other : ℕ) → Contains self.old.waiting other
            → Contains self.new.waiting other }
        ensures at_most_one { length self.new.waiting ≤ length self.old.waiting + 1 }
    {
        self.waiting.add(node);
    }

    /// Takes the node that has waited longest.
    pub fn take(&mut self) -> Option<u32>
        ensures taken { MatchOption result ((self.old.waiting ≡ []) × (self.new ≡ self.old))
            (λ node. self.old.waiting ≡ node ∷ self.new.waiting) }
        ensures room { (self.new.nodes ≡ self.old.nodes) × (self.new.walks ≡ self.old.walks) }
        ensures node { IfSome result (λ node. (0 < node) × (node ≤ self.old.nodes)) }
    {
        self.waiting.take()
    }

    /// Joins a list and links, which are as they were at first.
    pub fn of(waiting: Waiting, links: Vec<Link>, walks: bool) -> Open
        requires { links.items ≡ no_links waiting.nodes walks }
        ensures { result
            ≡ record { nodes = waiting.nodes; waiting = waiting.waiting; walks = walks } }
    {
        Open {
            waiting,
            links,
            walks,
        }
    }

    /// The list, and the links, as they were at first.
    pub fn into_parts(self) -> (Waiting, Vec<Link>)
        ensures nodes { result.0.nodes ≡ self.nodes }
        ensures waiting { result.0.waiting ≡ self.waiting }
        ensures links { result.1.items ≡ no_links self.nodes self.walks }
    {
        let Open { waiting, links, .. } = self;
        (waiting, links)
    }
}

impl Opens for Open {
    ghost use Rattle.std.specs.Prelude.{Contains, length};

    ghost room = { λ todo. record { nodes = todo.nodes; walks = todo.walks } };

    ghost waits = { λ todo label node. Contains todo.waiting node };

    ghost size = { λ todo. length todo.waiting };

    fn open(&mut self, node: u32, _time: u64) {
        self.add(node);
    }
}
