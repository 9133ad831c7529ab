//! Reports of how far a call is.
ghost use Rattle.std.specs.Prelude.{◌≤◌};

/// Learns how far a call is, between problems and never within a search. No result of a call depends on it.
pub trait Watch {
    /// This many of the call's problems are done.
    fn did(&mut self, done: usize, of: usize)
        requires { done ≤ of };

    /// The report of one more problem was checked, with these numbers of nodes and of walks to them.
    fn checked(&mut self, nodes: usize, walks: usize);

    /// A network with this number of nodes is about to be prepared, before the first problem.
    fn prepares(&mut self, nodes: u32);
}

/// Reports nothing.
#[derive(Clone, Copy, Debug)]
pub struct Silent;

impl Watch for Silent {
    fn did(&mut self, _done: usize, _of: usize) {}

    fn checked(&mut self, _nodes: usize, _walks: usize) {}

    fn prepares(&mut self, _nodes: u32) {}
}
