ghost use Rattle.std.specs.Prelude.{◌≡◌};
ghost use Rattle.ea_road.specs.Roads.{with_tail, without_tail};

use crate::arc::Arc;

/// An arc among those that leave a node: an `Arc` without its tail, in 12 bytes instead of 16.
#[derive(Clone, Copy, Debug, PartialEq, Eq)]
pub struct LeavingArc {
    /// The node that it leads to.
    pub head: u32,
    /// The travel time if the class is plain; travel times of other classes may use it.
    pub weight: u32,
    /// The class of its travel times; class 0 is plain.
    pub class: u32,
}

impl LeavingArc {
    /// An arc without its tail.
    #[inline(always)]
    pub fn of(arc: Arc) -> LeavingArc
        ensures { result ≡ without_tail arc }
    {
        LeavingArc {
            head: arc.head,
            weight: arc.weight,
            class: arc.class,
        }
    }

    /// The arc with its tail.
    #[inline(always)]
    pub fn with_tail(self, node: u32) -> Arc
        ensures { result ≡ with_tail self node }
    {
        Arc {
            tail: node,
            head: self.head,
            weight: self.weight,
            class: self.class,
        }
    }
}
