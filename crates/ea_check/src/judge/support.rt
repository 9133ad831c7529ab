//! Marks of nodes whose reported times are supported by a source, or by an arc from an earlier time.
ghost use Rattle.std.specs.Prelude.{◌≡◌, ◌≢◌, ◌⊎◌, ℕ, IfOk, IsTrue, false, length, replicate};
ghost use Rattle.ea_road.specs.declared.TheConstants.{NONE};
ghost use Rattle.ea_road.specs.Roads.{IsNode};
ghost use Rattle.ea_check.specs.Supported.{IsMarked};
ghost use Rattle.ea_check.specs.Verdicts.{reported_time};

use crate::form::reported::Reported;
use ea_road::NONE;
use std::alloc::{AllocError, Global};

/// No mark, for each of this many nodes.
pub(crate) fn unmarked(alloc: Global, nodes: usize) -> Result<Vec<bool>, AllocError>
    ensures { IfOk result (λ marks. marks.items ≡ replicate nodes false) }
{
    vec![in alloc; false; nodes]
}

/// Marks a node.
pub(crate) fn mark(marks: &mut [bool], node: u32)
    requires { IsNode (length marks.old) node }
    ensures places { length marks.new ≡ length marks.old }
    ensures only { (other : ℕ) → IsNode (length marks.old) other → IsMarked marks.new other
        → IsMarked marks.old other ⊎ (node ≡ other) }
{
    marks[node as usize - 1] = true;
}

/// Whether each node with a reported time is marked.
pub(crate) fn are_all_marked(reported: &Reported, marks: &[bool]) -> bool
    requires { length marks.now ≡ length reported.now }
    ensures { IsTrue result → (node : ℕ) → IsNode (length reported.now) node
        → reported_time reported.now node ≢ NONE → IsMarked marks.now node }
{
    let table = reported.table();
    for place in 0..table.len() {
        if table[place] != NONE && !marks[place] {
            return false;
        }
    }
    true
}
