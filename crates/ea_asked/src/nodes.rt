//! Whether searches may be asked for some nodes.
ghost use Rattle.std.specs.Prelude.{◌↔◌, All, IsTrue};
ghost use Rattle.ea_road.specs.Roads.{IsNode};

/// Whether these are numbers of nodes in a network of this number of nodes.
pub fn are_nodes(nodes: u32, asked: &[u32]) -> bool
    ensures { IsTrue result ↔ All (IsNode nodes) asked.now }
{
    for node in asked {
        if *node == 0 || *node > nodes {
            return false;
        }
    }
    true
}
