//! Arcs of a graph's text that are read aside, behind the problem line, and put behind those before them.
ghost use Rattle.std.specs.Prelude.{◌≡◌};
ghost use Rattle.ea_input.specs.GraphPieces.{BeginsAside, IsAppended};
ghost use Rattle.ea_input.specs.Views.{read_of};

use crate::graph::GraphReader;
use ea_blocks::BlockReader;
use std::alloc::Global;

/// Puts the arcs of a reader aside behind those of another, if both have as many nodes and no more arcs come together than are
/// announced. Returns whether they are put there.
fn append(reader: &mut GraphReader, aside: GraphReader) -> bool
    ensures { IsAppended (read_of reader.old) (read_of aside) (read_of reader.new) result }
{
    let Some(now) = reader.size else {
        return false;
    };
    let Some(size) = aside.size else {
        return false;
    };
    let mut more = aside.arcs;
    let announced = now.arcs as usize;
    let count = reader.arcs.len();
    if now.nodes != size.nodes || count > announced || more.len() > announced - count {
        return false;
    }
    match reader.arcs.append(&mut more) {
        Ok(()) => {
            // Room that can't be kept is given back.
            let _ = reader.spares.push(more);
            true
        }
        Err(_) => false,
    }
}

impl BlockReader for GraphReader {
    ghost IsAside = { λ reader. BeginsAside (read_of reader) };

    fn aside(&mut self, alloc: Global) -> Option<GraphReader> {
        let size = self.size?;
        let mut arcs = match self.spares.pop() {
            Some(spare) => spare,
            None => Vec::new(alloc),
        };
        arcs.clear();
        Some(GraphReader {
            size: Some(size),
            arcs,
            spares: Vec::new(alloc),
        })
    }

    fn take_aside(&mut self, aside: GraphReader) -> bool {
        append(self, aside)
    }
}
