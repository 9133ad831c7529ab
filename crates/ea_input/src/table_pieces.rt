//! Assignments of a timetable's text that are read aside, behind others, and put behind those before them.
ghost use Rattle.std.specs.Prelude.{◌≡◌};
ghost use Rattle.ea_input.specs.TablePieces.{BeginsAside, IsAppended};
ghost use Rattle.ea_input.specs.TableViews.{read_of};

use crate::timetable::TableReader;
use ea_base::{MOST_ARCS, RawTable};
use ea_blocks::BlockReader;
use std::alloc::Global;

/// Puts the assignments of a reader aside behind those of another, if it read nothing else, both number arcs and kinds alike, no step is due,
/// and no more assignments come together than are announced. Returns whether they are put there.
fn append(reader: &mut TableReader, aside: TableReader) -> bool
    ensures { IsAppended (read_of reader.old) (read_of aside) (read_of reader.new) result }
{
    let Some(now) = reader.size else {
        return false;
    };
    let Some(size) = aside.size else {
        return false;
    };
    if now.kinds != size.kinds || reader.arcs != aside.arcs || reader.due() > 0 {
        return false;
    }
    let read = aside.table;
    if !read.kinds.is_empty() {
        return false;
    }
    let mut more = read.assigned;
    let announced = now.assigned as usize;
    let count = reader.table.assigned.len();
    if count > announced || more.len() > announced - count {
        return false;
    }
    match reader.table.assigned.append(&mut more) {
        Ok(()) => {
            // Room that can't be kept is given back.
            let _ = reader.spares.push(more);
            true
        }
        Err(_) => false,
    }
}

impl BlockReader for TableReader {
    ghost IsAside = { λ reader. BeginsAside (read_of reader) };

    /// A reader for a piece behind lines of assignments: the kinds are likely to be before it.
    fn aside(&mut self, alloc: Global) -> Option<TableReader> {
        let size = self.size?;
        // No network has more.
        let arcs = self.arcs.min(MOST_ARCS);
        if !self.is_behind && self.table.assigned.is_empty() {
            return None;
        }
        let mut assigned = match self.spares.pop() {
            Some(spare) => spare,
            None => Vec::new(alloc),
        };
        assigned.clear();
        Some(TableReader {
            arcs,
            size: Some(size),
            table: RawTable {
                kinds: Vec::new(alloc),
                assigned,
                steps: Vec::new(alloc),
            },
            is_behind: true,
            spares: Vec::new(alloc),
        })
    }

    fn take_aside(&mut self, aside: TableReader) -> bool {
        append(self, aside)
    }
}
