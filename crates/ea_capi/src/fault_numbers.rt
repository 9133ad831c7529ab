//! The numbers of refusals: the program's and, above them, the library's.
ghost use Rattle.std.specs.Prelude.{◌≡◌};
ghost use Rattle.ea_capi.specs.Faults.{told};

use ea_load::{FileFault, FileWord};

/// The call succeeded.
pub const DONE: u32 = 0;
/// A number is out of its range.
pub const OUT_OF_RANGE: u32 = 6;
/// A text couldn't be read. Never for a text in memory.
pub const READ_FAILED: u32 = 11;
/// Memory was refused.
pub const OUT_OF_MEMORY: u32 = 13;
/// The handle holds no road.
pub const NO_ROAD: u32 = 16;
/// The handle holds no search.
pub const NO_SEARCH: u32 = 17;
/// A number is not that of a node.
pub const NO_SUCH_NODE: u32 = 18;
/// A departure is beyond the horizon.
pub const BEYOND_HORIZON: u32 = 19;
/// The last query asked for another node only.
pub const NOT_ASKED: u32 = 20;
/// The search has no room for walks.
pub const NO_WALKS: u32 = 21;
/// No walk reaches the node within the horizon.
pub const NOT_REACHED: u32 = 22;
/// Lists that belong together have different lengths.
pub const LENGTHS_DIFFER: u32 = 23;
/// There is no room for the result.
pub const ROOM_TOO_SMALL: u32 = 24;
// 25 is the header's: it refuses a second call in a search before the library is called.
/// The road isn't worth a preparation or a layout.
pub const NOT_WORTH: u32 = 26;
/// The list is no order of the nodes.
pub const NO_ORDER: u32 = 27;

/// The fault of a text that a caller passed.
#[repr(C)]
#[derive(Clone, Copy, Debug, PartialEq, Eq)]
pub struct Fault {
    /// The line, from 1; 0 for a fault of the whole text.
    pub line: u64,
    /// The refusal's number, 0 if there is no fault.
    pub number: u32,
    /// The text: 1 the network, 2 the timetables, 3 the report; 0 none.
    pub text: u32,
}

/// A fault as callers see it.
pub(crate) fn tell(fault: FileFault) -> Fault
    ensures { result ≡ told fault }
{
    match fault {
        FileFault::Input { file, fault } => Fault {
            line: fault.line,
            number: u32::from(fault.kind.number()),
            text: match file {
                FileWord::Gr => 1,
                FileWord::Tp => 2,
                _ => 0,
            },
        },
        FileFault::Read { file: _, fault: _ } => Fault {
            line: 0,
            number: READ_FAILED,
            text: 0,
        },
        FileFault::OutOfMemory => Fault {
            line: 0,
            number: OUT_OF_MEMORY,
            text: 0,
        },
    }
}
