//! What the text of a timetable has.

/// How the arcs of a class are left. Times are at most 281,474,976,710,655.
#[derive(Clone, Copy, Debug, PartialEq, Eq)]
pub enum RawKind {
    /// At once.
    Plain,
    /// At the next time with the remainder `offset` by `period`, which is 1 to 2^32.
    Every {
        period: u64,
        offset: u64,
    },
    /// From `lo` on not before `hi`, which is later.
    Closed {
        lo: u64,
        hi: u64,
    },
    /// At once, and from `lo` on before `hi` it takes `extra` more, at most 2^32. From `hi` on an arc isn't arrived at before
    /// one that was left just before `hi`: not before `hi + weight + extra`.
    Rush {
        lo: u64,
        hi: u64,
        extra: u64,
    },
    /// At once, at the speeds of the steps of a period: `count` steps from the one at `first` on, each a time of the period and,
    /// from it to the next step's time, the speed in thousandths of the full one. At full speed an arc takes its weight.
    Speeds {
        period: u64,
        first: usize,
        count: usize,
    },
    /// At the next trip: `count` steps from the one at `first` on, each the time at which a trip leaves in each period, or once
    /// if the period is 0, and what its ride takes beside the weight.
    Trips {
        period: u64,
        first: usize,
        count: usize,
    },
    /// At once, and it takes the value of a function of the departure beside the weight: `count` points from the one at `first` on, each a
    /// time of each period, or a time if the period is 0, and the value then; between two points the straight line, rounded down.
    Points {
        period: u64,
        first: usize,
        count: usize,
    },
}

/// The kinds of a timetable, numbered from 1 on; the arcs that are given a class, each with
/// its class, in the order of the lines; and the steps of all kinds that have some, in one list.
/// The last class that an arc is given holds; class 0 is plain.
#[derive(Debug, Drop)]
pub struct RawTable {
    pub kinds: Vec<RawKind>,
    pub assigned: Vec<(u32, u32)>,
    pub steps: Vec<(u64, u64)>,
}
