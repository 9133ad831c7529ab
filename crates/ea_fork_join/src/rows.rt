//! Each part of a slice in a separate thread.
ghost use Rattle.std.specs.Prelude.{◌≡◌, ◌<◌, ◌≤◌, length, slice_index_or};
ghost use Rattle.ea_fork_join.specs.declared.TheConstants.{MOST_THREADS};
ghost use denote.Param.Send.{IsSend, IsSync};
ghost use Rattle.std.specs.Fork.{AcceptsAt, AcceptsChunksMut, AcceptsEach};
ghost use Rattle.std.specs.Fork.{AllInChunks, ChangesAt, ChangesChunks, ChangesEach};
ghost use Rattle.std.specs.Fork.Halves.{ChangesByChunks, IsChunked};

use std::thread::{Threads, join_mut};

/// Some parts of a slice: the index at which the first of them begins, and how many they are.
#[derive(Clone, Copy)]
pub(crate) struct Span {
    pub from: usize,
    pub count: usize,
}

/// Calls f(start, part) for each part of `size` elements of a slice, the last one maybe shorter, each in a
/// separate thread if one can be started. The last is called in this thread.
fn for_each_chunk_mut<R: Threads + Sync, T: Send, F: Fn(usize, &mut [T]) + Sync>(
    rt: &R,
    row: &mut [T],
    size: usize,
    f: &F,
)
    requires size { 0 < size }
    requires accepts { AcceptsChunksMut F.Fn f.now size row.old }
    ensures chunks { ChangesChunks F.Fn f.now size row.old row.new }
    ensures by_index { AllInChunks F.Fn f.now size row.old row.new }
{
    if !row.is_empty() {
        parts_from(rt, f, 0, size, row.len().div_ceil(size), row);
    }
}

/// Calls f for a part of one element.
pub(crate) fn at_one<T, F: Fn(usize, &mut T)>(f: &F, start: usize, part: &mut [T])
    requires one { length part.old ≡ 1 }
    requires accepts { (d : T) → AcceptsAt F.Fn f.now start (slice_index_or part.old 0 d) }
    ensures { (d : T) → ChangesAt F.Fn f.now start (slice_index_or part.old 0 d) (slice_index_or part.new 0 d) }
{
    f(start, &mut part[0]);
}

/// Calls f(i, &mut row[i]) for each element of a slice, each in a separate thread if one can be started. The
/// last is called in this thread.
pub fn for_each_mut<R: Threads + Sync, T: Send, F: Fn(usize, &mut T) + Sync>(
    rt: &R,
    row: &mut [T],
    f: &F,
)
    requires few { length row.old ≤ MOST_THREADS }
    requires accepts { AcceptsEach F.Fn f.now row.old }
    ensures { ChangesEach F.Fn f.now row.old row.new }
{
    let at_part = move |start: usize, part: &mut [T]|
        requires { (length part.now ≡ 1)
            × ((d : T) → AcceptsAt F.Fn f.now start (slice_index_or part.now 0 d)) }
        ensures { (d : T) → ChangesAt F.Fn f.entry.now start
            (slice_index_or part.entry.now 0 d) (slice_index_or part.exit.now 0 d) }
    { at_one(f, start, part) };
    for_each_chunk_mut(rt, row, 1, &at_part);
}

/// Calls f for the parts of a slice that begins at index `base` of the whole slice.
#[cycle(parts)]
pub(crate) fn parts_from<R: Threads + Sync, T: Send, F: Fn(usize, &mut [T]) + Sync>(
    rt: &R,
    f: &F,
    base: usize,
    size: usize,
    count: usize,
    row: &mut [T],
)
    requires { IsChunked (AcceptsAt F.Fn f.now) base size count row.old }
    ensures { ChangesByChunks (ChangesAt F.Fn f.now) base size row.old row.new }
{
    if count == 1 {
        f(base, row);
        return;
    }
    let (first, rest) = row.split_at_mut(size);
    let of_first = Span {
        from: base,
        count: 1,
    };
    let of_rest = Span {
        from: base + size,
        count: count - 1,
    };
    first_and_rest(rt, f, size, of_first, first, of_rest, rest);
}

/// Starts a thread for the first part, and continues with the others in this one. A separate function, so
/// that what the closures require is its parameters' contract.
#[cycle(parts)]
fn first_and_rest<R: Threads + Sync, T: Send, F: Fn(usize, &mut [T]) + Sync>(
    rt: &R,
    f: &F,
    size: usize,
    of_first: Span,
    first: &mut [T],
    of_rest: Span,
    rest: &mut [T],
)
    requires first { IsChunked (AcceptsAt F.Fn f.now) of_first.from size of_first.count first.old }
    requires rest { IsChunked (AcceptsAt F.Fn f.now) of_rest.from size of_rest.count rest.old }
    ensures first { ChangesByChunks (ChangesAt F.Fn f.now) of_first.from size first.old first.new }
    ensures rest { ChangesByChunks (ChangesAt F.Fn f.now) of_rest.from size rest.old rest.new }
{
    let Span {
        from: base,
        count: one,
    } = of_first;
    let Span {
        from: next,
        count: left,
    } = of_rest;
    let mut starting = ||
        requires { IsSync R.row × IsSync F.row × IsSend T.row
            × IsChunked (AcceptsAt F.Fn f.now) base size one first.now }
        ensures { ChangesByChunks (ChangesAt F.Fn f.entry.now) base size
            first.entry.now first.exit.now }
    { parts_from(rt, f, base, size, one, first) };
    let mut going_on = ||
        requires { IsSync R.row × IsSync F.row × IsSend T.row
            × IsChunked (AcceptsAt F.Fn f.now) next size left rest.now }
        ensures { ChangesByChunks (ChangesAt F.Fn f.entry.now) next size
            rest.entry.now rest.exit.now }
    { parts_from(rt, f, next, size, left, rest) };
    join_mut(rt, &mut starting, &mut going_on);
}
