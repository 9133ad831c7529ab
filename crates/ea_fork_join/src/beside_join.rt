//! Each part of a slice in a separate thread, and other work in this one.
ghost use Rattle.std.specs.Prelude.{◌≡◌, ◌<◌, length, slice_index_or};
ghost use denote.Param.Send.{IsSend, IsSync};
ghost use Rattle.std.specs.Fork.{AcceptsAt, AcceptsChunksMut, AcceptsEach, AllInChunks, ChangesAt, ChangesChunks, ChangesEach};
ghost use Rattle.std.specs.Fork.Halves.{ChangesByChunks, IsChunked};

use crate::rows::{Span, at_one, parts_from};
use std::thread::{Threads, join_mut};

/// Calls f(start, part) for each part of `size` elements of a slice, the last one maybe shorter, each in a
/// separate thread if one can be started, while this thread does other work. Returns the result of that work.
/// The stack grows with each part, so there should be as few parts as threads to use.
pub fn for_each_chunk_mut_beside<
    R: Threads + Sync,
    T: Send,
    F: Fn(usize, &mut [T]) + Sync,
    X,
    B: FnMut() -> X,
>(rt: &R, size: usize, f: &F, row: &mut [T], beside: &mut B) -> X
    requires size { 0 < size }
    requires accepts { AcceptsChunksMut F.Fn f.now size row.old }
    requires beside { B.pre beside.old }
    ensures chunks { ChangesChunks F.Fn f.now size row.old row.new }
    ensures by_index { AllInChunks F.Fn f.now size row.old row.new }
    ensures beside { B.step beside.old result beside.new }
{
    if row.is_empty() {
        return beside();
    }
    parts_beside(rt, f, 0, size, row.len().div_ceil(size), row, beside)
}

/// Calls f for the parts of a slice that begins at index `base` of the whole slice, while this thread does
/// other work.
#[cycle(beside)]
fn parts_beside<R: Threads + Sync, T: Send, F: Fn(usize, &mut [T]) + Sync, X, B: FnMut() -> X>(
    rt: &R,
    f: &F,
    base: usize,
    size: usize,
    count: usize,
    row: &mut [T],
    beside: &mut B,
) -> X
    requires row { IsChunked (AcceptsAt F.Fn f.now) base size count row.old }
    requires beside { B.pre beside.old }
    ensures row { ChangesByChunks (ChangesAt F.Fn f.now) base size row.old row.new }
    ensures beside { B.step beside.old result beside.new }
{
    if count == 1 {
        return part_beside(rt, f, base, size, count, row, beside);
    }
    let (first, rest) = row.split_at_mut(size);
    let of_first = Span {
        from: base,
        count: 1,
    };
    let of_rest = Span {
        from: base + size,
        count: count - 1,
    };
    first_beside_rest(rt, f, size, of_first, first, of_rest, rest, beside)
}

/// Starts a thread for one part, while this one does other work.
fn part_beside<R: Threads + Sync, T: Send, F: Fn(usize, &mut [T]) + Sync, X, B: FnMut() -> X>(
    rt: &R,
    f: &F,
    base: usize,
    size: usize,
    one: usize,
    part: &mut [T],
    beside: &mut B,
) -> X
    requires part { IsChunked (AcceptsAt F.Fn f.now) base size one part.old }
    requires beside { B.pre beside.old }
    ensures part { ChangesByChunks (ChangesAt F.Fn f.now) base size part.old part.new }
    ensures beside { B.step beside.old result beside.new }
{
    let mut starting = move ||
        requires { IsSync R.row × IsSync F.row × IsSend T.row
            × IsChunked (AcceptsAt F.Fn f.now) base size one part.now }
        ensures { ChangesByChunks (ChangesAt F.Fn f.entry.now) base size
            part.entry.now part.exit.now }
    { parts_from(rt, f, base, size, one, part) };
    let (_, gave) = join_mut(rt, &mut starting, beside);
    gave
}

/// Starts a thread for the first part, and continues with the others in this one.
#[cycle(beside)]
fn first_beside_rest<R: Threads + Sync, T: Send, F: Fn(usize, &mut [T]) + Sync, X, B: FnMut() -> X>(
    rt: &R,
    f: &F,
    size: usize,
    of_first: Span,
    first: &mut [T],
    of_rest: Span,
    rest: &mut [T],
    beside: &mut B,
) -> X
    requires first { IsChunked (AcceptsAt F.Fn f.now) of_first.from size of_first.count first.old }
    requires rest { IsChunked (AcceptsAt F.Fn f.now) of_rest.from size of_rest.count rest.old }
    requires beside { B.pre beside.old }
    ensures first { ChangesByChunks (ChangesAt F.Fn f.now) of_first.from size first.old first.new }
    ensures rest { ChangesByChunks (ChangesAt F.Fn f.now) of_rest.from size rest.old rest.new }
    ensures beside { B.step beside.old result beside.new }
{
    let Span {
        from: base,
        count: one,
    } = of_first;
    let Span {
        from: next,
        count: left,
    } = of_rest;
    let mut starting = move ||
        requires { IsSync R.row × IsSync F.row × IsSend T.row
            × IsChunked (AcceptsAt F.Fn f.now) base size one first.now }
        ensures { ChangesByChunks (ChangesAt F.Fn f.entry.now) base size
            first.entry.now first.exit.now }
    { parts_from(rt, f, base, size, one, first) };
    let mut going_on = move || -> X
        requires { IsSync R.row × IsSync F.row × IsSend T.row
            × IsChunked (AcceptsAt F.Fn f.now) next size left rest.now
            × B.pre beside.now }
        ensures { ChangesByChunks (ChangesAt F.Fn f.entry.now) next size
            rest.entry.now rest.exit.now
            × B.step beside.entry.now result beside.exit.now }
    { parts_beside(rt, f, next, size, left, rest, beside) };
    let (_, gave) = join_mut(rt, &mut starting, &mut going_on);
    gave
}

/// Calls f(i, &mut row[i]) for each element of a slice, each in a separate thread if one can be started, while this
/// thread does other work. Returns the result of that work. There should be as few elements as threads to use.
pub fn for_each_mut_beside<
    R: Threads + Sync,
    T: Send,
    F: Fn(usize, &mut T) + Sync,
    X,
    B: FnMut() -> X,
>(rt: &R, f: &F, row: &mut [T], beside: &mut B) -> X
    requires accepts { AcceptsEach F.Fn f.now row.old }
    requires beside { B.pre beside.old }
    ensures row { ChangesEach F.Fn f.now row.old row.new }
    ensures beside { B.step beside.old result beside.new }
{
    let at_part = move |start: usize, part: &mut [T]|
        requires { (length part.now ≡ 1)
            × ((d : T) → AcceptsAt F.Fn f.now start (slice_index_or part.now 0 d)) }
        ensures { (d : T) → ChangesAt F.Fn f.entry.now start
            (slice_index_or part.entry.now 0 d) (slice_index_or part.exit.now 0 d) }
    { at_one(f, start, part) };
    for_each_chunk_mut_beside(rt, 1, &at_part, row, beside)
}
