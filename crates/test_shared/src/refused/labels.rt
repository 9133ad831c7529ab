// Each allocation of a label table, refused in turn.
use crate::asserts::assert_that;
use crate::labels::told_by_two_seats;
use linked_list_allocator::LocalHeap;
use std::test::Fail;
use test_support::tally::Tally;

/// Whether a table in this memory gives the right results, and closes with the labels; none if it was
/// refused.
fn tells(memory: &LocalHeap) -> Option<bool> {
    match told_by_two_seats(memory) {
        Ok((told, shares, closed)) => Some(told && shares && closed),
        Err(_) => None,
    }
}

#[test]
fn open_is_refused_or_whole(rt: HostRuntime) -> Result<(), Fail> {
    let mut tally = Tally::new();
    for step in 0..40 {
        let memory = LocalHeap::new(rt.alloc(), 24 + 4 * step)?;
        tally.note(tells(&memory), memory.used() == 0);
    }
    assert_that(&rt, "none wrong", tally.wrong == 0);
    assert_that(
        &rt,
        "some refused and some right",
        tally.refused >= 2 && tally.right >= 2,
    );
    Ok(())
}
