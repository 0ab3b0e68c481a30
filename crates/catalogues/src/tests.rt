// The limits, cuts, and what is asked of entries.
use crate::memory::Store;
use crate::picks::{longest, too_long};
use crate::scripts::{both, plays};
use crate::words::{Answer, Call};
use catalogue::record::Slot;
use hashing::fnv1a::Fnv1a;
use hashing::hasher::Hasher;
use hashing::rotating::Rotating;
use std::alloc::AllocGlobal;
use std::process::Abort;
use std::test::Fail;

#[test]
fn the_slots_can_be_filled(rt: HostRuntime) -> Result<(), Fail> {
    let steps = [
        (Call::Enter(b"a"), Answer::Entered(0, 0)),
        (Call::Enter(b"b"), Answer::Entered(1, 1)),
        (Call::Enter(b"a"), Answer::Entered(2, 0)),
        (Call::Enter(b"a"), Answer::Refused(20)),
        (Call::Enter(b"c"), Answer::Refused(20)),
        (Call::Counts, Answer::Counts(3, 2)),
        (Call::Find(b"b"), Answer::Found(Some(1))),
        (Call::Find(b"c"), Answer::Found(None)),
    ];
    both(&rt, 3, 100, &steps)
}

#[test]
fn the_units_can_be_filled(rt: HostRuntime) -> Result<(), Fail> {
    let steps = [
        (Call::Enter(b"aa"), Answer::Entered(0, 0)),
        (Call::Enter(b"bbbb"), Answer::Refused(21)),
        (Call::Enter(b"bbb"), Answer::Entered(1, 1)),
        (Call::Enter(b"c"), Answer::Refused(21)),
        (Call::Enter(b"aa"), Answer::Refused(21)),
        (Call::Counts, Answer::Counts(2, 2)),
        (Call::Entry(0, b"aa"), Answer::Class(0)),
        (Call::Entry(1, b"bbb"), Answer::Class(1)),
    ];
    both(&rt, 9, 5, &steps)
}

#[test]
fn the_input_is_tested_first_and_the_units_last(rt: HostRuntime) -> Result<(), Fail> {
    let steps = [
        (Call::Enter(too_long()), Answer::Refused(1)),
        (Call::Enter(b"aaa"), Answer::Refused(21)),
        (Call::Enter(b"aa"), Answer::Entered(0, 0)),
        (Call::Enter(b"aaa"), Answer::Refused(20)),
        (Call::Enter(too_long()), Answer::Refused(1)),
        (Call::Enter(b""), Answer::Refused(2)),
        (Call::Counts, Answer::Counts(1, 1)),
    ];
    both(&rt, 1, 2, &steps)
}

#[test]
fn a_name_has_1_to_255_bytes(rt: HostRuntime) -> Result<(), Fail> {
    let steps = [
        (Call::Find(longest()), Answer::Found(None)),
        (Call::Enter(longest()), Answer::Entered(0, 0)),
        (Call::Find(longest()), Answer::Found(Some(0))),
        (Call::Enter(too_long()), Answer::Refused(1)),
        (Call::Find(too_long()), Answer::Refused(1)),
        (Call::Enter(b""), Answer::Refused(2)),
        (Call::Find(b""), Answer::Refused(2)),
        (Call::Counts, Answer::Counts(1, 1)),
        (Call::Entry(0, longest()), Answer::Class(0)),
    ];
    both(&rt, 9, 600, &steps)
}

// Three names by turns, so that each is found among the first three entries.
fn turn(i: usize) -> &'static [u8] {
    match i % 3 {
        0 => b"a",
        1 => b"b",
        _ => b"c",
    }
}

fn most_entries<H: Hasher, R: Abort + AllocGlobal>(rt: &R) -> Result<(), Fail> {
    let mut store = Store::<H>::new(rt.alloc(), 65540, 65540, Slot::default(), 0)?;
    for i in 0..65536 {
        assert_eq!(rt; store.enter(turn(i)), Answer::Entered(i, i % 3));
    }
    let steps = [
        (Call::Enter(b"a"), Answer::Refused(20)),
        (Call::Enter(b"d"), Answer::Refused(20)),
        (Call::Counts, Answer::Counts(65536, 3)),
        (Call::Entry(65535, b"a"), Answer::Class(0)),
        (Call::Cut(65535), Answer::Cut),
        (Call::Enter(b"d"), Answer::Entered(65535, 3)),
        (Call::Enter(b"d"), Answer::Refused(20)),
        (Call::Find(b"d"), Answer::Found(Some(65535))),
    ];
    plays(rt, &mut store, &steps);
    Ok(())
}

#[test]
fn no_more_than_65536_entries_stand(rt: HostRuntime) -> Result<(), Fail> {
    most_entries::<Rotating, _>(&rt)?;
    most_entries::<Fnv1a, _>(&rt)
}

#[test]
fn old_memory_is_used_again(rt: HostRuntime) -> Result<(), Fail> {
    let steps = [
        (Call::Enter(b"aa"), Answer::Entered(0, 0)),
        (Call::Enter(b"b"), Answer::Entered(1, 1)),
        (Call::Enter(b"aa"), Answer::Entered(2, 0)),
        (Call::Enter(b"ccc"), Answer::Entered(3, 2)),
        (Call::Enter(b"b"), Answer::Entered(4, 1)),
        (Call::Cut(4), Answer::Cut),
        (Call::Counts, Answer::Counts(4, 3)),
        (Call::Cut(3), Answer::Cut),
        (Call::Counts, Answer::Counts(3, 2)),
        (Call::Find(b"ccc"), Answer::Found(None)),
        (Call::Enter(b"dd"), Answer::Entered(3, 2)),
        (Call::Enter(b"ccc"), Answer::Refused(21)),
        (Call::Enter(b"dd"), Answer::Entered(4, 2)),
        (Call::Enter(b"b"), Answer::Refused(20)),
        (Call::Counts, Answer::Counts(5, 3)),
        (Call::Entry(0, b"aa"), Answer::Class(0)),
        (Call::Entry(1, b"b"), Answer::Class(1)),
        (Call::Entry(2, b"aa"), Answer::Class(0)),
        (Call::Entry(3, b"dd"), Answer::Class(2)),
        (Call::Entry(4, b"dd"), Answer::Class(2)),
        (Call::Cut(0), Answer::Cut),
        (Call::Counts, Answer::Counts(0, 0)),
        (Call::Find(b"aa"), Answer::Found(None)),
        (Call::Enter(b"dd"), Answer::Entered(0, 0)),
        (Call::Entry(0, b"dd"), Answer::Class(0)),
    ];
    both(&rt, 5, 9, &steps)
}

#[test]
fn a_cut_above_or_at_the_standing_number_alters_nothing(rt: HostRuntime) -> Result<(), Fail> {
    let steps = [
        (Call::Cut(1), Answer::Refused(22)),
        (Call::Enter(b"aa"), Answer::Entered(0, 0)),
        (Call::Enter(b"b"), Answer::Entered(1, 1)),
        (Call::Cut(3), Answer::Refused(22)),
        (Call::Cut(usize::MAX), Answer::Refused(22)),
        (Call::Cut(2), Answer::Cut),
        (Call::Counts, Answer::Counts(2, 2)),
        (Call::Entry(0, b"aa"), Answer::Class(0)),
        (Call::Entry(1, b"b"), Answer::Class(1)),
        (Call::Enter(b"bb"), Answer::Refused(21)),
        (Call::Enter(b"b"), Answer::Entered(2, 1)),
    ];
    both(&rt, 9, 4, &steps)
}

#[test]
fn only_what_stands_in_the_memory_handed_is_told(rt: HostRuntime) -> Result<(), Fail> {
    let steps = [
        (Call::Enter(b"aa"), Answer::Entered(0, 0)),
        (Call::Enter(b"b"), Answer::Entered(1, 1)),
        (Call::Enter(b"aa"), Answer::Entered(2, 0)),
        (Call::Told(5, 20, 2), Answer::Told(0, 0, 0)),
        (Call::Told(5, 20, 3), Answer::Told(22, 22, 22)),
        (Call::Told(5, 20, 5), Answer::Told(22, 22, 22)),
        (Call::Told(5, 20, usize::MAX), Answer::Told(22, 22, 22)),
        (Call::Told(3, 20, 2), Answer::Told(0, 0, 0)),
        (Call::Told(2, 20, 2), Answer::Told(22, 22, 22)),
        (Call::Told(2, 20, 1), Answer::Told(0, 0, 0)),
        (Call::Told(0, 20, 0), Answer::Told(22, 22, 22)),
        (Call::Told(5, 5, 2), Answer::Told(0, 0, 0)),
        (Call::Told(5, 4, 2), Answer::Told(0, 0, 22)),
        (Call::Told(5, 2, 1), Answer::Told(0, 0, 22)),
        (Call::Told(5, 2, 0), Answer::Told(0, 0, 0)),
        (Call::Told(5, 0, 0), Answer::Told(0, 0, 22)),
        (Call::Cut(1), Answer::Cut),
        (Call::Told(5, 20, 0), Answer::Told(0, 0, 0)),
        (Call::Told(5, 20, 1), Answer::Told(22, 22, 22)),
    ];
    both(&rt, 5, 20, &steps)
}
