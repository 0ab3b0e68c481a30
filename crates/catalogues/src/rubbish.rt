// Memory in which anything stands: before the first call it alters no answer, and after rubbish is written between calls each
// call still returns, and refuses only by the listed numbers.
use crate::histories::follows;
use crate::memory::Store;
use crate::picks::{Picks, word};
use crate::words::Answer;
use catalogue::kind::Kind;
use catalogue::record::Slot;
use hashing::fnv1a::Fnv1a;
use hashing::hasher::Hasher;
use hashing::rotating::Rotating;
use kinds::names::Names;
use std::alloc::AllocGlobal;
use std::process::Abort;
use std::test::Fail;

const ONES: Slot = Slot {
    start: usize::MAX,
    len: usize::MAX,
    hash: u64::MAX,
    class: usize::MAX,
    begun: usize::MAX,
};

// A slot that tells of the name a: where the units are all a, only its class is wrong.
fn plausible<H: Hasher>(start: usize) -> Slot {
    Slot {
        start,
        len: 1,
        hash: Names.hash::<H>(b"a"),
        class: 7,
        begun: 3,
    }
}

fn filled<H: Hasher, R: Abort + AllocGlobal>(rt: &R, slot: Slot, unit: u8) -> Result<(), Fail> {
    let mut store = Store::<H>::new(rt.alloc(), 12, 80, slot, unit)?;
    follows(rt, &mut store, 5)
}

fn each_filling<H: Hasher, R: Abort + AllocGlobal>(rt: &R) -> Result<(), Fail> {
    filled::<H, R>(rt, ONES, 255)?;
    filled::<H, R>(rt, plausible::<H>(0), b'a')?;
    filled::<H, R>(rt, plausible::<H>(79), b'a')?;
    filled::<H, R>(rt, plausible::<H>(80), b'b')
}

#[test]
fn what_stood_before_alters_no_answer(rt: HostRuntime) -> Result<(), Fail> {
    each_filling::<Rotating, _>(&rt)?;
    each_filling::<Fnv1a, _>(&rt)
}

// A number that is small, or near the highest.
fn size(picks: &mut Picks) -> usize {
    let near = (picks.next() % 90) as usize;
    match picks.next() % 3 {
        0 => usize::MAX - near,
        1 => near / 8,
        _ => near,
    }
}

// A slot that tells of anything, with the hash of some name.
fn any_slot<H: Hasher>(picks: &mut Picks) -> Slot {
    Slot {
        start: size(picks),
        len: size(picks),
        hash: Names.hash::<H>(word(picks.next())),
        class: size(picks),
        begun: size(picks),
    }
}

fn disturb<H: Hasher>(store: &mut Store<H>, picks: &mut Picks) {
    for slot in store.slots.iter_mut() {
        if picks.next() % 3 == 0 {
            *slot = any_slot::<H>(picks);
        }
    }
    for unit in store.units.iter_mut() {
        if picks.next() % 3 == 0 {
            *unit = (picks.next() % 256) as u8;
        }
    }
}

// Not refused, or by a number that is listed.
fn listed(number: u8) -> bool {
    matches!(number, 0..=7 | 20..=22)
}

fn fair(answer: Answer) -> bool {
    match answer {
        Answer::Refused(number) => number != 0 && listed(number),
        Answer::Told(a, b, c) => listed(a) && listed(b) && listed(c),
        Answer::Counts(standing, classes) => classes <= standing && standing <= 12,
        _ => true,
    }
}

fn disturbed<H: Hasher, R: Abort + AllocGlobal>(rt: &R, seed: u64) -> Result<(), Fail> {
    let mut picks = Picks { state: seed };
    let mut store = Store::<H>::new(rt.alloc(), 12, 80, ONES, 0)?;
    for _ in 0..1000 {
        assert!(rt; fair(store.answer(picks.call())));
        disturb(&mut store, &mut picks);
        assert!(rt; fair(store.counts()));
        assert!(rt; fair(store.told(12, 80, size(&mut picks))));
    }
    Ok(())
}

#[test]
fn calls_over_rubbish_return(rt: HostRuntime) -> Result<(), Fail> {
    disturbed::<Rotating, _>(&rt, 6)?;
    disturbed::<Fnv1a, _>(&rt, 7)
}
