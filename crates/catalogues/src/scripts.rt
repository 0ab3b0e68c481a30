// Calls in a row with the answers that they should have.
use crate::memory::Store;
use crate::words::{Answer, Call};
use catalogue::record::Slot;
use hashing::fnv1a::Fnv1a;
use hashing::hasher::Hasher;
use hashing::rotating::Rotating;
use std::alloc::AllocGlobal;
use std::process::Abort;
use std::test::Fail;

pub(crate) fn plays<H: Hasher>(rt: &impl Abort, store: &mut Store<H>, steps: &[(Call, Answer)]) {
    for (call, right) in steps {
        assert_eq!(rt; store.answer(*call), *right);
    }
}

// From the first call on, over clean memory.
fn history<H: Hasher, R: Abort + AllocGlobal>(
    rt: &R,
    slots: usize,
    units: usize,
    steps: &[(Call, Answer)],
) -> Result<(), Fail> {
    let mut store = Store::<H>::new(rt.alloc(), slots, units, Slot::default(), 0)?;
    plays(rt, &mut store, steps);
    Ok(())
}

// The same under both hashers.
pub(crate) fn both<R: Abort + AllocGlobal>(
    rt: &R,
    slots: usize,
    units: usize,
    steps: &[(Call, Answer)],
) -> Result<(), Fail> {
    history::<Rotating, R>(rt, slots, units, steps)?;
    history::<Fnv1a, R>(rt, slots, units, steps)
}
