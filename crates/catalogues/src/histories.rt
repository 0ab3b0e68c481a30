// Histories of some hundred calls: each hasher answers as the model does, so both answer alike.
use crate::memory::Store;
use crate::model::Model;
use crate::picks::Picks;
use crate::words::{Answer, Call};
use catalogue::record::Slot;
use hashing::fnv1a::Fnv1a;
use hashing::hasher::Hasher;
use hashing::rotating::Rotating;
use std::alloc::AllocGlobal;
use std::process::Abort;
use std::test::Fail;

// Each entry that stands has the run and the class that it should have.
fn agrees<H: Hasher>(rt: &impl Abort, store: &Store<H>, model: &Model) {
    let standing = model.runs.len();
    assert_eq!(rt;
        store.counts(),
        Answer::Counts(standing, model.begun(standing))
    );
    for (i, run) in model.runs.iter().enumerate() {
        assert_eq!(rt; store.entry(i, *run), Answer::Class(model.class(*run)));
    }
}

pub(crate) fn follows<H: Hasher, R: Abort + AllocGlobal>(
    rt: &R,
    store: &mut Store<H>,
    seed: u64,
) -> Result<(), Fail> {
    let mut picks = Picks { state: seed };
    let mut model = Model {
        runs: Vec::new(rt.alloc()),
        slots: store.slots.len(),
        units: store.units.len(),
    };
    for _ in 0..300 {
        let call = picks.call();
        assert_eq!(rt; store.answer(call), model.try_answer(call)?);
        agrees(rt, store, &model);
    }
    Ok(())
}

fn history<H: Hasher, R: Abort + AllocGlobal>(
    rt: &R,
    seed: u64,
    slots: usize,
    units: usize,
) -> Result<(), Fail> {
    let mut store = Store::<H>::new(rt.alloc(), slots, units, Slot::default(), 0)?;
    follows(rt, &mut store, seed)
}

fn same_history<R: Abort + AllocGlobal>(
    rt: &R,
    seed: u64,
    slots: usize,
    units: usize,
) -> Result<(), Fail> {
    history::<Rotating, R>(rt, seed, slots, units)?;
    history::<Fnv1a, R>(rt, seed, slots, units)
}

#[test]
fn both_hashers_answer_as_the_model(rt: HostRuntime) -> Result<(), Fail> {
    same_history(&rt, 1, 20, 1000)?;
    same_history(&rt, 2, 20, 60)?;
    same_history(&rt, 3, 5, 2000)
}

#[test]
fn the_model_answers_no_other_call(rt: HostRuntime) {
    let mut model = Model {
        runs: Vec::new(rt.alloc()),
        slots: 1,
        units: 1,
    };
    assert_eq!(rt; model.answer(Call::Enter(b"a")), Answer::Entered(0, 0));
    assert_eq!(rt; model.answer(Call::Counts), Answer::Other);
}
