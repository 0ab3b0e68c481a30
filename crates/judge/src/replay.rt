// `judge replay SCRIPT`: the answer of each call of a history.
use crate::hashers::{UnderHasher, under_hasher};
use crate::source::{Trouble, load_script};
use catalogue::kind::Kind;
use catalogue::record::{Catalogue, Slot};
use hashing::hasher::Hasher;
use kinds::names::Names;
use kinds::rules::Rules;
use replays::store::Store;
use scripts::call::Call;
use scripts::heading::Heading;
use scripts::script::Script;
use std::fmt;

pub fn replay<'a>(rt: &HostRuntime, script: &'a str) -> Result<(), Trouble<'a>> {
    match load_script(rt, script)? {
        Script::Rules(heading, calls) => play(rt, Rules, heading, calls.as_slice()),
        Script::Names(heading, calls) => play(rt, Names, heading, calls.as_slice()),
    }
}

fn play<'a, K: Kind + Drop>(
    rt: &HostRuntime,
    kind: K,
    heading: Heading,
    calls: &[Call<K::Unit>],
) -> Result<(), Trouble<'a>>
where
    K::Unit: fmt::Display + Default,
{
    let playing = Playing {
        rt,
        kind,
        heading,
        calls,
    };
    under_hasher(heading.hasher, playing)
}

#[derive(Drop)]
struct Playing<'r, K: Kind> {
    rt: &'r HostRuntime,
    kind: K,
    heading: Heading,
    calls: &'r [Call<K::Unit>],
}

impl<'r, K: Kind + Drop> UnderHasher for Playing<'r, K>
where
    K::Unit: fmt::Display + Default,
{
    type Output = Result<(), Trouble<'static>>;

    fn run<H: Hasher>(self) -> Result<(), Trouble<'static>> {
        let Playing {
            rt,
            kind,
            heading,
            calls,
        } = self;
        let heap = rt.alloc();
        // Kept: no `Store::new`, which makes the slots first; where the units cannot be had, no slot is filled here.
        let units = vec![in heap; K::Unit::default(); heading.units]?;
        let slots = vec![in heap; Slot::default(); heading.slots]?;
        let mut store = Store {
            kind,
            cat: Catalogue::<H>::new(),
            slots,
            units,
        };
        for call in calls {
            let answer = store.answer(heap, call)?;
            rt.println(&answer)?;
        }
        Ok(())
    }
}
