// A store of names and one of rules: a few calls, with their answers as they are printed.
use crate::store::Store;
use catalogue::kind::Kind;
use catalogue::record::Slot;
use hashing::fnv1a::Fnv1a;
use kinds::names::Names;
use kinds::rules::Rules;
use scripts::call::Call;
use scripts::heading::Heading;
use scripts::script::{Script, read_script};
use std::alloc::AllocGlobal;
use std::fmt;
use std::process::Abort;
use std::test::Fail;

fn plays<K: Kind + Drop, R: Abort + AllocGlobal>(
    rt: &R,
    kind: K,
    heading: Heading,
    calls: &[Call<K::Unit>],
    answers: &[&str],
) -> Result<(), Fail>
where
    K::Unit: fmt::Display + Default,
{
    let heap = rt.alloc();
    let unit = K::Unit::default();
    let mut store = Store::<K, Fnv1a>::new(
        heap,
        kind,
        heading.slots,
        heading.units,
        Slot::default(),
        unit,
    )?;
    assert_eq!(rt; calls.len(), answers.len());
    for (call, right) in calls.iter().zip(answers) {
        let answer = store.answer(heap, call)?;
        assert_eq!(rt; format!(in heap; "{answer}")?.as_str(), *right);
    }
    Ok(())
}

#[test]
fn a_store_of_names(rt: HostRuntime) -> Result<(), Fail> {
    let script = read_script(
        rt.alloc(),
        b"catalogue names slots 2 units 5\nenter 97 98\nenter 98\nenter 97\nfind 98\nfind 99\n\
        cut 1\ncount\nrun 0\nclass 1\nenter 1 2 3 4\nenter 97 98\n",
    )?;
    let Script::Names(heading, calls) = script else {
        return Err(Fail::new("rules"));
    };
    let answers = [
        "entry 0 class 0",
        "entry 1 class 1",
        "refused 20",
        "found 1",
        "none",
        "cut",
        "count 1",
        "run 97 98",
        "refused 22",
        "refused 21",
        "entry 1 class 0",
    ];
    plays(&rt, Names, heading, calls.as_slice(), &answers)
}

#[test]
fn a_store_of_rules(rt: HostRuntime) -> Result<(), Fail> {
    let script = read_script(
        rt.alloc(),
        b"catalogue rules slots 3 units 12\nenter 40 0 0 0\nenter 33 0 0 0\nenter 40 0 0 0\n\
        enter 40 0 0 0\nfind 33 0 0 0\ncount\nclass 2\nrun 1\ncut 0\nfind 40 0 0 0\nenter\nhash 0\n",
    )?;
    let Script::Rules(heading, calls) = script else {
        return Err(Fail::new("names"));
    };
    let answers = [
        "entry 0 class 0",
        "entry 1 class 1",
        "entry 2 class 0",
        "refused 20",
        "found 1",
        "count 2",
        "class 0",
        "run 33 0 0 0",
        "cut",
        "none",
        "refused 2",
        "refused 22",
    ];
    plays(&rt, Rules, heading, calls.as_slice(), &answers)
}
