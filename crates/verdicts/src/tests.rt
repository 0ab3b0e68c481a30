// What is said of rules, as it is printed.
use crate::census::Census;
use crate::comparison::{Uncompared, compare_named};
use crate::names::{Names, find, index};
use crate::outcome::{Outcome, Side};
use crate::pairs::PairTable;
use crate::survey::Survey;
use crate::verdict::{Tally, Verdict, verdict_of};
use rule::fault::Fault;
use std::fmt;
use std::process::Abort;
use std::test::Fail;
use tables::table::read_bytes;

fn shows<R: Abort + AllocGlobal, D: fmt::Display + Drop>(
    rt: &R,
    what: D,
    expected: &str,
) -> Result<(), Fail> {
    assert_eq!(rt; format!(in rt.alloc(); "{what}")?.as_str(), expected);
    Ok(())
}

#[test]
fn shows_verdicts(rt: HostRuntime) -> Result<(), Fail> {
    shows(&rt, verdict_of(&[40, 0, 0, 0]), "accepted")?;
    shows(
        &rt,
        verdict_of(&[]),
        "refused 2, empty, or ends inside a node",
    )?;
    shows(
        &rt,
        Verdict(Err(Fault::SameAsNothing)),
        "refused 7, a code that is the same as nothing",
    )?;
    let one = Tally {
        accepted: 1,
        refused: 0,
    };
    shows(&rt, one, "1 rule: 1 accepted, 0 refused")?;
    let twelve = Tally {
        accepted: 11,
        refused: 1,
    };
    shows(&rt, twelve, "12 rules: 11 accepted, 1 refused")
}

#[test]
fn shows_outcomes(rt: HostRuntime) -> Result<(), Fail> {
    shows(&rt, Outcome::Keep, "keep")?;
    shows(&rt, Outcome::Convert, "convert")?;
    shows(&rt, Outcome::Gone, "gone")?;
    shows(&rt, Outcome::Added, "new")?;
    shows(
        &rt,
        Outcome::Refused(Side::Old, Fault::TooLong),
        "refused 1 in OLD, longer than 8192 words",
    )?;
    shows(
        &rt,
        Outcome::Refused(Side::New, Fault::NotATree),
        "refused 4 in NEW, a child number not below its node's, or a node that is not a child exactly once",
    )
}

#[test]
fn shows_censuses(rt: HostRuntime) -> Result<(), Fail> {
    let mut census = Census {
        keep: 0,
        convert: 1,
        gone: 0,
        added: 0,
        refused: 0,
    };
    shows(
        &rt,
        census,
        "1 rule: 0 keep, 1 convert, 0 gone, 0 new, 0 refused; certified",
    )?;
    census.keep = 5;
    census.gone = 2;
    census.added = 3;
    census.refused = 4;
    shows(
        &rt,
        census,
        "15 rules: 5 keep, 1 convert, 2 gone, 3 new, 4 refused; not certified: 4 refused",
    )
}

#[test]
fn shows_partners(rt: HostRuntime) -> Result<(), Fail> {
    let mut pairs = PairTable::new();
    shows(&rt, pairs, "")?;
    pairs.places[0] = 5;
    pairs.places[1023] = 0;
    pairs.places[1024] = 1023;
    pairs.places[1029] = 0;
    shows(&rt, pairs, ": #0 -> #5, #1023 -> #0")
}

// A name leads to the place of its rule, and the place to the rule, also in a copy.
#[test]
fn finds_rules(rt: HostRuntime) -> Result<(), Fail> {
    let heap = rt.alloc();
    let table = read_bytes(heap, b"# two rules\na: 40 0 0 0\nb:\n")?;
    let entries = table.as_slice();
    let places = index(heap, entries)?;
    let copied_places = places.clone()?;
    let names = Names::of(heap, entries)?;
    let copied_names = names.clone()?;
    for (name, place, line) in [
        ("a", Some(0), Some(2)),
        ("b", Some(1), Some(3)),
        ("c", None, None),
    ] {
        assert_eq!(rt; copied_places.get(name).copied(), place);
        assert_eq!(rt; find(entries, &places, name).map(|entry| entry.line), line);
        assert_eq!(rt; copied_names.get(name).map(|entry| entry.line), line);
    }
    Ok(())
}

fn compares<'n, R: Abort + AllocGlobal>(
    rt: &R,
    first: &'n str,
    second: &'n str,
    expected: &str,
) -> Result<(), Fail> {
    let table = b"a: 0 0 0 0 41 3 0 1 0\nb: 0 0 0 0 41 5 0 1 0\nc: 40 0 0 0\nd:\n";
    let heap = rt.alloc();
    let entries = read_bytes(heap, table)?;
    match compare_named(heap, entries.as_slice(), first, second) {
        Ok(comparison) => shows(rt, comparison, expected),
        Err(Uncompared::Unnamed(name)) => {
            assert_eq!(rt; name, expected);
            Ok(())
        },
        Err(Uncompared::Memory) => Err(Fail::new("out of memory")),
    }
}

#[test]
fn compares_by_name(rt: HostRuntime) -> Result<(), Fail> {
    compares(&rt, "a", "b", "same: #3 -> #5")?;
    compares(&rt, "b", "a", "same: #5 -> #3")?;
    compares(&rt, "c", "c", "same")?;
    compares(&rt, "c", "a", "different")?;
    compares(&rt, "d", "x", "x")?;
    compares(&rt, "y", "x", "y")?;
    compares(&rt, "a", "d", "d: refused 2, empty, or ends inside a node")
}

// Each line of a survey, and then its census.
fn surveys<R: Abort + AllocGlobal>(
    rt: &R,
    old: &[u8],
    new: &[u8],
    expected: &str,
) -> Result<(), Fail> {
    let heap = rt.alloc();
    let old = read_bytes(heap, old)?;
    let new = read_bytes(heap, new)?;
    let survey = Survey::of(heap, old.as_slice(), new.as_slice())?;
    let mut text = String::new(heap);
    for line in survey.lines.as_slice() {
        writeln!(text, "{line}")?;
    }
    write!(text, "{}", survey.census)?;
    assert_eq!(rt; text.as_str(), expected);
    Ok(())
}

// Rules are paired by name, whatever their places.
#[test]
fn surveys_a_change(rt: HostRuntime) -> Result<(), Fail> {
    surveys(
        &rt,
        b"a: 40 0 0 0\nb: 40 0 0 0\nc: 7\nd: 40 0 0 0\n",
        b"e: 40 0 0 0\nf:\nc: 40 0 0 0\nb: 0 0 0 0 41 0 0 1 0\na: 40 0 0 0\n",
        "\
a: keep
b: convert
c: refused 2 in OLD, empty, or ends inside a node
d: gone
e: new
f: refused 2 in NEW, empty, or ends inside a node
6 rules: 1 keep, 1 convert, 1 gone, 1 new, 2 refused; not certified: 2 refused",
    )?;
    surveys(
        &rt,
        b"",
        b"",
        "0 rules: 0 keep, 0 convert, 0 gone, 0 new, 0 refused; certified",
    )
}
