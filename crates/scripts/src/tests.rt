// Scripts as they are read, and the faults of their text as they are shown.
use crate::script::{Script, read_script};
use hashing::named::HasherName;
use std::process::Abort;
use std::test::Fail;

fn faults<R: Abort + AllocGlobal>(rt: &R, bytes: &[u8], expected: &str) -> Result<(), Fail> {
    let fault = read_script(rt.alloc(), bytes).err().ok_or("no fault")?;
    assert_eq!(rt; format!(in rt.alloc(); "{fault}")?.as_str(), expected);
    Ok(())
}

fn reads<R: Abort + AllocGlobal>(rt: &R, bytes: &[u8], expected: &str) -> Result<(), Fail> {
    let script = read_script(rt.alloc(), bytes)?;
    assert_eq!(rt; format!(in rt.alloc(); "{script:?}")?.as_str(), expected);
    Ok(())
}

#[test]
fn reads_rules(rt: HostRuntime) -> Result<(), Fail> {
    reads(
        &rt,
        b"# a comment\n\ncatalogue rules slots 8 units 4096 hasher fnv1a\n\
        enter 100 0x1F 0\nfind\n# another\n \tcut 1\ncount\nclass 0\nhash 4294967295\nrun 2 \n",
        "Rules(Heading { slots: 8, units: 4096, hasher: Fnv1a }, \
        [Enter([100, 31, 0]), Find([]), Cut(1), Count, Class(0), Hash(4294967295), Run(2)])",
    )
}

// The hasher is left out, and lines end with a carriage return.
#[test]
fn reads_names(rt: HostRuntime) -> Result<(), Fail> {
    reads(
        &rt,
        b"catalogue names slots 0x10 units 64\r\nenter 104 255 0x00\r\n\r\nfind 104\r\ncount",
        "Names(Heading { slots: 16, units: 64, hasher: Rotating }, \
        [Enter([104, 255, 0]), Find([104]), Count])",
    )
}

#[test]
fn reads_a_heading_alone(rt: HostRuntime) -> Result<(), Fail> {
    let script = read_script(
        rt.alloc(),
        b"catalogue rules slots 1 units 2 hasher rotating",
    )?;
    let Script::Rules(heading, calls) = script else {
        return Err(Fail::new("names"));
    };
    assert_eq!(rt; heading.hasher, HasherName::Rotating);
    assert!(rt; calls.is_empty());
    Ok(())
}

#[test]
fn shows_faults_of_headings(rt: HostRuntime) -> Result<(), Fail> {
    faults(
        &rt,
        b"# none\n\n",
        "expected a heading \"catalogue rules\" or \"catalogue names\", found the end of the text",
    )?;
    faults(
        &rt,
        b"\ncatalog rules slots 1 units 2",
        "line 2: expected \"catalogue rules\" or \"catalogue names\", found \"catalog\"",
    )?;
    faults(
        &rt,
        b"catalogue rule slots 1 units 2",
        "line 1: expected \"rules\" or \"names\", found \"rule\"",
    )?;
    faults(
        &rt,
        b"catalogue",
        "line 1: expected \"rules\" or \"names\", found the end of the line",
    )?;
    faults(
        &rt,
        b"catalogue rules units 2 slots 1",
        "line 1: expected \"slots\", found \"units\"",
    )?;
    faults(
        &rt,
        b"catalogue rules slots 1",
        "line 1: expected \"units\", found the end of the line",
    )
}

#[test]
fn shows_faults_of_hashers(rt: HostRuntime) -> Result<(), Fail> {
    faults(
        &rt,
        b"catalogue rules slots 1 units 2 3",
        "line 1: expected \"hasher\", found \"3\"",
    )?;
    faults(
        &rt,
        b"catalogue rules slots 1 units 2 hasher",
        "line 1: expected the name of a hasher (rotating or fnv1a), found the end of the line",
    )?;
    faults(
        &rt,
        b"catalogue rules slots 1 units 2 hasher md5",
        "line 1: expected the name of a hasher (rotating or fnv1a), found \"md5\"",
    )?;
    faults(
        &rt,
        b"catalogue rules slots 1 units 2 hasher fnv1a x",
        "line 1: expected the end of the line, found \"x\"",
    )
}

#[test]
fn shows_faults_of_calls(rt: HostRuntime) -> Result<(), Fail> {
    faults(
        &rt,
        b"catalogue rules slots 1 units 2\n\ncutt 1",
        "line 3: expected a call (enter, find, cut, count, class, hash or run), found \"cutt\"",
    )?;
    faults(
        &rt,
        b"catalogue rules slots 1 units 2\ncut",
        "line 2: expected a number from 0 to 4294967295, found the end of the line",
    )?;
    faults(
        &rt,
        b"catalogue rules slots 1 units 2\nrun -1",
        "line 2: expected a number from 0 to 4294967295, found \"-1\"",
    )?;
    faults(
        &rt,
        b"catalogue rules slots 1 units 2\nclass 1 2",
        "line 2: expected the end of the line, found \"2\"",
    )?;
    faults(
        &rt,
        b"catalogue rules slots 1 units 2\ncount 0",
        "line 2: expected the end of the line, found \"0\"",
    )
}

#[test]
fn shows_faults_of_units(rt: HostRuntime) -> Result<(), Fail> {
    faults(
        &rt,
        b"catalogue rules slots 1 units 2\nenter 1 4294967296",
        "line 2: expected a number from 0 to 4294967295, found \"4294967296\"",
    )?;
    faults(
        &rt,
        b"catalogue names slots 1 units 2\ncount\nfind 1\nenter 1 300 x",
        "line 4: expected a byte, at most 255, found \"300\"",
    )?;
    faults(
        &rt,
        b"catalogue names slots 1 units 2\nenter 1 \xff",
        "line 2: expected UTF-8 text",
    )
}
