// The faults of a table's text, as they are shown.
use crate::table::read_bytes;
use std::alloc::Global;
use std::process::Abort;
use std::test::Fail;

// What the fault of a text says after its line.
fn said(heap: Global, bytes: &[u8]) -> Result<String, Fail> {
    let fault = read_bytes(heap, bytes).err().ok_or("no fault")?;
    let line = fault.line().ok_or("no line")?;
    Ok(format!(in heap; "{line}: {fault}")?)
}

fn faults<R: Abort + AllocGlobal>(rt: &R, bytes: &[u8], expected: &str) -> Result<(), Fail> {
    assert_eq!(rt; said(rt.alloc(), bytes)?.as_str(), expected);
    Ok(())
}

#[test]
fn shows_each_fault(rt: HostRuntime) -> Result<(), Fail> {
    faults(
        &rt,
        b"a: 1\nno colon",
        "2: expected a colon after the name of a rule",
    )?;
    faults(
        &rt,
        b"# none\n\n \t: 1",
        "3: expected a name before the colon",
    )?;
    faults(
        &rt,
        b"a: 1\r\nb: 2\r\n a :3",
        "3: expected a new name, found \"a\", which stands at line 1",
    )?;
    faults(
        &rt,
        b"a: 1 12x 2",
        "1: expected a number from 0 to 4294967295, found \"12x\"",
    )?;
    faults(
        &rt,
        b"a: 4294967296",
        "1: expected a number from 0 to 4294967295, found \"4294967296\"",
    )?;
    faults(&rt, b"a: 1\nb: \xff", "2: expected UTF-8 text")
}

#[test]
fn cuts_a_long_word(rt: HostRuntime) -> Result<(), Fail> {
    faults(
        &rt,
        b"a: 0123456789012345678901234567890123456789y",
        "1: expected a number from 0 to 4294967295, found \"0123456789012345678901234567890123456789...\"",
    )
}

#[test]
fn reads_rules(rt: HostRuntime) -> Result<(), Fail> {
    let entries = read_bytes(
        rt.alloc(),
        b"# t\r\n flute 8 :\t0xfF 0 4294967295\n\nempty:\n",
    )?;
    assert_eq!(rt; entries.len(), 2);
    assert_eq!(rt; entries[0].name.as_str(), "flute 8");
    assert_eq!(rt;
        entries[0].words.as_slice(),
        [255, 0, 4294967295].as_slice()
    );
    assert_eq!(rt; entries[0].line, 2);
    assert_eq!(rt; entries[1].name.as_str(), "empty");
    assert!(rt; entries[1].words.is_empty());
    Ok(())
}
