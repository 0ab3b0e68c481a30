// The pair table, word by word.
use sameness::compare::compare;
use std::test::Fail;
use trial::pairs::NONE;

// A pattern that declares the local x.
fn binding(x: u32) -> [u32; 9] {
    [0, 0, 0, 0, 41, x, 0, 1, 0]
}

#[test]
fn a_table_of_2047_words_is_too_short(rt: HostRuntime) -> Result<(), Fail> {
    let mut pairs = [7u32; 2047];
    let fault = compare(&binding(0), &binding(1), &mut pairs)
        .err()
        .ok_or("compared")?;
    assert_eq!(rt; fault.number(), 23);
    assert_eq!(rt; pairs[0], 7);
    assert_eq!(rt; pairs[2046], 7);
    Ok(())
}

#[test]
fn a_longer_table_keeps_its_tail(rt: HostRuntime) -> Result<(), Fail> {
    let mut pairs = [7u32; 3000];
    let same = compare(&binding(3), &binding(5), &mut pairs)
        .ok()
        .ok_or("refused")?;
    assert!(rt; same);
    assert_eq!(rt; pairs[3], 5);
    assert_eq!(rt; pairs[1024 + 5], 3);
    assert_eq!(rt; pairs[5], NONE);
    assert_eq!(rt; pairs[2047], NONE);
    assert_eq!(rt; pairs[2048], 7);
    assert_eq!(rt; pairs[2999], 7);
    Ok(())
}

#[test]
fn different_rules_leave_no_partner(rt: HostRuntime) -> Result<(), Fail> {
    let mut pairs = [7u32; 2048];
    let same = compare(&binding(3), &[40, 0, 0, 0], &mut pairs)
        .ok()
        .ok_or("refused")?;
    assert!(rt; !same);
    assert_eq!(rt; pairs[3], NONE);
    assert_eq!(rt; pairs[2047], NONE);
    Ok(())
}
