// Examples that a reader can follow word by word.
use crate::number_of;
use rule::intake::{intake, intake_entry};
use std::test::Fail;

#[test]
fn the_expression_one_is_accepted(rt: HostRuntime) -> Result<(), Fail> {
    let words = [100, 1, 0, 0, 25, 0, 0, 1, 0];
    let nodes = intake(&words)?;
    assert_eq!(rt; nodes.places(), [0, 4].as_slice());
    Ok(())
}

#[test]
fn a_run_is_not_empty_and_ends_with_a_node(rt: HostRuntime) {
    assert_eq!(rt; number_of(intake(&[])), 2);
    assert_eq!(rt; number_of(intake(&[33, 0, 0])), 2);
    assert_eq!(rt; number_of(intake(&[33, 0, 0, 1])), 2);
}

#[test]
fn a_local_is_declared_before_it_is_used(rt: HostRuntime) {
    // { let #0 = #0; #0 }
    let words = [
        0, 0, 0, 0, 70, 0, 0, 1, 0, 29, 0, 0, 1, 1, 0, 0, 0, 0, 0, 0, 0, 0, 0, 0, 0, 0, 41, 0, 0,
        1, 5, 95, 0, 0, 4, 2, 3, 4, 6, 0, 0, 0, 0, 70, 0, 0, 1, 8, 29, 0, 0, 1, 9, 94, 0, 0, 2, 7,
        10, 15, 0, 0, 1, 11,
    ];
    assert_eq!(rt; number_of(intake(&words)), 6);
}

#[test]
fn the_never_type_is_the_same_as_nothing(rt: HostRuntime) {
    assert_eq!(rt; number_of(intake(&[67, 0, 0, 0])), 0);
    assert_eq!(rt; number_of(intake_entry(&[67, 0, 0, 0])), 7);
}
