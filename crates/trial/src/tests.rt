use crate::guard::Trial;
use crate::pairs::{NONE, clear, paired, record, unpaired};

#[test]
fn failed_trial_puts_the_table_back(rt: HostRuntime) {
    let mut table = [NONE; 2048];
    record(&mut table, 3, 7);
    {
        let trial = Trial::of(&mut table);
        record(trial.table, 4, 8);
        record(trial.table, 1023, 0);
    }
    assert!(rt; paired(&table, 3, 7));
    assert!(rt; unpaired(&table, 4, 8));
    assert!(rt; unpaired(&table, 1023, 0));
}

#[test]
fn kept_trial_leaves_its_pairs(rt: HostRuntime) {
    let mut table = [NONE; 2048];
    record(&mut table, 3, 7);
    {
        let mut trial = Trial::of(&mut table);
        record(trial.table, 4, 8);
        trial.kept = true;
    }
    assert!(rt; paired(&table, 3, 7));
    assert!(rt; paired(&table, 4, 8));
}

#[test]
fn longer_table_keeps_its_tail(rt: HostRuntime) {
    let mut table = [5; 2050];
    clear(&mut table);
    {
        let trial = Trial::of(&mut table);
        record(trial.table, 1, 1023);
    }
    assert!(rt; unpaired(&table, 1, 1023));
    assert!(rt; table[2048] == 5 && table[2049] == 5);
}

#[test]
fn no_pair_outside_a_short_table(rt: HostRuntime) {
    let mut table = [NONE; 1030];
    record(&mut table, 2, 5);
    record(&mut table, 3, 6);
    assert!(rt; paired(&table, 2, 5));
    assert!(rt; !paired(&table, 3, 6) && !unpaired(&table, 3, 6) && table[3] == NONE);
}
