// Two rules compared, over a pair table of the comparison's own.
ghost use Rattle.verdicts.specs.Answers.{AnsweredAs};

use crate::pairs::PairTable;
use sameness::compare::{Unfit, compare_over};

// The partners of their locals where the two are the same rule, and none where they are different.
pub fn compare_rules(first: &[u32], second: &[u32]) -> Result<Option<PairTable>, Unfit>
    ensures { AnsweredAs first.now second.now result }
{
    let mut pairs = PairTable::new();
    let same = compare_over(first, second, &mut pairs.places)?;
    Ok(same.then_some(pairs))
}
