// Two rules of a table compared by their names.
ghost use Rattle.std.specs.Prelude.{◌≡◌};
ghost use Rattle.verdicts.specs.Comparisons.{ComparisonAs};
ghost use Rattle.verdicts.specs.declared.comparison.Uncompared.TheVariants.{Memory};

use crate::answer::compare_rules;
use crate::names::Names;
use crate::pairs::PairTable;
use crate::verdict::Verdict;
use sameness::compare::Unfit;
use std::alloc::{AllocError, Global};
use std::fmt;
use tables::line::Entry;

// What is answered of the rules of two names.
#[derive(Clone, Copy)]
pub struct Comparison<'n> {
    pub first: &'n str,
    pub second: &'n str,
    // the partners of their locals where they are the same
    pub answer: Result<Option<PairTable>, Unfit>,
}

#[derive(Clone, Copy, Debug, PartialEq, Eq)]
pub enum Uncompared<'n> {
    // no rule has this name
    Unnamed(&'n str),
    Memory,
}

impl<'n> From<AllocError> for Uncompared<'n> {
    ghost from_gives = { λ _ fault. fault ≡ Memory };

    fn from(_e: AllocError) -> Uncompared<'n> {
        Uncompared::Memory
    }
}

pub fn compare_named<'n>(
    heap: Global,
    entries: &[Entry],
    first: &'n str,
    second: &'n str,
) -> Result<Comparison<'n>, Uncompared<'n>>
    ensures { ComparisonAs entries.now first.now second.now result }
{
    let names = Names::of(heap, entries)?;
    let one = names.get(first).ok_or(Uncompared::Unnamed(first))?;
    let other = names.get(second).ok_or(Uncompared::Unnamed(second))?;
    let answer = compare_rules(one.words.as_slice(), other.words.as_slice());
    Ok(Comparison {
        first,
        second,
        answer,
    })
}

impl<'n> fmt::Display for Comparison<'n> {
    fn fmt<W: fmt::Write>(&self, f: &mut fmt::Formatter<W>) -> fmt::Result {
        match self.answer {
            Ok(Some(pairs)) => write!(f, "same{pairs}"),
            Ok(None) => f.write_str("different"),
            Err(Unfit::First(fault)) => write!(f, "{}: {}", self.first, Verdict(Err(fault))),
            Err(Unfit::Second(fault)) => write!(f, "{}: {}", self.second, Verdict(Err(fault))),
        }
    }
}
