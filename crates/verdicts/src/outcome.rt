// What becomes of a rule when a table is changed.
ghost use Rattle.std.specs.Prelude.{◌≡◌};
ghost use Rattle.verdicts.specs.Outcomes.{JudgedAs, OutcomeAs, OutcomeBy, SoleAs, answered, both, kind_of};

use crate::pairs::PairTable;
use rule::fault::Fault;
use rule::intake::intake;
use sameness::compare::{CompareFault, Unfit, compare, compare_over};
use std::fmt;

// The table that a rule is refused in.
#[derive(Clone, Copy, Debug, PartialEq, Eq)]
pub enum Side {
    Old,
    New,
}

// Kept: a refusal is one of the outcomes that a census counts and a survey prints, and no failure of its maker, so this is no Result.
#[derive(Clone, Copy, Debug, PartialEq, Eq)]
pub enum Outcome {
    // in both tables, and the same
    Keep,
    // in both tables, and different
    Convert,
    // in the old table alone
    Gone,
    // in the new table alone
    Added,
    Refused(Side, Fault),
}

// An outcome without what it holds.
#[derive(Clone, Copy, Debug, PartialEq, Eq)]
pub enum Kind {
    Keep,
    Convert,
    Gone,
    Added,
    Refused,
}

impl From<Outcome> for Kind {
    ghost from_gives = { λ outcome kind. kind ≡ kind_of outcome };

    fn from(outcome: Outcome) -> Kind {
        match outcome {
            Outcome::Keep => Kind::Keep,
            Outcome::Convert => Kind::Convert,
            Outcome::Gone => Kind::Gone,
            Outcome::Added => Kind::Added,
            Outcome::Refused(_, _) => Kind::Refused,
        }
    }
}

// The outcome of a rule that is in both tables, where one of the two is no rule.
impl From<Unfit> for Outcome {
    ghost use Rattle.verdicts.specs.Outcomes.{unfit};

    ghost from_gives = { λ e outcome. outcome ≡ unfit e };

    fn from(e: Unfit) -> Outcome {
        match e {
            Unfit::First(fault) => Outcome::Refused(Side::Old, fault),
            Unfit::Second(fault) => Outcome::Refused(Side::New, fault),
        }
    }
}

impl Outcome {
    // The outcome of a rule that is in both tables, by what comparing the two says.
    // `None` where the pair table was too short for a comparison.
    pub fn answered(answer: Result<bool, CompareFault>) -> Option<Outcome>
        ensures { result ≡ answered answer }
    {
        match answer {
            Ok(same) => Some(Outcome::of_both(same)),
            Err(CompareFault::Unfit(e)) => Some(Outcome::from(e)),
            Err(CompareFault::PairTable) => None,
        }
    }

    // The outcome of two rules that are the same, or are not.
    fn of_both(same: bool) -> Outcome
        ensures { result ≡ both same }
    {
        if same {
            Outcome::Keep
        } else {
            Outcome::Convert
        }
    }

    // The outcome of a rule that is in both tables: it is kept exactly when the two are rules and the same.
    pub fn judged(old: &[u32], new: &[u32]) -> Outcome
        ensures { OutcomeAs old.now new.now result }
    {
        let mut pairs = PairTable::new();
        match compare_over(old, new, &mut pairs.places) {
            Ok(same) => Outcome::of_both(same),
            Err(e) => Outcome::from(e),
        }
    }

    // The outcome of a rule that is in one table alone.
    pub fn sole(side: Side, words: &[u32]) -> Outcome
        ensures { SoleAs side words.now result }
    {
        match intake(words) {
            Ok(_) => match side {
                Side::Old => Outcome::Gone,
                Side::New => Outcome::Added,
            },
            Err(fault) => Outcome::Refused(side, fault),
        }
    }
}

// What becomes of a rule that is in both tables: it is kept exactly when the two are rules and the same.
pub fn outcome_of(old: &[u32], new: &[u32], pairs: &mut [u32]) -> Option<Outcome>
    ensures judged { JudgedAs old.now new.now pairs.old result }
    ensures table { OutcomeBy old.now new.now pairs.old pairs.new result }
{
    Outcome::answered(compare(old, new, pairs))
}

impl fmt::Display for Side {
    fn fmt<W: fmt::Write>(&self, f: &mut fmt::Formatter<W>) -> fmt::Result {
        f.write_str(match self {
            Side::Old => "OLD",
            Side::New => "NEW",
        })
    }
}

impl fmt::Display for Outcome {
    fn fmt<W: fmt::Write>(&self, f: &mut fmt::Formatter<W>) -> fmt::Result {
        match self {
            Outcome::Keep => f.write_str("keep"),
            Outcome::Convert => f.write_str("convert"),
            Outcome::Gone => f.write_str("gone"),
            Outcome::Added => f.write_str("new"),
            Outcome::Refused(side, fault) => {
                write!(f, "refused {} in {side}, {fault}", fault.number())
            }
        }
    }
}
