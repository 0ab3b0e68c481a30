// How many rules have each outcome.
ghost use Rattle.std.specs.Prelude.{◌≡◌, map, ◌==◌};
ghost use Rattle.verdicts.specs.Censuses.{CensusOf, outcomes_of};
ghost use Rattle.verdicts.specs.Outcomes.{counted};
ghost use Rattle.verdicts.specs.declared.outcome.Outcome.{Outcome};

use crate::outcome::{Kind, Outcome};
use crate::rules::Rules;
use crate::survey::Line;
use std::fmt;

// What has an outcome: an outcome itself, and a line of a survey.
trait HasOutcome {
    ghost outcome: { Self → Outcome };

    fn outcome(&self) -> Outcome
        ensures { result ≡ outcome self.now };
}

impl HasOutcome for Outcome {
    ghost outcome = { λ o. o };

    fn outcome(&self) -> Outcome {
        *self
    }
}

impl HasOutcome for Line<'_> {
    ghost outcome = { λ l. l.outcome };

    fn outcome(&self) -> Outcome {
        self.outcome
    }
}

fn count<T: HasOutcome>(items: &[T], kind: Kind) -> usize
    ensures { result ≡ counted kind (map T.outcome items.now) }
{
    items
        .iter()
        .map(|item| item.outcome())
        .filter(|outcome| Kind::from(*outcome) == kind)
        .count()
}

#[tactic(auto, using(crate::proofs::Counting::whole, crate::proofs::Counting::none_refused, crate::proofs::Counting::refused_none))]
fn census_of<T: HasOutcome>(items: &[T]) -> Census
    ensures { CensusOf (map T.outcome items.now) result }
{
    Census {
        keep: count(items, Kind::Keep),
        convert: count(items, Kind::Convert),
        gone: count(items, Kind::Gone),
        added: count(items, Kind::Added),
        refused: count(items, Kind::Refused),
    }
}

#[derive(Clone, Copy, Debug, PartialEq, Eq)]
pub struct Census {
    pub keep: usize,
    pub convert: usize,
    pub gone: usize,
    pub added: usize,
    pub refused: usize,
}

impl Census {
    pub fn of(outcomes: &[Outcome]) -> Census
        ensures { CensusOf outcomes.now result }
    {
        census_of(outcomes)
    }

    pub fn of_lines(lines: &[Line<'_>]) -> Census
        ensures { CensusOf (outcomes_of lines.now) result }
    {
        census_of(lines)
    }

    // Nothing is refused.
    pub fn is_certified(self) -> bool
        ensures { result ≡ (self.refused == 0) }
    {
        self.refused == 0
    }
}

impl fmt::Display for Census {
    fn fmt<W: fmt::Write>(&self, f: &mut fmt::Formatter<W>) -> fmt::Result {
        let Census {
            keep,
            convert,
            gone,
            added,
            refused,
        } = *self;
        let rules = Rules(
            keep.saturating_add(convert)
                .saturating_add(gone)
                .saturating_add(added)
                .saturating_add(refused),
        );
        write!(
            f,
            "{rules}: {keep} keep, {convert} convert, {gone} gone, {added} new, {refused} refused; "
        )?;
        if self.is_certified() {
            f.write_str("certified")
        } else {
            write!(f, "not certified: {refused} refused")
        }
    }
}
