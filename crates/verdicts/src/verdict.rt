// What is said of a rule, and of all of them.
ghost use Rattle.std.specs.Prelude.{◌≡◌, ◌+◌, length};
ghost use Rattle.verdicts.specs.Verdicts.{VerdictOn, acceptances};

use crate::rules::Rules;
use rule::fault::Fault;
use rule::intake::intake_entry;
use std::fmt;

// A rule is accepted, or it is refused by this fault.
#[derive(Clone, Copy, Debug, PartialEq, Eq)]
pub struct Verdict(pub Result<(), Fault>);

impl fmt::Display for Verdict {
    fn fmt<W: fmt::Write>(&self, f: &mut fmt::Formatter<W>) -> fmt::Result {
        match self.0 {
            Ok(()) => f.write_str("accepted"),
            Err(fault) => write!(f, "refused {}, {fault}", fault.number()),
        }
    }
}

pub fn verdict_of(words: &[u32]) -> Verdict
    ensures { VerdictOn words.now result }
{
    Verdict(intake_entry(words).map(|_| ()))
}

// How many rules are accepted, and how many are refused.
#[derive(Clone, Copy, Debug, PartialEq, Eq)]
pub struct Tally {
    pub accepted: usize,
    pub refused: usize,
}

impl Tally {
    pub fn of(verdicts: &[Verdict]) -> Tally
        ensures accepted { result.accepted ≡ acceptances verdicts.now }
        ensures whole { result.accepted + result.refused ≡ length verdicts.now }
    {
        let accepted = verdicts.iter().filter(|verdict| verdict.0.is_ok()).count();
        let refused = verdicts.len() - accepted;
        Tally { accepted, refused }
    }
}

impl fmt::Display for Tally {
    fn fmt<W: fmt::Write>(&self, f: &mut fmt::Formatter<W>) -> fmt::Result {
        let Tally { accepted, refused } = *self;
        let rules = Rules(accepted.saturating_add(refused));
        write!(f, "{rules}: {accepted} accepted, {refused} refused")
    }
}
