// A number of rules, as it is printed.
ghost use Rattle.std.specs.Prelude.{Some};
ghost use Rattle.verdicts.specs.Rules.{rules_text};

use std::fmt;

#[derive(Clone, Copy, Debug, PartialEq, Eq)]
pub struct Rules(pub usize);

impl fmt::Display for Rules {
    ghost output = { λ rules. Some (rules_text rules.0) };

    fn fmt<W: fmt::Write>(&self, f: &mut fmt::Formatter<W>) -> fmt::Result {
        let noun = if self.0 == 1 { "rule" } else { "rules" };
        write!(f, "{} {noun}", self.0)
    }
}
