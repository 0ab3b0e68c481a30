// Rules as a kind of entry.
ghost use Rattle.std.specs.Prelude.{◌≡◌, ℕ, List};
ghost use Rattle.catalogue.specs.Numbers.{Bounded};
ghost use Rattle.catalogue.specs.States.{state};
ghost use Rattle.hashing.specs.Words.{hash_by};
ghost use Rattle.kinds.specs.Rules.{RulesPromised, meets_rule, rule_feed, same_rule};
ghost use Rattle.std.proofs.Common.{sym, ◌∙◌};
ghost use Rattle.rule.specs.Trees.{tree_of};
ghost use Rattle.sameness.proofs.Theorems;
ghost use Rattle.kinds.specs.Cleaned.{clean-rule};
ghost use Rattle.kinds.specs.Longest.{rule-longest};
ghost use Rattle.kinds.specs.Numbers.{one_rule_fault, rule_number};
ghost use Rattle.feed.proofs.Steps.{hash-rule};
ghost use Rattle.feed.proofs.Theorems.{hash-law};

use catalogue::asking;
use catalogue::fault::Numbered;
use catalogue::kind::Kind;
use catalogue::record::{Catalogue, Slot};
use feed::hash::hash_rule;
use hashing::hasher::Hasher;
use rule::fault::Fault;
use rule::intake::intake_entry;
use rule::nodes::MOST_WORDS;
use sameness::compare::compare_over;
use trial::pairs::{NONE, PLACES};

/// Why a run of words is no rule that can be entered.
// Kept: a fault in a struct of its own, since the trait that numbers it and the fault belong to two other crates, and neither
// of these is above the other. A third crate below both, for one trait, is no plainer.
#[derive(Clone, Copy, Debug, PartialEq, Eq)]
pub struct RuleFault(pub Fault);

impl Numbered for RuleFault {
    ghost number = { rule_number };

    fn number(self) -> u8 {
        self.0.number()
    }
}

impl From<Fault> for RuleFault {
    ghost from_gives = { λ fault r. r.0 ≡ fault };

    fn from(fault: Fault) -> RuleFault {
        RuleFault(fault)
    }
}

/// Rules of up to 8,192 words. They are the same by the definition of sameness.
#[derive(Clone, Copy)]
pub struct Rules;

impl Kind for Rules {
    type Unit = u32;

    type Fault = RuleFault;

    const LONGEST: usize = MOST_WORDS;

    ghost LONGEST = { 8192 };

    ghost meets = { λ k n words. meets_rule n words };

    ghost same = { λ k a b. same_rule a b };

    ghost feed = { λ k f words. rule_feed f words };

    ghost one_fault = { one_rule_fault };

    ghost longest = { λ k words. rule-longest words };

    ghost reflexive = { λ k a sound. Theorems.reflexive (tree_of a) (clean-rule a sound) };

    ghost symmetric = { λ k a b _ _ s. Theorems.symmetric (tree_of a) (tree_of b) s };

    ghost transitive = { λ k a b c _ _ _ s r. Theorems.transitive (tree_of a) (tree_of b) (tree_of c) s r };

    ghost one_hash = { λ k f a b _ _ s. sym (hash-rule f (tree_of a)) ∙ hash-law f (tree_of a) (tree_of b) s ∙ hash-rule f (tree_of b) };

    fn intake(&self, run: &[u32]) -> Result<(), RuleFault> {
        intake_entry(run)?;
        Ok(())
    }

    fn compare(&self, a: &[u32], b: &[u32]) -> bool {
        compare_over(a, b, &mut [NONE; PLACES]).unwrap_or(false)
    }

    fn hash<H: Hasher>(&self, run: &[u32]) -> u64 {
        hash_rule::<H>(run).unwrap_or(0)
    }
}

/// How many classes the standing rules have.
pub fn class_count<H: Hasher>(cat: &Catalogue<H>, slots: &[Slot], units: &[u32]) -> usize
    ensures count { result ≡ cat.now.classes }
    ensures promise { RulesPromised (hash_by H.Hasher) (state cat.now slots.now units.now) result }
    ensures bounded { Bounded cat.now }
{
    asking::class_count::<Rules, H>(cat, &Rules, slots, units)
}
