ghost use Rattle.std.specs.Prelude.{◌≡◌, ◌≤◌, IfErr, OnOk, MatchResult};
ghost use Rattle.rule.specs.Faults.{number_of};
ghost use Rattle.rule.specs.Intake.{Accepted, Refused, Comparable};

use crate::classes::check_classes;
use crate::codes::is_barred;
use crate::fault::Fault;
use crate::nodes::{Nodes, Rule, read_nodes};
use crate::scopes::check_scopes;
use crate::tree::{RuleTree, check_tree};
use crate::words::check_words;

/// A run of words as a rule: the places of its nodes, or the first ground of 1 to 6 on which it is refused.
pub fn intake(words: &[u32]) -> Result<Nodes, Fault>
    ensures { MatchResult result (λ n. Accepted 6 words.now n) (λ f. Refused words.now f × (number_of f ≤ 6)) }
{
    let nodes = read_nodes(words)?;
    let rule = Rule {
        words,
        at: nodes.places(),
    };
    check_words(rule)?;
    let sizes = check_tree(rule)?;
    let tree = RuleTree {
        rule,
        sizes: sizes.as_slice(),
    };
    check_classes(tree)?;
    check_scopes(tree)?;
    Ok(nodes)
}

// No code of the rule is the same as nothing.
fn check_comparable(rule: Rule) -> Result<(), Fault>
    ensures ok { OnOk result (Comparable rule.entry.words.now) }
    ensures err { IfErr result (λ f. (f ≡ Fault.SameAsNothing) × (Comparable rule.entry.words.now → ⊥)) }
{
    if rule.nodes().any(|node| is_barred(node.code)) {
        return Err(Fault::SameAsNothing);
    }
    Ok(())
}

/// The same, with ground 7 as well: a rule that may be entered into a catalogue or looked for in one.
pub fn intake_entry(words: &[u32]) -> Result<Nodes, Fault>
    ensures { MatchResult result (λ n. Accepted 7 words.now n) (λ f. Refused words.now f) }
{
    let nodes = intake(words)?;
    check_comparable(Rule {
        words,
        at: nodes.places(),
    })?;
    Ok(nodes)
}
