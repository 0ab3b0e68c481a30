// The nodes of a rule, each reduced.
ghost use Rattle.sameness.specs.Comparing.{Unsound};
ghost use Rattle.sameness.specs.Reducing.{RuleReduced};
ghost use Rattle.std.specs.Prelude.{◌≡◌, ◌≤◌, length, take, IfOk, IfErr, OnOk, OnErr};

use crate::kind::{Branch, Kind};
use rule::fault::Fault;
use rule::intake::intake;
use rule::nodes::{MOST_NODES, Rule};

/// What each node comes to, in the order of the nodes: the first `count` places of `kinds`.
// Kept: an array and a count, since a vector of fixed capacity is not Copy.
#[derive(Clone, Copy)]
pub struct Reduced {
    pub kinds: [Kind; MOST_NODES],
    pub count: usize,
}

impl Reduced {
    /// No node.
    pub fn new() -> Reduced
        ensures { result.count ≡ 0 }
    {
        Reduced {
            kinds: [Kind::default(); MOST_NODES],
            count: 0,
        }
    }

    /// What the nodes come to, in their order.
    pub fn kinds(&self) -> &[Kind]
        ensures first { result.now ≡ take self.now.count self.now.kinds }
        ensures count { self.now.count ≤ 2048 → length result.now ≡ self.now.count }
    {
        &self.kinds[..self.count.min(MOST_NODES)]
    }
}

/// A run of words as a rule with its nodes reduced, or the first ground of 1 to 6 on which it is refused.
pub fn reduce_rule(words: &[u32]) -> Result<Reduced, Fault>
    ensures ok { IfOk result (λ d. RuleReduced words.now d) }
    ensures err { IfErr result (λ f. Unsound words.now f) }
{
    let mut reduced = Reduced::new();
    reduce_into(words, &mut reduced)?;
    Ok(reduced)
}

/// The same, in the caller's memory. A refusal leaves it as it is.
// Kept: beside `reduce_rule`, whose answer has 64 KiB, and is moved and cleared more often than it is filled.
pub fn reduce_into(words: &[u32], reduced: &mut Reduced) -> Result<(), Fault>
    ensures ok { OnOk result (RuleReduced words.now reduced.new) }
    ensures err { IfErr result (λ f. Unsound words.now f) }
    ensures refused { OnErr result (reduced.new ≡ reduced.old) }
{
    let nodes = intake(words)?;
    let rule = Rule {
        words,
        at: nodes.places(),
    };
    // Kept: a branch is a node's number and all that is below it, and the loop reads no node itself.
    for number in 0..nodes.count {
        reduced.kinds[number] = Kind::of(Branch { rule, number }.reduce_exprkind());
    }
    reduced.count = nodes.count;
    Ok(())
}
