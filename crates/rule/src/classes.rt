ghost use Rattle.std.specs.Prelude.{◌≡◌, ℕ, ◌<◌, length, slice_index, IsSome, OnOk, IfErr};
ghost use Rattle.rule.specs.Lookup.{row_of};
ghost use Rattle.rule.specs.Intake.{Worded, Classed, FitsItsRow};

use crate::fault::Fault;
use crate::nodes::{Node, Rule};
use crate::tree::RuleTree;

// The children of a node are as many as its row has places for, and each is of its place's classes.
fn check_kids(rule: Rule, node: Node) -> Result<(), Fault>
    requires worded { Worded rule.words.now }
    requires row { IsSome (row_of node.code node.v node.w) }
    requires kids { (q : ℕ) → q < length node.kids.now → slice_index node.kids.now q < length rule.at.now }
    ensures ok { OnOk result (FitsItsRow rule.entry.words.now node.entry) }
    ensures err { IfErr result (λ f. (f ≡ Fault.WrongClass) × (FitsItsRow rule.entry.words.now node.entry → ⊥)) }
{
    let row = node.row().unwrap();
    if !row.may_have(node.kids.len()) {
        return Err(Fault::WrongClass);
    }
    for (q, kid) in node.kids.iter().enumerate() {
        let found = rule.known_node(*kid as usize).row().unwrap();
        if !row.admits(node.kids.len(), q, found.class) {
            return Err(Fault::WrongClass);
        }
    }
    Ok(())
}

// The children of every node fit its row, and the root is of a class that a rule may have.
pub(crate) fn check_classes(tree: RuleTree) -> Result<(), Fault>
    requires { Worded tree.rule.words.now }
    ensures ok { OnOk result (Classed tree.entry.rule.words.now) }
    ensures err { IfErr result (λ f. (f ≡ Fault.WrongClass) × (Classed tree.entry.rule.words.now → ⊥)) }
{
    for node in tree.rule.nodes() {
        check_kids(tree.rule, node)?;
    }
    let root = tree.rule.known_node(tree.rule.root()).row().unwrap();
    if !root.class.can_be_root() {
        return Err(Fault::WrongClass);
    }
    Ok(())
}
