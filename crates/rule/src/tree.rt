ghost use Rattle.std.specs.Prelude.{◌≡◌, ◌<◌, ◌≤◌, length, IfOk, IfErr};
ghost use Rattle.rule.specs.Intake.{Treelike};
ghost use Rattle.rule.specs.Tally.{Added, Clash, Sized, flags, loose};

use crate::fault::Fault;
use crate::nodes::{MOST_NODES, Node, Rule};
use arrayvec::ArrayVec;

/// A rule whose nodes make a tree, and how many nodes the tree of each node has.
#[derive(Clone, Copy)]
pub(crate) struct RuleTree<'w, 'p, 's> {
    pub rule: Rule<'w, 'p>,
    pub sizes: &'s [u16],
    ghost treelike: { Treelike rule.words.now },
    ghost sized: { Sized rule.words.now sizes.now },
    ghost count: { length sizes.now ≡ length rule.at.now },
}

// Counts the children of the next node as seen, and answers how many nodes its tree has; the sizes are those before it.
fn add_kids(node: Node, seen: &mut [bool; MOST_NODES], sizes: &[u16]) -> Result<usize, Fault>
    requires inside { length sizes.now < 2048 }
    requires few { loose (flags seen.old) sizes.now ≤ 2048 }
    ensures ok { IfOk result (λ total. Added node.entry.kids.now (length sizes.now) (flags seen.old) (flags seen.new) sizes.now total) }
    ensures err { IfErr result (λ f. (f ≡ Fault.NotATree) × Clash node.entry.kids.now (length sizes.now) (flags seen.old)) }
{
    let i = sizes.len();
    let mut total = 1;
    for kid in node.kids {
        let kid = *kid as usize;
        if kid >= i || seen[kid] {
            return Err(Fault::NotATree);
        }
        seen[kid] = true;
        total += sizes[kid] as usize;
    }
    Ok(total)
}

// Every child is below its node, and every node before the last is a child exactly once; the sizes of the nodes' trees.
pub(crate) fn check_tree(rule: Rule) -> Result<ArrayVec<u16, MOST_NODES>, Fault>
    ensures ok { IfOk result (λ sizes. Treelike rule.entry.words.now × Sized rule.entry.words.now sizes.items × (length sizes.items ≡ length rule.entry.at.now)) }
    ensures err { IfErr result (λ f. (f ≡ Fault.NotATree) × (Treelike rule.entry.words.now → ⊥)) }
{
    // Kept: an array with a place for each node of the longest rule, since a child is marked by its number and this crate uses
    // no heap.
    let mut seen = [false; MOST_NODES];
    let mut sizes = ArrayVec::new();
    for node in rule.nodes() {
        let total = add_kids(node, &mut seen, sizes.as_slice())?;
        sizes.push(total as u16);
    }
    if seen[..rule.root()].contains(&false) {
        return Err(Fault::NotATree);
    }
    Ok(sizes)
}
