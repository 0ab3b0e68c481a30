ghost use Rattle.std.specs.Prelude.{◌≡◌, ◌+◌, ◌<◌, ◌≤◌, ◌==◌, length, OnOk, IfErr};
ghost use Rattle.rule.specs.Trees.{tree_at};
ghost use Rattle.rule.specs.Scopes.{role};
ghost use Rattle.rule.specs.Marks.{size, steps, end, end_of, ends, at_declaration, at_use, note, note_all, Says};
ghost use Rattle.rule.specs.Intake.{Scoped};

use crate::fault::Fault;
use crate::nodes::Node;
use crate::tree::RuleTree;

// Every local is below this.
const MOST_LOCALS: usize = 1024;

// What the walk has met of a local.
#[derive(Clone, Copy)]
pub(crate) enum Mark {
    Unmet,
    // a use, and no declaration before it
    Free,
    // a declaration; this is the last place in the walk at which the local may be used
    UsableTo(u16),
}

// Where the innermost operand around a child ends: with the child, if it is one itself.
fn operand_end(fork: bool, end: u16, until: u16) -> u16
    ensures { result ≡ end_of fork end until }
{
    if fork { end } else { until }
}

// A local declared; it may be used before the place `until`.
#[tactic(auto, unfolding(crate::specs::Marks::at_declaration))]
fn declare(local: u32, until: u16, marks: &mut [Mark; MOST_LOCALS]) -> Result<(), Fault>
    requires { 0 < until }
    ensures { Says result (ends marks.new) (at_declaration local until (ends marks.old)) }
{
    // Kept: read and then written by number, since of what `get_mut` lends a proof knows the length alone.
    match marks.get(local as usize) {
        Some(Mark::Unmet) => {
            marks[local as usize] = Mark::UsableTo(until - 1);
            Ok(())
        }
        _ => Err(Fault::BadScope),
    }
}

// A local used at `place`.
#[tactic(auto, unfolding(crate::specs::Marks::at_use))]
fn use_local(local: u32, place: u16, marks: &mut [Mark; MOST_LOCALS]) -> Result<(), Fault>
    requires { place < 65535 }
    ensures { Says result (ends marks.new) (at_use place local (ends marks.old)) }
{
    // Kept: read and then written by number, as in `declare`.
    match marks.get(local as usize) {
        Some(Mark::Unmet) => {
            marks[local as usize] = Mark::Free;
            Ok(())
        }
        Some(Mark::Free) => Ok(()),
        Some(Mark::UsableTo(last)) if place <= *last => Ok(()),
        _ => Err(Fault::BadScope),
    }
}

// What a node does with a local: a binding declares one, a path to a local uses one.
#[tactic(auto, unfolding(crate::specs::Marks::note, crate::specs::Scopes::role))]
fn note_node(
    node: Node,
    place: u16,
    until: u16,
    marks: &mut [Mark; MOST_LOCALS],
) -> Result<(), Fault>
    requires { place < until }
    ensures { Says result (ends marks.new) (note place (role node.entry.code node.entry.v node.entry.w) until (ends marks.old)) }
{
    if let Some(local) = node.declared() {
        declare(local, until, marks)
    } else if let Some(local) = node.local() {
        use_local(local, place, marks)
    } else {
        Ok(())
    }
}

// The walk of node `i`, the children in row order and then the node, from `place` on, in an operand that ends at `until`.
fn walk_scopes(
    tree: RuleTree,
    i: usize,
    place: u16,
    until: u16,
    marks: &mut [Mark; MOST_LOCALS],
) -> Result<(), Fault>
    requires inside { i < length tree.rule.at.now }
    requires fits { place + size (tree_at tree.rule.words.now i) ≤ until }
    ensures { Says result (ends marks.new) (note_all place (steps place until (tree_at tree.entry.rule.words.now i)) (ends marks.old)) }
{
    let node = tree.rule.known_node(i);
    let fork = node.comparison().is_some();
    let mut at = place;
    for kid in node.kids {
        let kid = *kid as usize;
        let end = at + tree.sizes[kid];
        walk_scopes(tree, kid, at, operand_end(fork, end, until), marks)?;
        at = end;
    }
    note_node(node, at, until, marks)
}

// No local is above 1,023, declared twice, used earlier in the walk than declared,
// or declared under one operand of a comparison and used outside that operand.
pub(crate) fn check_scopes(tree: RuleTree) -> Result<(), Fault>
    ensures ok { OnOk result (Scoped tree.entry.rule.words.now) }
    ensures err { IfErr result (λ f. (f ≡ Fault.BadScope) × (Scoped tree.entry.rule.words.now → ⊥)) }
{
    // Kept: an array with a place for each local, since this crate uses no heap.
    let mut marks = [Mark::Unmet; MOST_LOCALS];
    let root = tree.rule.root();
    walk_scopes(tree, root, 0, tree.sizes[root], &mut marks)
}
