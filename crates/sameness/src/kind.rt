// A node of a rule with all that is below it; what a block expression comes to; and a node by its place in the run.
ghost use Rattle.std.specs.Prelude.{◌≡◌, ◌+◌, ◌<◌, ◌≤◌, ◌&&◌, length, ◌==◌, slice_index, IfSome, IsSome};
ghost use Rattle.rule.specs.Intake.{Treelike};
ghost use Rattle.rule.specs.Nodes.{Spelt};
ghost use Rattle.rule.specs.Trees.{tree_at};
ghost use Rattle.sameness.specs.Blocks.{Comes, Made};
ghost use Rattle.sameness.specs.Kinds.{IsNode, kind_of};
ghost use Rattle.sameness.specs.Reduction.{reduce};
ghost use Rattle.sameness.specs.Sameness.{one, pair};
ghost use Rattle.sameness.specs.Walking.{Held, Low, tree_in};

use rule::codes::{ABSENT, BLOCK_EXPR, EXPR_STMT, RETURN, SEMI_STMT, TUPLE};
use rule::nodes::{Node, Rule};

/// A node without the run that it is of: the numbers of its `kids` children stand in the run from the place `first` on.
#[derive(Clone, Copy, Default)]
pub struct Kind {
    pub code: u32,
    pub v: u32,
    pub w: u32,
    pub first: usize,
    pub kids: usize,
}

impl Kind {
    // The same node, told by places.
    pub(crate) fn of(node: Node) -> Kind
        ensures { result ≡ kind_of node.entry }
    {
        Kind {
            code: node.code,
            v: node.v,
            w: node.w,
            first: usize::from(node.first),
            kids: node.kids.len(),
        }
    }

    /// The node as the run `words` has it. There is none where its children's numbers do not stand within the run, or begin
    /// behind the place 65,535, which no rule reaches.
    pub fn node<'a>(self, words: &'a [u32]) -> Option<Node<'a>>
        ensures some { IfSome result (λ n. IsNode words.now self n) }
        ensures there { self.first < 65536 → self.first + self.kids ≤ length words.now → IsSome result }
    {
        let first = u16::try_from(self.first).ok()?;
        let kids = words.get(self.first..)?.get(..self.kids)?;
        Some(Node {
            code: self.code,
            v: self.v,
            w: self.w,
            first,
            kids,
        })
    }
}

// Node `number` of a rule whose nodes form a tree, with all that is below it. No local in it is above 1023.
#[derive(Clone, Copy)]
pub(crate) struct Branch<'w, 'p> {
    pub rule: Rule<'w, 'p>,
    pub number: usize,
    ghost within: { number < length rule.at.now },
    ghost treelike: { Treelike rule.words.now },
    ghost low: { Low (tree_at rule.words.now number) },
}

// A branch, and the node that stands for it: its own node, or what a block expression comes to.
#[derive(Clone, Copy)]
pub(crate) struct Side<'w, 'p> {
    pub branch: Branch<'w, 'p>,
    pub node: Node<'w>,
    ghost held: { Held branch.rule.words.now node branch.number },
}

impl<'w, 'p> Side<'w, 'p> {
    // Child `q` of the node.
    pub(crate) fn child(self, q: usize) -> Branch<'w, 'p>
        requires { q < length self.node.kids.now }
        ensures words { result.rule.words.now ≡ self.entry.branch.rule.words.now }
        ensures number { result.number ≡ slice_index self.entry.node.kids.now q }
    {
        Branch {
            rule: self.branch.rule,
            number: self.node.kids[q] as usize,
        }
    }
}

fn is_absent(node: Node) -> bool
    ensures { result ≡ (node.entry.code == 0 && length node.entry.kids.now == 0) }
{
    node.code == ABSENT && node.kids.is_empty()
}

impl<'w, 'p> Branch<'w, 'p> {
    // The node as it stands.
    fn node(self) -> Node<'w>
        ensures { Spelt self.entry.rule.words.now (slice_index self.entry.rule.at.now self.entry.number) result }
    {
        self.rule.node(self.number).unwrap()
    }

    // What a plain block comes to that has this tail only: an empty tuple, or the return.
    fn reduce_tail(self) -> Option<Node<'w>>
        ensures { Comes self.entry.rule.words.now (one (tree_at self.entry.rule.words.now self.entry.number)) self.entry.number result }
    {
        let tail = self.node();
        if is_absent(tail) {
            return Some(Node {
                code: TUPLE,
                ..Node::default()
            });
        }
        (tail.code == RETURN).then_some(tail)
    }

    // What a plain block comes to that has this statement and the tail: the return that is all it holds.
    fn reduce_stmt(self, tail: Branch) -> Option<Node<'w>>
        ensures { Comes self.entry.rule.words.now (pair (tree_at self.entry.rule.words.now self.entry.number) (tree_at tail.entry.rule.words.now tail.entry.number)) self.entry.number result }
    {
        if !is_absent(tail.node()) {
            return None;
        }
        let stmt = Side {
            branch: self,
            node: self.node(),
        };
        if stmt.node.code != EXPR_STMT && stmt.node.code != SEMI_STMT {
            return None;
        }
        if stmt.node.kids.len() != 1 {
            return None;
        }
        let inner = stmt.child(0).node();
        (inner.code == RETURN).then_some(inner)
    }

    // What a block comes to, if not itself.
    fn reduce_block(self) -> Option<Node<'w>>
        ensures { Made self.entry.rule.words.now (tree_at self.entry.rule.words.now self.entry.number) self.entry.number result }
    {
        let block = Side {
            branch: self,
            node: self.node(),
        };
        if !block.node.is_plain_block() {
            return None;
        }
        match block.node.kids.len() {
            1 => block.child(0).reduce_tail(),
            2 => block.child(0).reduce_stmt(block.child(1)),
            _ => None,
        }
    }

    // The node, and a block expression as what it comes to.
    pub(crate) fn reduce_exprkind(self) -> Node<'w>
        ensures tree { tree_in self.entry.rule.words.now result ≡ reduce (tree_at self.entry.rule.words.now self.entry.number) }
        ensures held { Held self.entry.rule.words.now result self.entry.number }
    {
        let node = self.node();
        if node.code != BLOCK_EXPR || node.kids.len() != 1 {
            return node;
        }
        let side = Side { branch: self, node };
        side.child(0).reduce_block().unwrap_or(node)
    }
}
