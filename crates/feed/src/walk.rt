// The hash of one node by a fresh hasher, as a loop over a stack of nodes.
ghost use Rattle.std.specs.Prelude.{◌≡◌, ℕ, ◌<◌, length, slice_index};
ghost use Rattle.feed.specs.Hashed.{AllReduced};
ghost use Rattle.feed.specs.Nodes.{node_at};
ghost use Rattle.feed.specs.Pending.{AllNoted, node_hash, noted_of, operands_in};
ghost use Rattle.feed.specs.Ways.{head_of};
ghost use Rattle.hashing.specs.Words.{fed_all, hash_by};
ghost use Rattle.sameness.specs.Kinds.{IsNode};
ghost use Rattle.sameness.specs.Reducing.{kind_in};

use crate::operands::Operands;
use crate::way::{Way, fed_v};
use arrayvec::ArrayVec;
use hashing::hasher::Hasher;
use rule::nodes::{MOST_NODES, Node};
use sameness::kind::Kind;
use sameness::words::bare_w;

// The nodes of a rule, reduced, and of the first nodes what is noted: the hashes of the operands of an Eq or a Ne, and
// nothing of any other. The words are those of the rule, from which a node is read.
// Kept: that the nodes are reduced is said by contracts, and not by the type. Tried: the fact has equations of trees in
// it, and what stayed open is that two proofs of such an equation are the same, which a fact of a type needs.
#[derive(Drop)]
pub(crate) struct Noted<'a> {
    pub words: &'a [u32],
    pub kinds: &'a [Kind],
    pub operands: ArrayVec<Option<Operands>, MOST_NODES>,
}

// A node on the stack of a walk, and how many of its children are done.
#[derive(Clone, Copy, Default)]
pub(crate) struct Frame {
    pub node: u16,
    pub done: u16,
}

// Feeds the words of a node that come before its children.
#[tactic(auto, unfolding(crate::specs::Ways::head_of))]
fn feed_node<H: Hasher>(hasher: &mut H, node: Node, operands: Option<Operands>)
    ensures { hasher.new ≡ fed_all H.fed hasher.old (head_of node.entry operands) }
{
    hasher.feed(u64::from(node.code));
    hasher.feed(u64::from(fed_v(node)));
    hasher.feed(u64::from(bare_w(node)));
    hasher.feed(node.kids.len() as u64);
    if let Some(operands) = operands {
        hasher.feed(operands.smaller);
        hasher.feed(operands.larger);
    }
}

impl<'a> Noted<'a> {
    // Node `i`.
    fn node(&self, i: usize) -> Node<'a>
        requires reduced { AllReduced self.now.words.now self.now.kinds.now }
        requires within { i < length self.now.kinds.now }
        ensures { IsNode self.now.words.now (kind_in self.now.kinds.now i) result }
    {
        self.kinds[i].node(self.words).unwrap()
    }

    // The words of node `i` before its children.
    fn feed_at<H: Hasher>(&self, hasher: &mut H, i: usize)
        requires reduced { AllReduced self.now.words.now self.now.kinds.now }
        requires within { i < length self.now.kinds.now }
        requires noted { i < length self.now.operands.items }
        ensures { hasher.new ≡ fed_all H.fed hasher.old (head_of (node_at self.now.words.now self.now.kinds.now i) (operands_in self.now.operands.items i)) }
    {
        feed_node::<H>(hasher, self.node(i), self.operands.as_slice()[i]);
    }

    // The hash of node `top`.
    pub(crate) fn hash_node<H: Hasher>(&self, top: usize) -> u64
        requires reduced { AllReduced self.now.words.now self.now.kinds.now }
        requires within { top < length self.now.operands.items }
        requires noted { AllNoted (hash_by H.Hasher) self.now.words.now self.now.kinds.now self.now.operands.items }
        ensures { result ≡ node_hash (hash_by H.Hasher) self.now.words.now top }
    {
        let mut hasher = H::fresh();
        let mut stack: ArrayVec<Frame, MOST_NODES> = ArrayVec::new();
        self.feed_at::<H>(&mut hasher, top);
        stack.push(Frame {
            node: top as u16,
            done: 0,
        });
        // Kept: by the project's form a loop with a stack, and no recursion; so a frame counts the children that are done.
        while let Some(frame) = stack.pop() {
            let node = self.node(frame.node as usize);
            if let Some(child) = Way::of(node).nth(node.kids, frame.done as usize) {
                self.feed_at::<H>(&mut hasher, child as usize);
                stack.push(Frame {
                    done: frame.done + 1,
                    ..frame
                });
                let below = Frame {
                    node: child as u16,
                    done: 0,
                };
                stack.push(below);
            }
        }
        hasher.end()
    }

    // What is noted of a node whose children are noted.
    #[tactic(auto, using(crate::proofs::Roots::two, crate::proofs::Roots::nothing_noted), unfolding(crate::specs::Pending::operands_of))]
    pub(crate) fn hash_operands<H: Hasher>(&self, node: Node) -> Option<Operands>
        requires reduced { AllReduced self.now.words.now self.now.kinds.now }
        requires below { (q : ℕ) → q < length node.kids.now → slice_index node.kids.now q < length self.now.operands.items }
        requires noted { AllNoted (hash_by H.Hasher) self.now.words.now self.now.kinds.now self.now.operands.items }
        ensures { result ≡ noted_of (hash_by H.Hasher) self.now.words.now node.entry }
    {
        if Way::of(node) != Way::ByHash {
            return None;
        }
        let a = self.hash_node::<H>(node.kids[0] as usize);
        let b = self.hash_node::<H>(node.kids[1] as usize);
        Some(Operands::of(a, b))
    }
}
