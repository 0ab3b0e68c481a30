ghost use Rattle.std.specs.Prelude.{◌≡◌, ◌+◌, ◌-◌, ◌<◌, ◌≤◌, ◌↔◌, length, slice_index, take, IfSome, IsNone, IfOk, IfErr};
ghost use Rattle.rule.specs.Faults.{number_of};
ghost use Rattle.rule.specs.Intake.{Read, Refused};

use crate::codes::{BINARY, BINDING, BLOCK, PATH};
use crate::comparison::Comparison;
use crate::fault::Fault;
use crate::lookup::row_of;
use crate::rows::Row;

/// The longest rule, in words.
pub const MOST_WORDS: usize = 8192;

/// The most nodes that the longest rule has: each is four words or more.
pub const MOST_NODES: usize = 2048;

/// The places at which the nodes of a rule begin, in their order: the first `count` places of `at`.
// Kept: an array and a count, since a vector of fixed capacity is not Copy.
#[derive(Clone, Copy)]
pub struct Nodes {
    pub at: [u16; MOST_NODES],
    pub count: usize,
}

impl Nodes {
    /// The places, in the order of the nodes.
    pub fn places(&self) -> &[u16]
        ensures { result.now ≡ take self.now.count self.now.at }
    {
        &self.at[..self.count.min(MOST_NODES)]
    }
}

/// A node: its code, its two words, and the numbers of its children, which stand in the run from the place `first` on. The
/// default is an absent child.
#[derive(Clone, Copy, Default)]
pub struct Node<'a> {
    pub code: u32,
    pub v: u32,
    pub w: u32,
    pub first: u16,
    pub kids: &'a [u32],
}

impl<'a> Node<'a> {
    ghost use Rattle.rule.specs.Lookup.{row_of};
    ghost use Rattle.rule.specs.Nodes.{declared_by, local_of, comparison_in, plain_block};

    /// The local that the node declares: a binding does.
    pub fn declared(self) -> Option<u32>
        ensures { result ≡ declared_by self.entry }
    {
        (self.code == BINDING).then_some(self.v)
    }

    // The row that the node's words are within.
    pub(crate) fn row(self) -> Option<Row>
        ensures { result ≡ row_of self.entry.code self.entry.v self.entry.w }
    {
        row_of(self.code, self.v, self.w)
    }

    /// The local that the node uses: a path to a local does.
    pub fn local(self) -> Option<u32>
        ensures { result ≡ local_of self.entry }
    {
        (self.code == PATH && self.v == 0).then_some(self.w)
    }

    /// The comparison that the node makes of its operands: some binary expressions do.
    pub fn comparison(self) -> Option<Comparison>
        ensures { result ≡ comparison_in self.entry }
    {
        if self.code == BINARY {
            Comparison::of(self.v)
        } else {
            None
        }
    }

    /// The node is a block that is not unsafe.
    pub fn is_plain_block(self) -> bool
        ensures { result ≡ plain_block self.entry }
    {
        self.code == BLOCK && self.v == 0
    }
}

/// A rule: its words, and the place of each node's first word.
#[derive(Clone, Copy)]
pub struct Rule<'w, 'p> {
    pub words: &'w [u32],
    pub at: &'p [u16],
    ghost read: { Read words.now at.now },
}

impl<'w, 'p> Rule<'w, 'p> {
    ghost use Rattle.rule.specs.Nodes.{Spelt, from_the_first};

    /// Node `i`, if there is one.
    pub fn node(self, i: usize) -> Option<Node<'w>>
        ensures some { IfSome result (λ n. Spelt self.entry.words.now (slice_index self.entry.at.now i) n) }
        ensures none { IsNone result ↔ (length self.entry.at.now ≤ i) }
    {
        // Kept: an `if`, since what the closure of a `then` says of its node was not found to be what the clause says.
        if i < self.at.len() {
            Some(self.known_node(i))
        } else {
            None
        }
    }

    // Node `i`, which there is.
    #[tactic(auto, using(crate::proofs::Laid::read_fits))]
    pub(crate) fn known_node(self, i: usize) -> Node<'w>
        requires { i < length self.at.now }
        ensures { Spelt self.entry.words.now (slice_index self.entry.at.now i) result }
    {
        let place = self.at[i] as usize;
        let first = place + 4;
        let kids = self.words[place + 3] as usize;
        Node {
            code: self.words[place],
            v: self.words[place + 1],
            w: self.words[place + 2],
            first: first as u16,
            kids: &self.words[first..first + kids],
        }
    }

    /// The number of the root, which is the last node.
    pub fn root(self) -> usize
        ensures { result + 1 ≡ length self.entry.at.now }
    {
        self.at.len() - 1
    }

    /// The nodes, in the order of their numbers.
    pub fn nodes(self) -> NodeIter<'w, 'p>
        ensures { result ≡ from_the_first self.entry }
    {
        NodeIter {
            rule: self,
            next: 0,
        }
    }
}

/// The nodes of a rule that come from some number on.
#[derive(Clone, Copy)]
pub struct NodeIter<'w, 'p> {
    rule: Rule<'w, 'p>,
    next: usize,
}

impl<'w, 'p> Iterator for NodeIter<'w, 'p> {
    ghost use Rattle.std.specs.Iterator.{at_most};
    ghost use Rattle.rule.specs.Nodes.{NextNode};

    type Item = Node<'w>;

    ghost next_gives = { NextNode };

    ghost remaining = { λ s. at_most (length s.rule.at.now - s.next) };

    fn next(&mut self) -> Option<Node<'w>> {
        let node = self.rule.node(self.next)?;
        self.next += 1;
        Some(node)
    }
}

// The nodes of a run of words; a run that is too long, empty, or ends inside a node has none.
pub(crate) fn read_nodes(words: &[u32]) -> Result<Nodes, Fault>
    ensures ok { IfOk result (λ n. Read words.now (take n.count n.at) × (n.count ≤ 2048)) }
    ensures err { IfErr result (λ f. Refused words.now f × (number_of f ≤ 2)) }
{
    if words.len() > MOST_WORDS {
        return Err(Fault::TooLong);
    }
    if words.is_empty() {
        return Err(Fault::CutShort);
    }
    let mut at = [0; MOST_NODES];
    let mut count = 0;
    let mut rest = words;
    while !rest.is_empty() {
        let [_, _, _, kids, behind @ ..] = rest else {
            return Err(Fault::CutShort);
        };
        at[count] = (words.len() - rest.len()) as u16;
        count += 1;
        rest = behind.get(*kids as usize..).ok_or(Fault::CutShort)?;
    }
    Ok(Nodes { at, count })
}
