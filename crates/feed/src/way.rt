// How the children of a node are fed.
ghost use Rattle.std.specs.Prelude.{◌≡◌, slice_get};
ghost use Rattle.feed.specs.Feed.{fed_v};
ghost use Rattle.feed.specs.Ways.{fed_as};
ghost use Rattle.sameness.specs.Sameness.{bare_v};

use rule::comparison::Comparison;
use rule::nodes::Node;
use sameness::words::bare_v;

// As they stand, exchanged, or by their own hashes.
#[derive(Clone, Copy, Debug, PartialEq, Eq)]
pub(crate) enum Way {
    Direct,
    Exchanged,
    ByHash,
}

impl Way {
    ghost use Rattle.feed.specs.Ways.{walked_by, way_by, way_of};

    // Only comparisons are not fed as they stand.
    #[tactic(auto, using(crate::proofs::Orders::binary_way), unfolding(crate::specs::Ways::way_of))]
    pub(crate) fn of(node: Node) -> Way
        ensures { result ≡ way_of node.entry }
    {
        if node.kids.len() != 2 {
            return Way::Direct;
        }
        node.comparison().map_or(Way::Direct, Way::by)
    }

    // Eq and Ne feed the hashes of their operands, and Lt and Le exchange these.
    fn by(comparison: Comparison) -> Way
        ensures { result ≡ way_by comparison }
    {
        match comparison {
            Comparison::Eq | Comparison::Ne => Way::ByHash,
            Comparison::Lt | Comparison::Le => Way::Exchanged,
            Comparison::Ge | Comparison::Gt => Way::Direct,
        }
    }

    // The child that is fed after `q` others, if the children are fed one after the other.
    pub(crate) fn nth(self, children: &[u32], q: usize) -> Option<u32>
        ensures { result ≡ slice_get (walked_by self children.now) q }
    {
        match self {
            Way::Direct => children.get(q).copied(),
            Way::Exchanged => children.iter().rev().nth(q).copied(),
            Way::ByHash => None,
        }
    }
}

// What a comparison is fed as: Lt as Gt, and Le as Ge.
fn fed_as(comparison: Comparison) -> Comparison
    ensures { result ≡ fed_as comparison }
{
    match comparison {
        Comparison::Lt | Comparison::Le => comparison.reversed(),
        _ => comparison,
    }
}

// v as it is fed.
pub(crate) fn fed_v(node: Node) -> u32
    ensures { result ≡ fed_v node.entry.code (bare_v node.entry.code node.entry.v) }
{
    node.comparison()
        .map(fed_as)
        .map_or(bare_v(node), Comparison::number)
}
