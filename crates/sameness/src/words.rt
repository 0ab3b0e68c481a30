// The words of two nodes that are compared.
ghost use Rattle.sameness.specs.Deciding.{direct_test, reverses_test, reversed_test};
ghost use Rattle.sameness.specs.Sameness.{bare_v, bare_w};
ghost use Rattle.rule.specs.Comparisons.{comparison_number};
ghost use Rattle.std.specs.Prelude.{◌≡◌};

use rule::codes::{BINDING, BLOCK_EXPR, REF_TY, STRUCT_PAT, is_barred};
use rule::comparison::Comparison;
use rule::nodes::Node;

/// v, but 0 where it is not compared.
#[tactic(auto, unfolding(crate::specs::Sameness::bare_v))]
pub fn bare_v(node: Node) -> u32
    ensures { result ≡ bare_v node.entry.code node.entry.v }
{
    match node.code {
        BINDING | BLOCK_EXPR | STRUCT_PAT | REF_TY => 0,
        _ => node.v,
    }
}

/// w, but 0 where it is the number of a local.
#[tactic(auto, unfolding(crate::specs::Sameness::bare_w))]
pub fn bare_w(node: Node) -> u32
    ensures { result ≡ bare_w node.entry.code node.entry.v node.entry.w }
{
    if node.local().is_some() { 0 } else { node.w }
}

// The two can be read as they stand.
#[tactic(auto, unfolding(crate::specs::Deciding::direct_test))]
pub(crate) fn eq_words(l: Node, r: Node) -> bool
    ensures { result ≡ direct_test l.entry.code l.entry.v l.entry.w r.entry.code r.entry.v r.entry.w }
{
    !is_barred(l.code) && l.code == r.code && bare_v(l) == bare_v(r) && bare_w(l) == bare_w(r)
}

// One comparison is the other with its operands exchanged.
// Kept: a function of its own, though it is one test and has one caller: its contract is the one place that says which two
// operators are exchanged, without what else `is_reversed` asks. In its caller the test would be no plainer.
#[tactic(auto, unfolding(crate::specs::Deciding::reverses_test))]
fn swap_binop(l: Comparison, r: Comparison) -> bool
    ensures { result ≡ reverses_test (comparison_number l) (comparison_number r) }
{
    l.reversed() == r
}

// The two can be read with exchanged operands.
#[tactic(auto, unfolding(crate::specs::Deciding::reversed_test, crate::specs::Deciding::reverses_test))]
pub(crate) fn is_reversed(l: Node, r: Node) -> bool
    ensures { result ≡ reversed_test l.entry.code l.entry.v l.entry.w r.entry.code r.entry.v r.entry.w }
{
    match (l.comparison(), r.comparison()) {
        (Some(x), Some(y)) => swap_binop(x, y) && l.w == r.w,
        _ => false,
    }
}
