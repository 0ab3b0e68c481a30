// Two rules compared node by node, the children before their node. The pair table has the partners of the locals that
// were declared so far; what a failed reading added to it is put back.
ghost use Rattle.std.specs.Prelude.{◌≡◌, ◌<◌, length};
ghost use Rattle.sameness.specs.Deciding.{matched, Table};
ghost use Rattle.sameness.specs.Sides.{BranchesWalked, SidesWalked, ChildrenWalked, PairsWalked, DirectFails};
ghost use Rattle.sameness.specs.Walking.{Pictured, Not, IsPlain};

use crate::kind::{Branch, Side};
use crate::words::{eq_words, is_reversed};
use rule::codes::{BINARY, BLOCK};
use trial::guard::Trial;
use trial::pairs::{PLACES, paired, record, unpaired};

// A used local of the first rule and one of the second: partners, or both without one and the same.
#[tactic(auto, using(crate::proofs::Walks::matched_free, crate::proofs::Walks::matched_paired))]
fn eq_locals(t: &[u32; PLACES], x: u32, y: u32) -> bool
    requires first { x < 1024 }
    requires second { y < 1024 }
    ensures { (P : Table) → Pictured P t.now → result ≡ matched P x y }
{
    if unpaired(t, x, y) {
        return x == y;
    }
    paired(t, x, y)
}

// Kept: of the three facts of IsPlain, eq_expr, eq_pat and eq_qpath say two each, and no two of them the same two. The table
// stands beside the two sides: it is lent to be changed, and of a struct that held it each function would have to say that
// it still holds the same one.

// Two branches, as what they come to.
#[cycle(eq_nodes)]
pub(crate) fn eq_node(t: &mut [u32; PLACES], x: Branch, y: Branch) -> bool
    ensures { BranchesWalked x.entry y.entry t.old t.new result }
{
    let l = Side {
        branch: x,
        node: x.reduce_exprkind(),
    };
    let r = Side {
        branch: y,
        node: y.reduce_exprkind(),
    };
    // Kept: the codes of a class stand together in the format, and a class would be asked of a node's row, which is looked up
    // in the table of rows: once for each pair of nodes that is compared. What the functions ask of a node is of its code too.
    match l.node.code {
        10..=36 => eq_expr(t, l, r),
        40..=50 => eq_pat(t, l, r),
        70..=71 => eq_qpath(t, l, r),
        BLOCK => eq_block(t, l, r),
        95..=97 => eq_stmt(t, l, r),
        _ => eq_part(t, l, r),
    }
}

// Expressions. Only comparisons are read both ways.
#[cycle(eq_nodes)]
fn eq_expr(t: &mut [u32; PLACES], l: Side, r: Side) -> bool
    requires not_binding { Not 41 l.node }
    requires not_path { Not 70 l.node }
    ensures { SidesWalked l.entry r.entry t.old t.new result }
{
    if l.node.code == BINARY {
        return eq_binary(t, l, r);
    }
    eq_part(t, l, r)
}

// Binary expressions: as they stand first, and if that fails, with exchanged operands.
#[cycle(eq_nodes)]
fn eq_binary(t: &mut [u32; PLACES], l: Side, r: Side) -> bool
    requires binary { l.node.code ≡ 14 }
    ensures { SidesWalked l.entry r.entry t.old t.new result }
{
    if !eq_words(l.node, r.node) {
        return eq_reversed(t, l, r);
    }
    {
        let mut trial = Trial::of(t);
        if over_words(trial.table, l, r) {
            trial.kept = true;
            return true;
        }
    }
    eq_reversed(t, l, r)
}

// The children of two nodes one by one, over the table that a trial holds.
// Kept: a function of its own, which asks the length. A trial holds a table of any length, and where the array is lent out of
// the trial's own field, the proof knows no word of the table afterwards.
#[cycle(eq_nodes)]
fn over_words(words: &mut [u32], l: Side, r: Side) -> bool
    requires { length words.old ≡ 2048 }
    ensures { ChildrenWalked l.entry r.entry words.old words.new result }
{
    over(words.as_mut_array().unwrap(), l, r)
}

// The second reading of a binary expression, where the first fails.
#[cycle(eq_nodes)]
fn eq_reversed(t: &mut [u32; PLACES], l: Side, r: Side) -> bool
    requires binary { l.node.code ≡ 14 }
    requires direct_fails { DirectFails l r t.old }
    ensures { SidesWalked l.entry r.entry t.old t.new result }
{
    if !is_reversed(l.node, r.node) {
        return false;
    }
    if l.node.kids.len() != 2 || r.node.kids.len() != 2 {
        return false;
    }
    both(t, l.child(0), r.child(1), l.child(1), r.child(0))
}

// Patterns. A binding makes its two locals partners, after what is below it.
#[cycle(eq_nodes)]
fn eq_pat(t: &mut [u32; PLACES], l: Side, r: Side) -> bool
    requires not_binary { Not 14 l.node }
    requires not_path { Not 70 l.node }
    ensures { SidesWalked l.entry r.entry t.old t.new result }
{
    if !eq_words(l.node, r.node) {
        return false;
    }
    if !over(t, l, r) {
        return false;
    }
    match (l.node.declared(), r.node.declared()) {
        (Some(x), Some(y)) => {
            if !unpaired(t, x, y) {
                return false;
            }
            record(t, x, y);
            true
        }
        _ => true,
    }
}

// Paths. A path to a local goes by its partner.
#[cycle(eq_nodes)]
fn eq_qpath(t: &mut [u32; PLACES], l: Side, r: Side) -> bool
    requires not_binary { Not 14 l.node }
    requires not_binding { Not 41 l.node }
    ensures { SidesWalked l.entry r.entry t.old t.new result }
{
    if !eq_words(l.node, r.node) {
        return false;
    }
    if !over(t, l, r) {
        return false;
    }
    match (l.node.local(), r.node.local()) {
        (Some(x), Some(y)) => eq_locals(t, x, y),
        _ => true,
    }
}

// Blocks: the statements, and then the tail.
// Kept: a function of its own, since expressions, blocks, statements and patterns are compared by four that call each other.
#[cycle(eq_nodes)]
fn eq_block(t: &mut [u32; PLACES], l: Side, r: Side) -> bool
    requires { IsPlain l.node }
    ensures { SidesWalked l.entry r.entry t.old t.new result }
{
    eq_part(t, l, r)
}

// Statements.
// Kept: a function of its own, since expressions, blocks, statements and patterns are compared by four that call each other.
#[cycle(eq_nodes)]
fn eq_stmt(t: &mut [u32; PLACES], l: Side, r: Side) -> bool
    requires { IsPlain l.node }
    ensures { SidesWalked l.entry r.entry t.old t.new result }
{
    eq_part(t, l, r)
}

// Nodes that link no locals and are read one way, by their words and their children: types, constants, segments, fields,
// arms, literals, what is absent, and what the functions above leave.
#[cycle(eq_nodes)]
fn eq_part(t: &mut [u32; PLACES], l: Side, r: Side) -> bool
    requires { IsPlain l.node }
    ensures { SidesWalked l.entry r.entry t.old t.new result }
{
    eq_words(l.node, r.node) && over(t, l, r)
}

// The children of two nodes, one by one.
#[cycle(eq_nodes)]
fn over(t: &mut [u32; PLACES], l: Side, r: Side) -> bool
    ensures { ChildrenWalked l.entry r.entry t.old t.new result }
{
    if l.node.kids.len() != r.node.kids.len() {
        return false;
    }
    for (x, y) in l.node.kids.iter().zip(r.node.kids) {
        let first = Branch {
            rule: l.branch.rule,
            number: *x as usize,
        };
        let second = Branch {
            rule: r.branch.rule,
            number: *y as usize,
        };
        if !eq_node(t, first, second) {
            return false;
        }
    }
    true
}

// Two branches, and then two more.
#[cycle(eq_nodes)]
fn both(t: &mut [u32; PLACES], x0: Branch, y0: Branch, x1: Branch, y1: Branch) -> bool
    ensures { PairsWalked x0.entry x1.entry y0.entry y1.entry t.old t.new result }
{
    eq_node(t, x0, y0) && eq_node(t, x1, y1)
}
