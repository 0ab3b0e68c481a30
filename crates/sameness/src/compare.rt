// Two runs of words compared as rules.
ghost use Rattle.std.specs.Prelude.{◌≡◌};
ghost use Rattle.rule.specs.Intake.{Accepted};
ghost use Rattle.rule.specs.Trees.{tree_of};
ghost use Rattle.sameness.specs.Comparing.{BothAs, Compared, ComparedOver, Judged, compare_number, unfit_number};
ghost use Rattle.sameness.specs.Sides.{IsRoot};

use crate::eq::eq_node;
use crate::kind::Branch;
use rule::fault::Fault;
use rule::intake::intake;
use rule::nodes::{Nodes, Rule};
use trial::pairs::{PLACES, clear};

/// Which of two runs of words is no rule, and why.
#[derive(Clone, Copy, Debug, PartialEq, Eq)]
pub enum Unfit {
    First(Fault),
    Second(Fault),
}

/// Why two runs are not compared: one of them is no rule, or the pair table has fewer than 2,048 words.
#[derive(Clone, Copy, Debug, PartialEq, Eq)]
pub enum CompareFault {
    Unfit(Unfit),
    PairTable,
}

impl Unfit {
    pub fn number(self) -> u8
        ensures { result ≡ unfit_number self }
    {
        match self {
            Unfit::First(fault) | Unfit::Second(fault) => fault.number(),
        }
    }
}

impl CompareFault {
    pub fn number(self) -> u8
        ensures { result ≡ compare_number self }
    {
        match self {
            CompareFault::Unfit(unfit) => unfit.number(),
            CompareFault::PairTable => 23,
        }
    }
}

impl From<Unfit> for CompareFault {
    ghost use Rattle.std.specs.Prelude.{◌≡◌};
    ghost use Rattle.sameness.specs.declared.compare.CompareFault.TheVariants.{Unfit as ByUnfit};

    ghost from_gives = { λ unfit fault. fault ≡ ByUnfit unfit };

    fn from(unfit: Unfit) -> CompareFault {
        CompareFault::Unfit(unfit)
    }
}

// The root of a rule, with all that is below it.
fn root_of<'w, 'p>(words: &'w [u32], nodes: &'p Nodes) -> Branch<'w, 'p>
    requires { Accepted 6 words.now nodes.now }
    ensures words { result.rule.words.now ≡ words.now }
    ensures root { IsRoot result }
{
    let rule = Rule {
        words,
        at: nodes.places(),
    };
    Branch {
        rule,
        number: rule.root(),
    }
}

// Two rules compared over a table of 2,048 words.
fn judge_rules(x: Branch, y: Branch, t: &mut [u32; PLACES]) -> bool
    requires first { IsRoot x }
    requires second { IsRoot y }
    ensures { Judged result (tree_of x.entry.rule.words.now) (tree_of y.entry.rule.words.now) t.new }
{
    clear(t);
    if eq_node(t, x, y) {
        return true;
    }
    clear(t);
    false
}

// The places of the nodes of two rules; the first run is tested first.
fn intake_both(first: &[u32], second: &[u32]) -> Result<(Nodes, Nodes), Unfit>
    ensures { BothAs first.now second.now result }
{
    let a = intake(first).map_err(Unfit::First)?;
    let b = intake(second).map_err(Unfit::Second)?;
    Ok((a, b))
}

/// Whether two rules are the same. Where they are, the pair table has the renaming: place l the partner of local l of the
/// first rule, place 1,024 + r that of local r of the second, 4294967295 for none; where they are not, the 2,048 places all
/// hold none. A refusal leaves the table as it is, and so does every answer what stands past the places.
pub fn compare(first: &[u32], second: &[u32], pairs: &mut [u32]) -> Result<bool, CompareFault>
    ensures { Compared first.now second.now pairs.old pairs.new result }
{
    let (a, b) = intake_both(first, second)?;
    let table = pairs.first_chunk_mut().ok_or(CompareFault::PairTable)?;
    Ok(judge_rules(root_of(first, &a), root_of(second, &b), table))
}

/// The same over a table that is long enough.
// Kept: beside `compare`, which tests its table behind the runs. What the two share is `intake_both` and `judge_rules`.
pub fn compare_over(first: &[u32], second: &[u32], table: &mut [u32; PLACES]) -> Result<bool, Unfit>
    ensures { ComparedOver first.now second.now table.old table.new result }
{
    let (l, r) = intake_both(first, second)?;
    Ok(judge_rules(root_of(first, &l), root_of(second, &r), table))
}
