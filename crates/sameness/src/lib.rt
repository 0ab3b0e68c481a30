// When two rules are the same, how that is decided, and the nodes of a rule reduced.

#![tactic(auto)]

ghost use Rattle.sameness.specs.Claims.{Reflexive, Symmetric, Transitive, Decided, TableRenames, TestNeverFails};
ghost use Rattle.sameness.specs.TrialRules.{TrialRules};

pub mod compare;
mod eq;
pub mod kind;
pub mod reducing;
pub mod words;

// Kept: three functions that carry theorems. The documents name the theorems by them, and a call has to answer something: 0.

/// Sameness is an equivalence of the rules that are not the same as nothing.
pub fn equivalence() -> u8
    ensures reflexive { Reflexive }
    ensures symmetric { Symmetric }
    ensures transitive { Transitive }
{
    0
}

/// The walk decides sameness, the table that it leaves is a renaming, and its test of two declared locals never fails.
pub fn deciding() -> u8
    ensures decided { Decided }
    ensures table_renames { TableRenames }
    ensures test_never_fails { TestNeverFails }
{
    0
}

/// What sameness says of some rules that are written out.
pub fn trial_rules() -> u8
    ensures { TrialRules }
{
    0
}
