// The hash of a rule.
ghost use Rattle.std.specs.Prelude.{◌≡◌};
ghost use Rattle.feed.specs.Feed.{hash_of};
ghost use Rattle.feed.specs.Hashed.{Hashed};
ghost use Rattle.hashing.specs.Words.{hash_by};
ghost use Rattle.rule.specs.Trees.{tree_of};
ghost use Rattle.sameness.specs.Reducing.{RuleReduced};

use crate::walk::Noted;
use arrayvec::ArrayVec;
use hashing::hasher::Hasher;
use rule::fault::Fault;
use sameness::reducing::{Reduced, reduce_into};

// The hash of the root. The operands of each Eq and Ne are hashed before it, the lower nodes first.
fn hash_root<'a, H: Hasher>(words: &'a [u32], rule: &'a Reduced) -> u64
    requires { RuleReduced words.now rule.now }
    ensures { result ≡ hash_of (hash_by H.Hasher) (tree_of words.now) }
{
    let kinds = rule.kinds();
    let mut noted = Noted {
        words,
        kinds,
        operands: ArrayVec::new(),
    };
    for kind in kinds {
        let node = kind.node(words).unwrap();
        let operands = noted.hash_operands::<H>(node);
        noted.operands.push(operands);
    }
    noted.hash_node::<H>(kinds.len() - 1)
}

/// The hash of a rule by a hasher, or the first ground of 1 to 6 on which the words are refused. Rules that are the
/// same have one hash.
pub fn hash_rule<H: Hasher>(words: &[u32]) -> Result<u64, Fault>
    ensures { Hashed (hash_by H.Hasher) words.now result }
{
    let mut rule = Reduced::new();
    reduce_into(words, &mut rule)?;
    Ok(hash_root::<H>(words, &rule))
}
