// What a rule feeds to a hasher, its hash by any hasher, and the law that same rules hash alike.

#![tactic(auto)]

ghost use Rattle.feed.specs.Laws.{HashLaw, OneHash};

pub mod hash;
mod operands;
mod walk;
mod way;

/// Two rules that are the same have one hash, whatever the hasher makes of the words that it is fed. The rules #1 < #2
/// and #2 > #1 are such a pair.
// Kept: a function that carries a theorem. The documents name the theorem by it, and a call has to answer something: 0.
pub fn hash_law() -> u8
    ensures law { HashLaw }
    ensures pair { OneHash }
{
    0
}
