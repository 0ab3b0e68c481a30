// The table in which a comparison notes the partners of locals.
ghost use Rattle.std.specs.Prelude.{◌≡◌, replicate};

use std::fmt;
use trial::pairs::{LOCALS, NONE, PLACES};

#[derive(Clone, Copy, Debug, PartialEq, Eq)]
pub struct PairTable {
    // Kept: an array, since the format has a place for each local of two rules.
    pub places: [u32; PLACES],
}

impl PairTable {
    // No local has a partner.
    pub fn new() -> PairTable
        ensures { result.places ≡ replicate 2048 4294967295 }
    {
        PairTable {
            places: [NONE; PLACES],
        }
    }
}

impl Default for PairTable {
    ghost is_default = { λ table. table.places ≡ replicate 2048 4294967295 };

    fn default() -> PairTable {
        PairTable::new()
    }
}

// Nothing, or a colon and each local of the first rule that has a partner, in ascending order.
impl fmt::Display for PairTable {
    fn fmt<W: fmt::Write>(&self, f: &mut fmt::Formatter<W>) -> fmt::Result {
        let mut lead = ": ";
        for (local, partner) in self.places.iter().take(LOCALS).enumerate() {
            if *partner != NONE {
                write!(f, "{lead}#{local} -> #{partner}")?;
                lead = ", ";
            }
        }
        Ok(())
    }
}
