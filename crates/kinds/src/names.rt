// Names as a kind of entry.
use catalogue::fault::Numbered;
use catalogue::kind::Kind;
use hashing::hasher::Hasher;

/// Why a run of bytes is no name.
#[derive(Clone, Copy, Debug, PartialEq, Eq)]
pub enum NameFault {
    // longer than 255 bytes
    TooLong = 1,
    Empty = 2,
}

impl Numbered for NameFault {
    ghost use Rattle.kinds.specs.Numbers.{name_number};

    ghost number = { name_number };

    fn number(self) -> u8 {
        self as u8
    }
}

/// Names of 1 to 255 bytes. They are the same when they are equal.
#[derive(Clone, Copy)]
pub struct Names;

impl Kind for Names {
    ghost use Rattle.kinds.specs.Numbers.{one_name_fault};
    ghost use Rattle.std.specs.Prelude.{◌≡◌, ℕ, List, ◌∷◌, length};
    ghost use Rattle.kinds.specs.Longest.{name-longest};
    ghost use Rattle.kinds.specs.Names.{meets_name};
    ghost use Rattle.std.proofs.Common.{rules};

    type Unit = u8;

    type Fault = NameFault;

    const LONGEST: usize = 255;

    ghost LONGEST = { 255 };

    ghost meets = { λ k n bytes. meets_name n bytes };

    ghost same = { λ k a b. a ≡ b };

    ghost feed = { λ k f bytes. length bytes ∷ bytes };

    ghost one_fault = { one_name_fault };

    ghost longest = { λ k bytes. name-longest bytes };

    ghost reflexive = { Prim.search rules };

    ghost symmetric = { Prim.search rules };

    ghost transitive = { Prim.search rules };

    ghost one_hash = { Prim.search rules };

    fn intake(&self, run: &[u8]) -> Result<(), NameFault> {
        if run.len() > Names::LONGEST {
            return Err(NameFault::TooLong);
        }
        if run.is_empty() {
            return Err(NameFault::Empty);
        }
        Ok(())
    }

    fn compare(&self, a: &[u8], b: &[u8]) -> bool {
        a == b
    }

    fn hash<H: Hasher>(&self, run: &[u8]) -> u64 {
        let mut hasher = H::fresh();
        hasher.feed(run.len() as u64);
        // Kept: no `fold`, which moves the hasher for each byte; here it is fed in place, whatever its size.
        for byte in run {
            hasher.feed(u64::from(*byte));
        }
        hasher.end()
    }
}
