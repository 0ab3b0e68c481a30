// A kind of entry.
ghost use Rattle.std.specs.Prelude.{◌≡◌, ℕ, ◌<◌, ◌≤◌, List, ◌↔◌, length, IfErr, IsTrue, OnOk};
ghost use Rattle.catalogue.specs.Kinds.{FirstOf, SoundBy};
ghost use Rattle.hashing.specs.Words.{hash_by};

use crate::fault::Numbered;
use hashing::hasher::Hasher;

/// What a catalogue can have entries of. An entry is a run of units.
///
/// Contract:
/// - A run is sound where it meets no number of the kind's input list, `meets`. Number 1 is met by exactly what is longer than `LONGEST`.
/// - A fault stands for a number of the input list that no other fault stands for.
/// - Over sound runs, sameness is reflexive, symmetric and transitive.
/// - A run's hash is what the hasher ends with over the run's feed; runs that are the same end in one hash, whatever the
///   hasher makes of the words that it is fed.
pub trait Kind {
    // what a run is made of
    type Unit: Copy;

    // why a run is refused
    type Fault: Numbered;

    // the longest run
    const LONGEST: usize;

    ghost LONGEST: { ℕ };

    // a run meets a number of the input list
    ghost meets: { Self → ℕ → List Self.Unit → Type 0 };

    // two runs are the same
    ghost same: { Self → List Self.Unit → List Self.Unit → Type 0 };

    // the words that a run feeds to a hasher
    ghost feed: { Self → (List ℕ → ℕ) → List Self.Unit → List ℕ };

    // The first number that the run meets, or none.
    fn intake(&self, run: &[Self::Unit]) -> Result<(), Self::Fault>
        ensures sound { OnOk result (SoundBy (meets self.now) run.now) }
        ensures first { IfErr result (λ e. FirstOf (meets self.now) run.now (Self.Fault.number e)) };

    // Whether two runs are the same; of runs that are not sound it may say anything.
    fn compare(&self, a: &[Self::Unit], b: &[Self::Unit]) -> bool
        ensures { SoundBy (meets self.now) a.now → SoundBy (meets self.now) b.now → (IsTrue result ↔ same self.now a.now b.now) };

    // The hash of a run; of a run that is not sound it may be any.
    fn hash<H: Hasher>(&self, run: &[Self::Unit]) -> u64
        ensures { SoundBy (meets self.now) run.now → result ≡ hash_by H.Hasher (feed self.now (hash_by H.Hasher) run.now) };

    ghost one_fault: { (e e' : Self.Fault) → Self.Fault.number e ≡ Self.Fault.number e' → e ≡ e' };

    ghost longest: { (k : Self) (run : List Self.Unit) → (meets k 1 run → LONGEST < length run) × (LONGEST < length run → meets k 1 run) };

    ghost reflexive: { (k : Self) (a : List Self.Unit) → SoundBy (meets k) a → same k a a };

    ghost symmetric: { (k : Self) (a b : List Self.Unit) → SoundBy (meets k) a → SoundBy (meets k) b → same k a b → same k b a };

    ghost transitive: { (k : Self) (a b c : List Self.Unit) → SoundBy (meets k) a → SoundBy (meets k) b → SoundBy (meets k) c → same k a b → same k b c → same k a c };

    ghost one_hash: { (k : Self) (f : List ℕ → ℕ) (a b : List Self.Unit) → SoundBy (meets k) a → SoundBy (meets k) b → same k a b → f (feed k f a) ≡ f (feed k f b) };
}
