// The first standing entry that is the same as a run.
ghost use Rattle.std.specs.Prelude.{◌≡◌, ℕ, ◌<◌, List, ◌↔◌, length, IfSome, IsTrue};
ghost use Rattle.catalogue.specs.Kinds.{SoundBy, sense};
ghost use Rattle.catalogue.specs.States.{FirstAt, Intact, Within, run_of, state};
ghost use Rattle.catalogue.specs.Numbers.{Numbers};

use crate::kind::Kind;
use crate::record::Slot;

// Whether the run that `slot` tells of is the same as `run`; no run is that is not within the units.
fn same_at<K: Kind>(kind: &K, slot: Slot, units: &[K::Unit], run: &[K::Unit]) -> bool
    ensures { Within slot units.now
        → SoundBy (K.meets kind.now) (run_of units.now slot)
        → SoundBy (K.meets kind.now) run.now
        → (IsTrue result ↔ K.same kind.now (run_of units.now slot) run.now) }
{
    slot.run(units).is_some_and(|held| kind.compare(held, run))
}

// Among the first `standing` slots; an entry is compared only where its hash is that of the run.
pub(crate) fn first_same<K: Kind>(
    kind: &K,
    standing: usize,
    slots: &[Slot],
    units: &[K::Unit],
    hash: u64,
    run: &[K::Unit],
) -> Option<usize>
    ensures inside { IfSome result (λ i. i < length slots.now) }
    ensures first { (f : List ℕ → ℕ) (a : Numbers) → a.standing ≡ standing
        → Intact (sense K.meets K.same K.feed K.Fault.number kind.now f) (state a slots.now units.now)
        → SoundBy (K.meets kind.now) run.now
        → hash ≡ f (K.feed kind.now f run.now)
        → FirstAt (sense K.meets K.same K.feed K.Fault.number kind.now f) (state a slots.now units.now) run.now result }
{
    slots.iter().take(standing).position(|slot| slot.hash == hash
        && same_at(kind, *slot, units, run))
}
