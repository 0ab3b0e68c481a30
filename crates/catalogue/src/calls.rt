// The calls that alter a catalogue, or search it.
ghost use Rattle.catalogue.specs.Calls.{CutDone, EnterDone, FindDone};
ghost use Rattle.catalogue.specs.Kinds.{sense};
ghost use Rattle.catalogue.specs.Numbers.{Bounded, nothing};
ghost use Rattle.catalogue.specs.States.{slot_at, state};
ghost use Rattle.hashing.specs.Words.{hash_by};
ghost use Rattle.std.specs.Prelude.{◌≡◌, ◌+◌, ◌<◌, ◌≤◌, MatchOption};

use crate::fault::{Fault, NotStanding};
use crate::kind::Kind;
use crate::record::{Catalogue, Entered, MOST_ENTRIES, Slot};
use crate::search::first_same;
use hashing::hasher::Hasher;
use std::marker::PhantomData;

impl<H> Catalogue<H> {
    /// Nothing stands.
    pub fn new() -> Catalogue<H>
        ensures { result ≡ nothing }
    {
        Catalogue {
            standing: 0,
            used: 0,
            classes: 0,
            hasher: PhantomData,
        }
    }
}

/// Puts `run` behind the entries that stand, and answers its number and its class.
pub fn enter<K: Kind, H: Hasher>(
    cat: &mut Catalogue<H>,
    kind: &K,
    slots: &mut [Slot],
    units: &mut [K::Unit],
    run: &[K::Unit],
) -> Result<Entered, Fault<K::Fault>>
    ensures done { EnterDone (sense K.meets K.same K.feed K.Fault.number kind.now (hash_by H.Hasher))
        (state cat.old slots.old units.old) run.now result
        (state cat.new slots.new units.new) }
    ensures before { Bounded cat.old }
    ensures bounded { Bounded cat.new }
{
    let number = cat.standing;
    kind.intake(run)?;
    let start = cat.used;
    let begun = cat.classes;
    if number >= slots.len() || number >= MOST_ENTRIES {
        return Err(Fault::NoSlot);
    }
    let end = end_within(start, run.len(), units.len()).ok_or(Fault::NoUnits)?;
    let hash = kind.hash::<H>(run);
    let (class, classes) = match first_same(kind, number, slots, units, hash, run) {
        Some(i) => (slots[i].class, begun),
        None => (begun, begun + 1),
    };
    slots[number] = Slot {
        start,
        len: run.len(),
        hash,
        class,
        begun,
    };
    units[start..end].copy_from_slice(run);
    cat.standing = number + 1;
    cat.used = end;
    cat.classes = classes;
    Ok(Entered { number, class })
}

/// The first standing entry that is the same as `run`, if there is one.
pub fn find<K: Kind, H: Hasher>(
    cat: &Catalogue<H>,
    kind: &K,
    slots: &[Slot],
    units: &[K::Unit],
    run: &[K::Unit],
) -> Result<Option<usize>, K::Fault>
    ensures done { FindDone (sense K.meets K.same K.feed K.Fault.number kind.now (hash_by H.Hasher))
        (state cat.now slots.now units.now) run.now result }
    ensures bounded { Bounded cat.now }
{
    let standing = cat.standing;
    kind.intake(run)?;
    let hash = kind.hash::<H>(run);
    Ok(first_same(kind, standing, slots, units, hash, run))
}

/// Keeps the first `keep` entries. The memory behind them is used again.
pub fn cut<H>(cat: &mut Catalogue<H>, slots: &[Slot], keep: usize) -> Result<(), NotStanding>
    ensures done { CutDone cat.old slots.now keep result cat.new }
    ensures before { Bounded cat.old }
    ensures bounded { Bounded cat.new }
{
    if keep > cat.standing {
        return Err(NotStanding);
    }
    if keep < cat.standing {
        let first = slot_at(slots, keep);
        cat.standing = keep;
        cat.used = first.start;
        cat.classes = first.begun.min(keep);
    }
    Ok(())
}

// Where `len` units from `start` on end, if they are among the first `units`.
fn end_within(start: usize, len: usize, units: usize) -> Option<usize>
    ensures { MatchOption result (units < start + len) (λ end. (end ≡ start + len) × (end ≤ units)) }
{
    start.checked_add(len).filter(|end| *end <= units)
}

// An empty slot stands for one that is not within the memory.
// Kept: no Option, since a cut is refused by the standing number alone, and what it makes of a slot that was not handed is this.
fn slot_at(slots: &[Slot], i: usize) -> Slot
    ensures { result ≡ slot_at slots.now i }
{
    slots.get(i).copied().unwrap_or_default()
}
