// What can be asked of a catalogue and of its entries.
ghost use Rattle.std.specs.Prelude.{◌≡◌, ℕ};
ghost use Rattle.catalogue.specs.Calls.{PartDone, RunDone};
ghost use Rattle.catalogue.specs.Kinds.{sense};
ghost use Rattle.catalogue.specs.Numbers.{Bounded};
ghost use Rattle.catalogue.specs.Promise.{Promised};
ghost use Rattle.catalogue.specs.States.{state};
ghost use Rattle.hashing.specs.Words.{hash_by};

use crate::fault::NotStanding;
use crate::kind::Kind;
use crate::record::{Catalogue, Slot};
use hashing::hasher::Hasher;

/// How many classes the standing entries have.
pub fn class_count<K: Kind, H: Hasher>(
    cat: &Catalogue<H>,
    kind: &K,
    slots: &[Slot],
    units: &[K::Unit],
) -> usize
    ensures count { result ≡ cat.now.classes }
    ensures promise { Promised (sense K.meets K.same K.feed K.Fault.number kind.now) (hash_by H.Hasher)
        (state cat.now slots.now units.now) result }
    ensures bounded { Bounded cat.now }
{
    cat.classes
}

/// How many entries stand.
pub fn standing<H>(cat: &Catalogue<H>) -> usize
    ensures count { result ≡ cat.now.standing }
    ensures bounded { Bounded cat.now }
{
    cat.standing
}

/// The class of an entry.
// Kept: beside `hash_of`, one expression each: what the two share is `slot_of`.
pub fn class_of<H>(cat: &Catalogue<H>, slots: &[Slot], number: usize) -> Result<usize, NotStanding>
    ensures done { PartDone cat.now slots.now number (λ s. s.class) result }
    ensures bounded { Bounded cat.now }
{
    Ok(slot_of(cat, slots, number)?.class)
}

/// The hash of an entry.
pub fn hash_of<H>(cat: &Catalogue<H>, slots: &[Slot], number: usize) -> Result<u64, NotStanding>
    ensures done { PartDone cat.now slots.now number (λ s. s.hash) result }
    ensures bounded { Bounded cat.now }
{
    Ok(slot_of(cat, slots, number)?.hash)
}

/// The run of an entry: the part of the units that its slot names.
pub fn run_of<'a, H, U>(
    cat: &Catalogue<H>,
    slots: &[Slot],
    units: &'a [U],
    number: usize,
) -> Result<&'a [U], NotStanding>
    ensures done { RunDone cat.now slots.now units.now number result }
    ensures bounded { Bounded cat.now }
{
    slot_of(cat, slots, number)?.run(units).ok_or(NotStanding)
}

fn slot_of<H>(cat: &Catalogue<H>, slots: &[Slot], number: usize) -> Result<Slot, NotStanding>
    ensures done { PartDone cat.now slots.now number (λ s. s) result }
    ensures bounded { Bounded cat.now }
{
    if number >= cat.standing {
        return Err(NotStanding);
    }
    slots.get(number).copied().ok_or(NotStanding)
}
