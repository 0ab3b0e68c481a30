// What the calls keep: a record of three numbers, and the slots and units that the caller hands to each call.
use std::marker::{Model, PhantomData};

/// The most entries that can stand.
pub const MOST_ENTRIES: usize = 65536;

/// What is known of one entry: its units are the `len` ones from `start` on. The default is an empty slot.
#[derive(Clone, Copy, Debug, Default, PartialEq, Eq)]
pub struct Slot {
    // Kept: a start and a length and no slice, since the units are lent anew to each call.
    pub start: usize,
    pub len: usize,
    pub hash: u64,
    pub class: usize,
    // how many classes began before this entry
    pub begun: usize,
}

impl Slot {
    ghost use Rattle.catalogue.specs.States.{RunWithin};

    /// The units that the slot names, where all of them are within `units`.
    pub fn run<U>(self, units: &[U]) -> Option<&[U]>
        ensures { RunWithin units.now self result }
    {
        let end = self.start.checked_add(self.len)?;
        units.get(self.start..end)
    }
}

/// The record of a catalogue whose hashes are those of `H`.
// Kept: the slots and units are no fields of it, since the memory is fixed, and lent anew to each call.
#[derive(Drop)]
pub struct Catalogue<H> {
    pub(crate) standing: usize,
    pub(crate) used: usize,
    pub(crate) classes: usize,
    pub(crate) hasher: PhantomData<H>,
}

// Contracts see the three numbers, whatever the hasher.
impl<H> Model for Catalogue<H> {
    ghost use Rattle.std.specs.Prelude.{◌≤◌};
    ghost use Rattle.catalogue.specs.Numbers.{Numbers};

    ghost Value = { Numbers };

    ghost view = { λ c. record { standing = c.standing; used = c.used; classes = c.classes } };

    ghost invariant = { λ c. (c.classes ≤ c.standing) × (c.standing ≤ 65536) };
}

/// The number of an entry, and its class.
#[derive(Clone, Copy, Debug, PartialEq, Eq)]
pub struct Entered {
    pub number: usize,
    pub class: usize,
}
