// A trial of one reading of a comparison: the pairs that it records are taken out again unless it is kept.
ghost use Rattle.trial.specs.Marks.{held, Marked};
ghost use Rattle.trial.specs.Trials.{Restored};
ghost use Rattle.std.specs.Prelude.{◌≡◌, true, false};

use crate::pairs::{NONE, PLACES, places};

/// Which places of a table held a partner: bit i % 64 of word i / 64 is place i.
#[derive(Clone, Copy, Debug, PartialEq, Eq)]
pub struct Before {
    // Kept: the guard holds by value what stood before, with no heap, and a bit for each place is least.
    pub bits: [u64; 32],
}

impl Before {
    /// The places of the table that hold a partner.
    pub fn of(table: &[u32]) -> Before
        ensures { Marked result.bits table.now }
    {
        let mut bits = [0u64; 32];
        for (i, place) in table[..places(table)].iter().enumerate() {
            if *place != NONE {
                bits[i / 64] |= 1 << (i % 64);
            }
        }
        Before { bits }
    }

    // Place i held a partner.
    fn held(&self, i: usize) -> bool
        ensures { result ≡ held self.now.bits i }
    {
        i < PLACES && (self.bits[i / 64] >> (i % 64)) % 2 == 1
    }

    // Takes the partner out of every place that held none.
    fn restore(&self, table: &mut [u32])
        ensures { Restored self.now.bits table.old table.new }
    {
        let end = places(table);
        for (i, place) in table[..end].iter_mut().enumerate() {
            if !self.held(i) {
                *place = NONE;
            }
        }
    }
}

/// Holds the table while a reading is tried. On every way out of its scope the table is restored, unless `kept` was set.
pub struct Trial<'a> {
    pub table: &'a mut [u32],
    pub before: Before,
    // Kept: a flag. By the project's form the guard is a plain record, whose drop restores the table unless its holder has
    // set this.
    pub kept: bool,
}

impl<'a> Trial<'a> {
    /// A trial over a table, which is not kept yet.
    pub fn of(table: &'a mut [u32]) -> Trial<'a>
        ensures same_reference { result.table.ghost_name ≡ table.entry.ghost_name }
        ensures table { result.table.now ≡ table.old }
        ensures before { Marked result.before.bits table.old }
        ensures kept { result.kept ≡ false }
    {
        let before = Before::of(table);
        Trial {
            table,
            before,
            kept: false,
        }
    }
}

impl Drop for Trial<'_> {
    fn drop(self)
        ensures keeps { self.entry.kept ≡ true → self.exit.0.now ≡ self.entry.table.now }
        ensures restores { self.entry.kept ≡ false → Restored self.entry.before.bits self.entry.table.now self.exit.0.now }
    {
        let Trial {
            table,
            before,
            kept,
        } = self;
        if !kept {
            before.restore(table);
        }
    }
}
