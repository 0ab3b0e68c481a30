// A catalogue of names with memory of its own.
use crate::words::{Answer, Call};
use catalogue::asking::{class_count, class_of, hash_of, run_of, standing};
use catalogue::calls::{cut, enter, find};
use catalogue::fault::{NotStanding, Numbered};
use catalogue::kind::Kind;
use catalogue::record::{Catalogue, Slot};
use hashing::hasher::Hasher;
use kinds::names::Names;
use std::alloc::{AllocError, Global};

/// A catalogue, and the slots and units that are handed to its calls.
// Kept: the calls of a script own their runs, and these are lent theirs; here fewer slots and units can be handed than there
// are; and this crate would come to depend on two more for the making of a store.
#[derive(Drop)]
pub(crate) struct Store<H> {
    pub(crate) cat: Catalogue<H>,
    pub(crate) slots: Vec<Slot>,
    pub(crate) units: Vec<u8>,
}

impl<H: Hasher> Store<H> {
    // Nothing stands; the memory is filled with one slot and one unit.
    pub(crate) fn new(
        heap: Global,
        slots: usize,
        units: usize,
        slot: Slot,
        unit: u8,
    ) -> Result<Store<H>, AllocError> {
        Ok(Store {
            cat: Catalogue::new(),
            slots: vec![in heap; slot; slots]?,
            units: vec![in heap; unit; units]?,
        })
    }

    pub(crate) fn answer(&mut self, call: Call) -> Answer {
        match call {
            Call::Enter(run) => self.enter(run),
            Call::Find(run) => self.find(run),
            Call::Cut(keep) => self.cut(keep),
            Call::Counts => self.counts(),
            Call::Entry(number, run) => self.entry(number, run),
            Call::Told(slots, units, number) => self.told(slots, units, number),
        }
    }

    pub(crate) fn enter(&mut self, run: &[u8]) -> Answer {
        let slots = self.slots.as_mut_slice();
        let units = self.units.as_mut_slice();
        enter(&mut self.cat, &Names, slots, units, run).map_or_else(
            refused,
            |entered| Answer::Entered(entered.number, entered.class),
        )
    }

    fn find(&self, run: &[u8]) -> Answer {
        let slots = self.slots.as_slice();
        let units = self.units.as_slice();
        find(&self.cat, &Names, slots, units, run).map_or_else(refused, Answer::Found)
    }

    fn cut(&mut self, keep: usize) -> Answer {
        cut(&mut self.cat, self.slots.as_slice(), keep).map_or_else(refused, |()| Answer::Cut)
    }

    pub(crate) fn counts(&self) -> Answer {
        let slots = self.slots.as_slice();
        let units = self.units.as_slice();
        let classes = class_count(&self.cat, &Names, slots, units);
        Answer::Counts(standing(&self.cat), classes)
    }

    // The class of an entry that has this run and this run's hash.
    pub(crate) fn entry(&self, number: usize, run: &[u8]) -> Answer {
        self.stored(number, run).unwrap_or_else(refused)
    }

    fn stored(&self, number: usize, run: &[u8]) -> Result<Answer, NotStanding> {
        let slots = self.slots.as_slice();
        let stored = run_of(&self.cat, slots, self.units.as_slice(), number)?;
        let hash = hash_of(&self.cat, slots, number)?;
        if stored != run || hash != Names.hash::<H>(run) {
            return Ok(Answer::Other);
        }
        Ok(Answer::Class(class_of(&self.cat, slots, number)?))
    }

    // What can be asked of an entry where only some slots and units are handed.
    pub(crate) fn told(&self, slots: usize, units: usize, number: usize) -> Answer {
        let slots = front(self.slots.as_slice(), slots);
        let units = front(self.units.as_slice(), units);
        let class = number_of(class_of(&self.cat, slots, number));
        let hash = number_of(hash_of(&self.cat, slots, number));
        let run = number_of(run_of(&self.cat, slots, units, number));
        Answer::Told(class, hash, run)
    }
}

fn refused<F: Numbered>(fault: F) -> Answer {
    Answer::Refused(fault.number())
}

// The number of the fault, or 0.
fn number_of<T: Drop>(answer: Result<T, NotStanding>) -> u8 {
    answer.err().map_or(0, |fault| fault.number())
}

// The first n of a row, or all of it.
fn front<T>(row: &[T], n: usize) -> &[T] {
    row.get(..n).unwrap_or(row)
}
