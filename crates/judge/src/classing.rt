// `judge classes TABLE`: the entry, the class and the hash of each rule in a catalogue, and a summary.
use crate::hashers::{UnderHasher, under_hasher};
use crate::place::{Counts, place_of};
use crate::source::{Trouble, load};
use arguments::hashed::Hashed;
use catalogue::asking::standing;
use catalogue::record::Slot;
use classes::table::{ClassedTable, class_table};
use hashing::hasher::Hasher;
use std::io;
use tables::line::Entry;

pub fn classes<'a>(rt: &HostRuntime, asked: Hashed<'a>) -> Result<(), Trouble<'a>> {
    let entries = load(rt, asked.table)?;
    let entries = entries.as_slice();
    under_hasher(asked.hasher, Entering { rt, entries })
}

// Kept: a job is a type, here, in hash.rt and in replay.rt, since a closure cannot be generic over the hasher. The first two
// have the same fields, and each has its own `run` of one trait.
struct Entering<'r> {
    rt: &'r HostRuntime,
    entries: &'r [Entry],
}

impl<'r> UnderHasher for Entering<'r> {
    type Output = Result<(), Trouble<'static>>;

    // A slot for each rule, and room for all their words.
    fn run<H: Hasher>(self) -> Result<(), Trouble<'static>> {
        let Entering { rt, entries } = self;
        let heap = rt.alloc();
        // Kept: two vectors and no `Store`, since `class_table` takes the memory that it fills from its caller.
        let mut slots = vec![in heap; Slot::default(); entries.len()]?;
        let mut units = vec![in heap; 0u32; words_of(entries)]?;
        let table = class_table::<H>(heap, entries, slots.as_mut_slice(), units.as_mut_slice())?;
        report(rt, entries, &table, slots.as_slice())?;
        Ok(())
    }
}

fn words_of(entries: &[Entry]) -> usize {
    entries.iter().fold(
        0usize,
        |words, entry| words.saturating_add(entry.words.len()),
    )
}

fn report<H>(
    rt: &HostRuntime,
    entries: &[Entry],
    table: &ClassedTable<H>,
    slots: &[Slot],
) -> io::Result<()> {
    for (entry, answer) in entries.iter().zip(table.answers.iter()) {
        let name = entry.name.as_str();
        match place_of(&table.cat, slots, answer) {
            Ok(place) => println!(rt; "{name}: {place}")?,
            Err(unplaced) => println!(rt; "{name}: {unplaced}")?,
        }
    }
    rt.println(Counts {
        rules: entries.len(),
        entered: standing(&table.cat),
        classes: table.classes,
    })
}
