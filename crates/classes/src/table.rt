// Enters each rule of a table into a catalogue.
ghost use Rattle.catalogue.specs.Numbers.{Bounded, nothing};
ghost use Rattle.catalogue.specs.States.{state};
ghost use Rattle.classes.specs.Tables.{Classed, EntersAll};
ghost use Rattle.hashing.specs.Words.{hash_by};
ghost use Rattle.std.specs.Prelude.{◌≡◌, IfOk};

use catalogue::calls::enter;
use catalogue::fault::Fault;
use catalogue::record::{Catalogue, Entered, Slot};
use hashing::hasher::Hasher;
use kinds::rules::{RuleFault, Rules, class_count};
use std::alloc::{AllocError, Global};
use tables::line::Entry;

// The record of a catalogue, what each rule's enter has answered, and how many classes the rules have.
// Kept: the answers stand beside the caller's entries, which are only lent; pairs of both would hold a reference to each entry
// that the caller has in this order.
#[derive(Drop)]
pub struct ClassedTable<H> {
    pub cat: Catalogue<H>,
    pub answers: Vec<Result<Entered, Fault<RuleFault>>>,
    pub classes: usize,
}

// Enters the rules of a table one after the other into a catalogue that begins empty, and counts their classes.
pub fn class_table<H: Hasher>(
    heap: Global,
    entries: &[Entry],
    slots: &mut [Slot],
    units: &mut [u32],
) -> Result<ClassedTable<H>, AllocError>
    ensures classed { IfOk result (λ t. Classed (hash_by H.Hasher) entries.now t.answers.items (state t.cat slots.new units.new) t.classes) }
    ensures bounded { IfOk result (λ t. Bounded t.cat) }
{
    let mut cat = Catalogue::new();
    let answers = enter_rules(heap, &mut cat, entries, slots, units)?;
    let classes = class_count(&cat, slots, units);
    Ok(ClassedTable {
        cat,
        answers,
        classes,
    })
}

// What each enter answers.
fn enter_rules<H: Hasher>(
    heap: Global,
    cat: &mut Catalogue<H>,
    entries: &[Entry],
    slots: &mut [Slot],
    units: &mut [u32],
) -> Result<Vec<Result<Entered, Fault<RuleFault>>>, AllocError>
    requires { cat.old ≡ nothing }
    ensures { IfOk result (λ answers. EntersAll (hash_by H.Hasher) entries.now answers.items (state cat.new slots.new units.new)) }
{
    let mut answers = Vec::new(heap);
    // Kept: tried `map` and `collect`; each enter changes the catalogue, and nothing is known of what a closure has changed.
    for entry in entries {
        let answer = enter(cat, &Rules, slots, units, entry.words.as_slice());
        answers.push(answer)?;
    }
    Ok(answers)
}
