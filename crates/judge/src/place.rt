// Where a rule stands in a catalogue, or why it does not, and how many do.
use catalogue::asking::hash_of;
use catalogue::fault::{Fault, NotStanding, Numbered};
use catalogue::record::{Catalogue, Entered, Slot};
use kinds::rules::RuleFault;
use std::fmt;
use verdicts::rules::Rules;

#[derive(Clone, Copy, Debug, PartialEq, Eq)]
pub struct Place {
    pub number: usize,
    pub class: usize,
    pub hash: u64,
}

// Why a rule has no place.
#[derive(Clone, Copy)]
pub enum Unplaced {
    Refused(Fault<RuleFault>),
    Missing(NotStanding),
}

impl From<Fault<RuleFault>> for Unplaced {
    fn from(fault: Fault<RuleFault>) -> Unplaced {
        Unplaced::Refused(fault)
    }
}

impl From<NotStanding> for Unplaced {
    fn from(fault: NotStanding) -> Unplaced {
        Unplaced::Missing(fault)
    }
}

impl Unplaced {
    fn number(self) -> u8 {
        match self {
            Unplaced::Refused(fault) => fault.number(),
            Unplaced::Missing(fault) => fault.number(),
        }
    }
}

// The place of a rule, by what its enter has answered.
pub fn place_of<H>(
    cat: &Catalogue<H>,
    slots: &[Slot],
    answer: &Result<Entered, Fault<RuleFault>>,
) -> Result<Place, Unplaced> {
    let Entered { number, class } = (*answer)?;
    let hash = hash_of(cat, slots, number)?;
    Ok(Place {
        number,
        class,
        hash,
    })
}

impl fmt::Display for Place {
    fn fmt<W: fmt::Write>(&self, f: &mut fmt::Formatter<W>) -> fmt::Result {
        let Place {
            number,
            class,
            hash,
        } = self;
        write!(f, "entry {number}, class {class}, hash 0x{hash:016x}")
    }
}

// Kept: the words for the faults of a catalogue stand here, since this is the one program that prints them.
impl fmt::Display for Unplaced {
    fn fmt<W: fmt::Write>(&self, f: &mut fmt::Formatter<W>) -> fmt::Result {
        write!(f, "refused {}, ", self.number())?;
        match self {
            Unplaced::Refused(Fault::Input(fault)) => write!(f, "{}", fault.0),
            Unplaced::Refused(Fault::NoSlot) => f.write_str("no slot is free"),
            Unplaced::Refused(Fault::NoUnits) => f.write_str("too few units are free"),
            Unplaced::Missing(_) => f.write_str("no such entry stands"),
        }
    }
}

#[derive(Clone, Copy, Debug, PartialEq, Eq)]
pub struct Counts {
    pub rules: usize,
    pub entered: usize,
    pub classes: usize,
}

impl fmt::Display for Counts {
    fn fmt<W: fmt::Write>(&self, f: &mut fmt::Formatter<W>) -> fmt::Result {
        let Counts {
            rules,
            entered,
            classes,
        } = *self;
        let refused = rules.saturating_sub(entered);
        let rules = Rules(rules);
        // Kept: the one place where classes are counted in words.
        let class = if classes == 1 { "class" } else { "classes" };
        write!(
            f,
            "{rules}: {entered} entered, {refused} refused; {classes} {class}"
        )
    }
}
