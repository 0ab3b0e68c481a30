// The rules of a table by their names.
ghost use Rattle.std.specs.Prelude.{◌≡◌, IfOk};
ghost use Rattle.verdicts.specs.Names.{FoundAs, Indexes};

use std::alloc::{AllocError, Global};
use std::collections::BTreeMap;
use std::marker::Model;
use tables::line::Entry;

// At each name the place of its rule.
pub type Places = BTreeMap<String, usize>;

pub fn index(heap: Global, entries: &[Entry]) -> Result<Places, AllocError>
    ensures { IfOk result (λ m. Indexes entries.now m) }
{
    let mut places = BTreeMap::new(heap);
    for (i, entry) in entries.iter().enumerate() {
        let name = String::from_str(heap, entry.name.as_str())?;
        places.insert(name, i)?;
    }
    Ok(places)
}

// The rule of this name among the rules that were indexed.
pub fn find<'a>(entries: &'a [Entry], places: &Places, name: &str) -> Option<&'a Entry>
    ensures { Indexes entries.now places.now → FoundAs entries.now name.now result }
{
    // Kept: by arms, so that the place at which the table is read stands in a line of its own.
    match places.get(name).copied() {
        Some(i) => entries.get(i),
        None => None,
    }
}

// A table with its index. A contract sees it as the table's rules.
#[derive(Drop)]
pub struct Names<'a> {
    entries: &'a [Entry],
    places: Places,
}

impl<'a> Model for Names<'a> {
    ghost use Rattle.std.specs.Prelude.{List};
    ghost use Rattle.tables.specs.declared.line.Entry.{Entry};
    ghost use Rattle.verdicts.specs.Names.{Indexes};

    ghost Value = { List Entry };

    ghost view = { λ names. names.entries.now };

    ghost invariant = { λ names. Indexes names.entries.now names.places };
}

// By hand, so that it says that a clone has the same rules.
impl<'a> Clone for Names<'a> {
    ghost is_clone = { λ names clone. clone ≡ names };

    fn clone(&self) -> Result<Names<'a>, AllocError> {
        let entries = self.entries;
        let places = self.places.clone()?;
        Ok(Names { entries, places })
    }
}

impl<'a> Names<'a> {
    pub fn of(heap: Global, entries: &'a [Entry]) -> Result<Names<'a>, AllocError>
        ensures { IfOk result (λ names. names ≡ entries.now) }
    {
        let places = index(heap, entries)?;
        Ok(Names { entries, places })
    }

    // The rule of this name.
    pub fn get(&self, name: &str) -> Option<&'a Entry>
        ensures { FoundAs self.now name.now result }
    {
        find(self.entries, &self.places, name)
    }
}
