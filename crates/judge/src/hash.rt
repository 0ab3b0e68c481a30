// `judge hash TABLE`: the hash of each rule, and a summary.
use crate::hashers::{UnderHasher, under_hasher};
use crate::source::{Trouble, load};
use arguments::hashed::Hashed;
use feed::hash::hash_rule;
use hashing::hasher::Hasher;
use std::io;
use tables::line::Entry;
use verdicts::rules::Rules;
use verdicts::verdict::Verdict;

pub fn hash<'a>(rt: &HostRuntime, asked: Hashed<'a>) -> Result<(), Trouble<'a>> {
    let entries = load(rt, asked.table)?;
    let entries = entries.as_slice();
    under_hasher(asked.hasher, Report { rt, entries })?;
    Ok(())
}

struct Report<'r> {
    rt: &'r HostRuntime,
    entries: &'r [Entry],
}

impl<'r> UnderHasher for Report<'r> {
    type Output = io::Result<()>;

    fn run<H: Hasher>(self) -> io::Result<()> {
        let Report { rt, entries } = self;
        // Kept: each line is printed as its rule is hashed; a `collect` of the hashes first would print nothing where memory ends.
        let mut refused: usize = 0;
        for entry in entries {
            let name = entry.name.as_str();
            match hash_rule::<H>(entry.words.as_slice()) {
                Ok(hash) => println!(rt; "{name}: 0x{hash:016x}")?,
                Err(fault) => {
                    refused = refused.saturating_add(1);
                    println!(rt; "{name}: {}", Verdict(Err(fault)))?;
                }
            }
        }
        let rules = Rules(entries.len());
        let hashed = entries.len().saturating_sub(refused);
        println!(rt; "{rules}: {hashed} hashed, {refused} refused")
    }
}
