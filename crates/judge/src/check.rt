// `judge check TABLE`: a line for each rule, and a summary.
use crate::source::{Trouble, load};
use std::io;
use tables::line::Entry;
use verdicts::verdict::{Tally, verdict_of};

pub fn check<'a>(rt: &HostRuntime, table: &'a str) -> Result<(), Trouble<'a>> {
    let entries = load(rt, table)?;
    report(rt, entries.as_slice())?;
    Ok(())
}

fn report(rt: &HostRuntime, entries: &[Entry]) -> io::Result<()> {
    // Kept: each line is printed as its rule is judged; a `collect` of the verdicts first would print nothing where memory ends.
    let mut verdicts = Vec::new(rt.alloc());
    for entry in entries {
        let verdict = verdict_of(entry.words.as_slice());
        let name = entry.name.as_str();
        println!(rt; "{name}: {verdict}")?;
        verdicts.push(verdict)?;
    }
    rt.println(Tally::of(verdicts.as_slice()))
}
