// The intake on a list of cases: for each, the number by which `intake` and `intake_entry` refuse it, or 0.

#![tactic(auto)]

use rule::fault::Fault;
use rule::intake::{intake, intake_entry};
use rule::nodes::Nodes;
use std::io;
use std::io::Read;
use tables::line::Entry;
use tables::table::read_bytes;

#[cfg(test)]
mod tests;

// Kept: `comparisons`, `hashes` and `trials` begin alike, up to the function that answers the rules. One function for the
// three would take a closure and ask of its callers that it can be called, and no public function asks anything of them; a
// trait with a type for each program is longer than these lines.
fn main(rt: HostRuntime) -> io::Result<()> {
    let mut bytes = Vec::new(rt.alloc());
    rt.stdin().read_to_end(&mut bytes)?;
    match read_bytes(rt.alloc(), bytes.as_slice()) {
        Ok(entries) => answer_all(&rt, entries.as_slice()),
        Err(fault) => rt.println(&fault),
    }
}

fn answer_all(rt: &HostRuntime, entries: &[Entry]) -> io::Result<()> {
    for entry in entries {
        let name = entry.name.as_str();
        let words = entry.words.as_slice();
        let alone = number_of(intake(words));
        let listed = number_of(intake_entry(words));
        println!(rt; "{name}: {alone} {listed}")?;
    }
    Ok(())
}

// Kept: one expression, here and in the tests of catalogues, over two types of faults.
fn number_of(answer: Result<Nodes, Fault>) -> u8 {
    answer.err().map_or(0, |fault| fault.number())
}
