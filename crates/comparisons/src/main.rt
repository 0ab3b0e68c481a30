// Comparing on a list of cases: each two rules of the input are compared, and the answer is printed with the renaming.

#![tactic(auto)]

use sameness::compare::{Unfit, compare_over};
use std::io;
use std::io::Read;
use tables::line::Entry;
use tables::table::read_bytes;
use trial::pairs::{LOCALS, NONE, PLACES};

#[cfg(test)]
mod tests;

// Kept: `comparisons`, `hashes` and `trials` begin alike, up to the function that answers the rules. One function for the
// three would take a closure and ask of its callers that it can be called, and no public function asks anything of them; a
// trait with a type for each program is longer than these lines.
fn main(rt: HostRuntime) -> io::Result<()> {
    let mut bytes = Vec::new(rt.alloc());
    rt.stdin().read_to_end(&mut bytes)?;
    match read_bytes(rt.alloc(), bytes.as_slice()) {
        Ok(entries) => answer_all(&rt, entries.as_slice()),
        Err(fault) => rt.println(&fault),
    }
}

fn answer_all(rt: &HostRuntime, entries: &[Entry]) -> io::Result<()> {
    let (pairs, _) = entries.as_chunks::<2>();
    for [first, second] in pairs {
        print!(rt; "{}: ", second.name)?;
        answer(rt, first.words.as_slice(), second.words.as_slice())?;
    }
    Ok(())
}

fn answer(rt: &HostRuntime, first: &[u32], second: &[u32]) -> io::Result<()> {
    let mut pairs = [NONE; PLACES];
    match compare_over(first, second, &mut pairs) {
        Ok(true) => renaming(rt, &pairs[0..LOCALS]),
        Ok(false) => rt.println("different"),
        Err(fault) => refusal(rt, fault),
    }
}

// The partners of the first rule's locals.
// Kept: the text of a pair table in `verdicts` goes over the same places, but writes other words; what the two share is one test, and a function that takes a closure is longer.
fn renaming(rt: &HostRuntime, partners: &[u32]) -> io::Result<()> {
    rt.print("same")?;
    for (local, partner) in partners.iter().enumerate() {
        if *partner != NONE {
            print!(rt; " {local}-{partner}")?;
        }
    }
    rt.println("")
}

// Kept: one line of this program alone. A Display would want a type here around the fault of another crate.
fn refusal(rt: &HostRuntime, fault: Unfit) -> io::Result<()> {
    let which = match fault {
        Unfit::First(_) => "first",
        Unfit::Second(_) => "second",
    };
    println!(rt; "{which} refused {}", fault.number())
}
