// Hashing on a list of rules: the hash of each by the rotating hasher and by FNV-1a.
//
// The hashes that are expected were worked out by a script that is not part of this repository. It was written from the
// definition of reduction, feed and hashers in docs/, and shares no code with what is tested.

#![tactic(auto)]

use feed::hash::hash_rule;
use hashing::fnv1a::Fnv1a;
use hashing::rotating::Rotating;
use rule::fault::Fault;
use std::io;
use std::io::Read;
use tables::line::Entry;
use tables::table::read_bytes;

// Kept: `comparisons`, `hashes` and `trials` begin alike, up to the function that answers the rules. One function for the
// three would take a closure and ask of its callers that it can be called, and no public function asks anything of them; a
// trait with a type for each program is longer than these lines.
fn main(rt: HostRuntime) -> io::Result<()> {
    let mut bytes = Vec::new(rt.alloc());
    rt.stdin().read_to_end(&mut bytes)?;
    match read_bytes(rt.alloc(), bytes.as_slice()) {
        Ok(entries) => hash_all(&rt, entries.as_slice()),
        Err(fault) => rt.println(&fault),
    }
}

fn hash_all(rt: &HostRuntime, entries: &[Entry]) -> io::Result<()> {
    for entry in entries {
        let name = entry.name.as_str();
        match both_hashes(entry.words.as_slice()) {
            Ok((rotating, fnv1a)) => println!(rt; "{name}: 0x{rotating:016x} 0x{fnv1a:016x}")?,
            Err(fault) => println!(rt; "{name}: refused {}", fault.number())?,
        }
    }
    Ok(())
}

fn both_hashes(words: &[u32]) -> Result<(u64, u64), Fault> {
    let rotating = hash_rule::<Rotating>(words)?;
    let fnv1a = hash_rule::<Fnv1a>(words)?;
    Ok((rotating, fnv1a))
}
