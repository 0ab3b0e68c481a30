// A history of calls, played on two catalogues of rules: one under the rotating hasher, and one under FNV-1a. Both
// answers of each call are printed.
//
// The answers that are expected come from a model that is not part of this repository: a list of rules of which it is known
// which are the same, since each was made from another by renaming, reversing and wrapping.

#![tactic(auto)]

use catalogue::record::Slot;
use hashing::fnv1a::Fnv1a;
use hashing::hasher::Hasher;
use hashing::rotating::Rotating;
use kinds::rules::Rules;
use replays::store::Store;
use scripts::call::Call;
use scripts::heading::Heading;
use scripts::script::{Script, read_script};
use std::alloc::{AllocError, Global};
use std::io;
use std::io::Read;

// Kept: the first two lines stand in three other programs too, which go on with another reader. A function that reads all of
// the input would want a crate of its own for two lines.
fn main(rt: HostRuntime) -> io::Result<()> {
    let mut bytes = Vec::new(rt.alloc());
    rt.stdin().read_to_end(&mut bytes)?;
    match read_script(rt.alloc(), bytes.as_slice()) {
        Ok(Script::Rules(heading, calls)) => play(&rt, heading, calls.as_slice()),
        Ok(Script::Names(_, _)) => rt.println("expected a catalogue of rules"),
        Err(fault) => rt.println(&fault),
    }
}

fn play(rt: &HostRuntime, heading: Heading, calls: &[Call<u32>]) -> io::Result<()> {
    let heap = rt.alloc();
    let mut one = rubbish_store::<Rotating>(heap, heading)?;
    let mut other = rubbish_store::<Fnv1a>(heap, heading)?;
    for call in calls {
        let a = one.answer(heap, call)?;
        let b = other.answer(heap, call)?;
        println!(rt; "{a} | {b}")?;
    }
    Ok(())
}

// A catalogue whose memory is filled with rubbish first.
fn rubbish_store<H: Hasher>(heap: Global, heading: Heading) -> Result<Store<Rules, H>, AllocError> {
    let slot = Slot {
        start: 3,
        len: usize::MAX,
        hash: u64::MAX,
        class: 1,
        begun: 7,
    };
    Store::new(heap, Rules, heading.slots, heading.units, slot, 0xffff_ffff)
}
