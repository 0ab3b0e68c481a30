// One call, performed.
ghost use Rattle.catalogue.specs.Kinds.{sense};
ghost use Rattle.catalogue.specs.Numbers.{Bounded};
ghost use Rattle.catalogue.specs.States.{state};
ghost use Rattle.hashing.specs.Words.{hash_by};
ghost use Rattle.replays.specs.Performed.{Performed, RunCopied};
ghost use Rattle.std.specs.Prelude.{◌≡◌, IfOk, OnErr};

use crate::answer::Answer;
use catalogue::asking::{class_count, class_of, hash_of, run_of};
use catalogue::calls::{cut, enter, find};
use catalogue::fault::NotStanding;
use catalogue::kind::Kind;
use catalogue::record::{Catalogue, Slot};
use hashing::hasher::Hasher;
use scripts::call::Call;
use std::alloc::{AllocError, Global};

/// The answer of a call. It fails for want of memory for the copy of a run only, and leaves everything as it was then.
// Kept: the record and its memory are no struct here, since they are lent to each call as the catalogue's own calls take them; `Store` has them together.
pub fn perform<K: Kind, H: Hasher>(
    heap: Global,
    cat: &mut Catalogue<H>,
    kind: &K,
    slots: &mut [Slot],
    units: &mut [K::Unit],
    call: &Call<K::Unit>,
) -> Result<Answer<K::Unit, K::Fault>, AllocError>
    ensures done { IfOk result (λ answer. Performed (sense K.meets K.same K.feed K.Fault.number kind.now (hash_by H.Hasher))
        (state cat.old slots.old units.old) call.now answer
        (state cat.new slots.new units.new)) }
    ensures failed { OnErr result (state cat.new slots.new units.new ≡ state cat.old slots.old units.old) }
    ensures before { Bounded cat.old }
    ensures bounded { Bounded cat.new }
{
    match call {
        Call::Enter(run) => Ok(Answer::Enter(enter(cat, kind, slots, units, run.as_slice()))),
        Call::Find(run) => Ok(Answer::Find(find(cat, kind, slots, units, run.as_slice()))),
        Call::Cut(keep) => Ok(Answer::Cut(cut(cat, slots, *keep))),
        Call::Count => Ok(Answer::Count(class_count(cat, kind, slots, units))),
        Call::Class(number) => Ok(Answer::Class(class_of(cat, slots, *number))),
        Call::Hash(number) => Ok(Answer::Hash(hash_of(cat, slots, *number))),
        Call::Run(number) => Ok(Answer::Run(copied_run(heap, cat, slots, units, *number)?)),
    }
}

// The units of an entry are copied, since a later call may use their memory again.
// Kept: arm by arm, since a Result has no call that turns two of them inside out, and by closures it is longer.
fn copied_run<H, U: Copy>(
    heap: Global,
    cat: &Catalogue<H>,
    slots: &[Slot],
    units: &[U],
    number: usize,
) -> Result<Result<Vec<U>, NotStanding>, AllocError>
    ensures copied { IfOk result (RunCopied cat.now slots.now units.now number) }
    ensures bounded { Bounded cat.now }
{
    match run_of(cat, slots, units, number) {
        Ok(run) => Ok(Ok(Vec::from_slice(heap, run)?)),
        Err(fault) => Ok(Err(fault)),
    }
}
