// A catalogue with memory of its own.
ghost use Rattle.catalogue.specs.Kinds.{sense};
ghost use Rattle.catalogue.specs.Numbers.{Bounded, nothing};
ghost use Rattle.catalogue.specs.States.{state};
ghost use Rattle.hashing.specs.Words.{hash_by};
ghost use Rattle.replays.specs.Performed.{Performed};
ghost use Rattle.std.specs.Prelude.{◌≡◌, IfOk, OnErr, vec_len};

use crate::answer::Answer;
use crate::perform::perform;
use catalogue::kind::Kind;
use catalogue::record::{Catalogue, Slot};
use hashing::hasher::Hasher;
use scripts::call::Call;
use std::alloc::{AllocError, Global};

/// A catalogue of the entries of a kind, with the slots and units that are handed to its calls.
#[derive(Drop)]
pub struct Store<K: Kind, H> {
    pub kind: K,
    pub cat: Catalogue<H>,
    pub slots: Vec<Slot>,
    pub units: Vec<K::Unit>,
}

impl<K: Kind, H: Hasher> Store<K, H> {
    /// Nothing stands; the memory is filled with one slot and one unit.
    pub fn new(
        heap: Global,
        kind: K,
        slots: usize,
        units: usize,
        slot: Slot,
        unit: K::Unit,
    ) -> Result<Store<K, H>, AllocError>
    where
        K: Drop,
        ensures kind { IfOk result (λ s. s.kind ≡ kind) }
        ensures empty { IfOk result (λ s. s.cat ≡ nothing) }
        ensures slots { IfOk result (λ s. vec_len s.slots ≡ slots) }
        ensures units { IfOk result (λ s. vec_len s.units ≡ units) }
    {
        Ok(Store {
            kind,
            cat: Catalogue::new(),
            slots: vec![in heap; slot; slots]?,
            units: vec![in heap; unit; units]?,
        })
    }

    /// The answer of a call. It fails for want of memory for the copy of a run only.
    pub fn answer(
        &mut self,
        heap: Global,
        call: &Call<K::Unit>,
    ) -> Result<Answer<K::Unit, K::Fault>, AllocError>
        ensures kind { self.new.kind ≡ self.old.kind }
        ensures done { IfOk result (λ answer. Performed
            (sense K.meets K.same K.feed K.Fault.number self.old.kind (hash_by H.Hasher))
            (state self.old.cat self.old.slots.items self.old.units.items) call.now answer
            (state self.new.cat self.new.slots.items self.new.units.items)) }
        ensures failed { OnErr result (state self.new.cat self.new.slots.items self.new.units.items
            ≡ state self.old.cat self.old.slots.items self.old.units.items) }
        ensures before { Bounded self.old.cat }
        ensures bounded { Bounded self.new.cat }
    {
        perform(
            heap,
            &mut self.cat,
            &self.kind,
            self.slots.as_mut_slice(),
            self.units.as_mut_slice(),
            call,
        )
    }
}
