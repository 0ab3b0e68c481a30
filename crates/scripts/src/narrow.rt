// Calls whose units are bytes.
ghost use Rattle.std.specs.Prelude.{vec_items};
ghost use Rattle.scripts.specs.Calls.{AllUnder, Under, told, told_all};
ghost use Rattle.scripts.specs.Parts.{UnitsUnder};
ghost use Rattle.scripts.specs.Readings.{Kept};

use crate::call::Call;
use crate::fault::ScriptFault;
use std::alloc::Global;

// The same calls, of names.
// Kept: their units are read as words and made bytes here, since `read_call` is published and answers words.
pub(crate) fn narrow_calls(heap: Global, calls: &[Call<u32>]) -> Result<Vec<Call<u8>>, ScriptFault>
    requires { AllUnder 255 calls.now }
    ensures { Kept (λ v. told_all v.items) (told_all calls.now) result }
{
    calls
        .iter()
        .map(|call| narrow_call(heap, call))
        .try_collect(heap)
}

// Kept: a method that changes the units of any call would name each variant too, and has this one caller.
fn narrow_call(heap: Global, call: &Call<u32>) -> Result<Call<u8>, ScriptFault>
    requires { Under 255 (told call.now) }
    ensures { Kept told (told call.now) result }
{
    match call {
        Call::Enter(units) => narrow_units(heap, units.as_slice()).map(Call::Enter),
        Call::Find(units) => narrow_units(heap, units.as_slice()).map(Call::Find),
        Call::Cut(k) => Ok(Call::Cut(*k)),
        Call::Count => Ok(Call::Count),
        Call::Class(k) => Ok(Call::Class(*k)),
        Call::Hash(k) => Ok(Call::Hash(*k)),
        Call::Run(k) => Ok(Call::Run(*k)),
    }
}

fn narrow_units(heap: Global, units: &[u32]) -> Result<Vec<u8>, ScriptFault>
    requires { UnitsUnder 255 units.now }
    ensures { Kept vec_items units.now result }
{
    Ok(units.iter().map(|unit| *unit as u8).collect(heap)?)
}
