// A call of a catalogue, as a line writes it.
ghost use Rattle.tables.specs.Pieces.{left};
ghost use Rattle.scripts.specs.Calls.{AfterVerb, CallAs, told};
ghost use Rattle.scripts.specs.Readings.{Reads};

use crate::fault::ScriptFault;
use crate::named::read_named;
use crate::pieces::{read_end, read_sole_number};
use crate::units::read_units;
use crate::verb::Verb;
use tables::line::Line;
use tables::pieces::Pieces;

#[derive(Debug, Drop)]
pub enum Call<U> {
    Enter(Vec<U>),
    Find(Vec<U>),
    Cut(usize),
    Count,
    Class(usize),
    Hash(usize),
    Run(usize),
}

// The call that a line writes, with no unit above `limit`.
pub fn read_call(line: Line, text: &str, limit: u32) -> Result<Call<u32>, ScriptFault>
    ensures { Reads line.number told (CallAs limit text.now) result }
{
    let mut pieces = Pieces::new(text);
    let verb = read_named(line, &mut pieces)?;
    after_verb(line, verb, pieces, limit)
}

// The call of a verb and the pieces after it.
fn after_verb(
    line: Line,
    verb: Verb,
    pieces: Pieces<'_>,
    limit: u32,
) -> Result<Call<u32>, ScriptFault>
    ensures { Reads line.number told (AfterVerb limit verb (left pieces.entry)) result }
{
    match verb {
        Verb::Enter => read_units(line, pieces, limit).map(Call::Enter),
        Verb::Find => read_units(line, pieces, limit).map(Call::Find),
        Verb::Cut => read_sole_number(line, pieces).map(Call::Cut),
        Verb::Count => read_end(line, pieces).map(|()| Call::Count),
        Verb::Class => read_sole_number(line, pieces).map(Call::Class),
        Verb::Hash => read_sole_number(line, pieces).map(Call::Hash),
        Verb::Run => read_sole_number(line, pieces).map(Call::Run),
    }
}
