// The units of an entry.
ghost use Rattle.std.specs.Prelude.{vec_items};
ghost use Rattle.tables.specs.Pieces.{left};
ghost use Rattle.scripts.specs.Parts.{UnitAt, Units};
ghost use Rattle.scripts.specs.Readings.{Reads};

use crate::fault::{Expected, ScriptFault};
use tables::line::Line;
use tables::pieces::Pieces;
use tables::word::read_word;

// The units that pieces write, none above `limit`.
pub(crate) fn read_units(
    line: Line,
    pieces: Pieces<'_>,
    limit: u32,
) -> Result<Vec<u32>, ScriptFault>
    ensures { Reads line.number vec_items (Units limit (left pieces.entry)) result }
{
    pieces
        .map(|piece| read_unit(line, piece, limit))
        .try_collect(line.heap)
}

// The unit that a piece writes.
fn read_unit(line: Line, piece: &str, limit: u32) -> Result<u32, ScriptFault>
    ensures { Reads line.number (λ k. k) (UnitAt limit piece.now) result }
{
    match read_word(piece) {
        Ok(word) if word <= limit => Ok(word),
        _ => Err(ScriptFault::found(line, unit_up_to(limit), piece)),
    }
}

// What a unit is that may be as large as `limit`.
// Kept: the limit is a number, since `read_call` is published and takes any; were it a kind, it would promise less.
fn unit_up_to(limit: u32) -> Expected {
    if limit == u32::from(u8::MAX) {
        Expected::Byte
    } else {
        Expected::Number
    }
}
