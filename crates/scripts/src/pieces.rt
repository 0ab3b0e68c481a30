// The pieces of a line, one after the other.
// Kept: a line and its pieces are two parameters; were they one value, each contract of what is read would also have to
// say that the line stays the same.
ghost use Rattle.std.specs.Prelude.{true, [], ◌∷◌};
ghost use Rattle.tables.specs.Pieces.{Blanks, Run, left};
ghost use Rattle.scripts.specs.Parts.{NumberTo, PieceTo};
ghost use Rattle.scripts.specs.Readings.{Reads};

use crate::fault::{Expected, ScriptFault};
use tables::line::Line;
use tables::pieces::Pieces;
use tables::word::read_word;

// The next piece, where something is expected.
pub(crate) fn read_piece<'a>(
    line: Line,
    pieces: &mut Pieces<'a>,
    expected: Expected,
) -> Result<&'a str, ScriptFault>
    ensures { Reads line.number (λ p. (p.now, left pieces.new)) (PieceTo (left pieces.old)) result }
{
    pieces.next().ok_or(ScriptFault::missing(line, expected))
}

// Only blanks are left.
pub(crate) fn read_end(line: Line, mut pieces: Pieces<'_>) -> Result<(), ScriptFault>
    ensures { Reads line.number (λ _. tt) (λ (_ : Unit {0}). Blanks true (left pieces.entry)) result }
{
    match pieces.next() {
        Some(piece) => Err(ScriptFault::found(line, Expected::End, piece)),
        None => Ok(()),
    }
}

// The number that the next piece writes.
pub(crate) fn read_number(line: Line, pieces: &mut Pieces<'_>) -> Result<usize, ScriptFault>
    ensures { Reads line.number (λ k. (k, left pieces.new)) (NumberTo (left pieces.old)) result }
{
    let piece = read_piece(line, pieces, Expected::Number)?;
    let word = read_word(piece).map_err(|_| ScriptFault::found(line, Expected::Number, piece))?;
    Ok(word as usize)
}

// The number that all the pieces are.
// Kept: the hasher's name at the end of a heading is read alike; one function that takes a reader, with a contract over
// what the reader may answer, is longer than the two.
pub(crate) fn read_sole_number(line: Line, mut pieces: Pieces<'_>) -> Result<usize, ScriptFault>
    ensures { Reads line.number (λ k. k) (λ k. Run (left pieces.entry) (k ∷ [])) result }
{
    let number = read_number(line, &mut pieces)?;
    read_end(line, pieces)?;
    Ok(number)
}
