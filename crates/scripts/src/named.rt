// The words that name something.
ghost use Rattle.std.specs.Prelude.{◌≡◌, ℕ, List, Result};
ghost use Rattle.tables.specs.Pieces.{left};
ghost use Rattle.scripts.specs.Parts.{WordAs, WordTo};
ghost use Rattle.scripts.specs.Readings.{Reads};

use crate::fault::{Expected, ScriptFault};
use crate::pieces::read_piece;
use std::str::FromStr;
use tables::line::Line;
use tables::pieces::Pieces;

// What a word can name.
pub(crate) trait Named: FromStr {
    // The word that names it.
    ghost spelling: { Self → List ℕ };

    // What a line should have had, where it has no such word.
    fn expected() -> Expected;

    // No two are named alike, and a text is read as what it names.
    ghost apart: { (u v : Self) → spelling u ≡ spelling v → u ≡ v };

    ghost reads: { (bs : List ℕ) (r : Result Self Self.Err) → Self.from_str_gives bs r → WordAs spelling bs r };
}

// What the next piece names.
pub(crate) fn read_named<T: Named + Drop>(
    line: Line,
    pieces: &mut Pieces<'_>,
) -> Result<T, ScriptFault>
where
    T::Err: Drop,
    ensures { Reads line.number (λ x. (x, left pieces.new)) (WordTo T.spelling (left pieces.old)) result }
{
    let piece = read_piece(line, pieces, T::expected())?;
    piece
        .parse::<T>()
        .map_err(|_| ScriptFault::found(line, T::expected(), piece))
}
