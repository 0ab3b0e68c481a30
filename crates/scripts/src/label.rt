// The labels that stand in a heading.
ghost use Rattle.std.specs.Prelude.{◌≡◌};
ghost use Rattle.tables.specs.Pieces.{left};
ghost use Rattle.scripts.specs.Headings.{LabelTo, LabelledTo, label_word};
ghost use Rattle.scripts.specs.Readings.{Reads};

use crate::fault::{Expected, ScriptFault};
use crate::pieces::{read_number, read_piece};
use tables::line::Line;
use tables::pieces::Pieces;

#[derive(Clone, Copy, Debug, PartialEq, Eq)]
pub(crate) enum Label {
    Catalogue,
    Slots,
    Units,
    Hasher,
}

impl Label {
    // Kept: no `Display`, since it is compared with a piece of text and not printed.
    fn word(self) -> &'static str
        ensures { result.now ≡ label_word self }
    {
        match self {
            Label::Catalogue => "catalogue",
            Label::Slots => "slots",
            Label::Units => "units",
            Label::Hasher => "hasher",
        }
    }
}

// What a line should have had in the place of the label.
impl From<Label> for Expected {
    fn from(label: Label) -> Expected {
        match label {
            Label::Catalogue => Expected::Heading,
            Label::Slots => Expected::Slots,
            Label::Units => Expected::Units,
            Label::Hasher => Expected::Hasher,
        }
    }
}

// The next piece is the label.
pub(crate) fn read_label(
    line: Line,
    pieces: &mut Pieces<'_>,
    label: Label,
) -> Result<(), ScriptFault>
    ensures { Reads line.number (λ _. left pieces.new) (LabelTo label (left pieces.old)) result }
{
    let piece = read_piece(line, pieces, label.into())?;
    if piece == label.word() {
        return Ok(());
    }
    Err(ScriptFault::found(line, label.into(), piece))
}

// The number after a label.
pub(crate) fn read_labelled(
    line: Line,
    pieces: &mut Pieces<'_>,
    label: Label,
) -> Result<usize, ScriptFault>
    ensures { Reads line.number (λ k. (k, left pieces.new)) (LabelledTo label (left pieces.old)) result }
{
    read_label(line, pieces, label)?;
    read_number(line, pieces)
}
