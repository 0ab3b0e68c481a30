// The heading of a script: the kind of a catalogue, its room and its hasher.
ghost use Rattle.std.specs.Prelude.{◌≡◌};
ghost use Rattle.hashing.specs.Named.{spelling};
ghost use Rattle.tables.specs.Pieces.{left};
ghost use Rattle.scripts.specs.Headings.{HasherAs, HasherNamed, HeadingAs, KindTo, kind_word};
ghost use Rattle.scripts.specs.Parts.{WordAs};
ghost use Rattle.scripts.specs.Readings.{Reads};
ghost use Rattle.scripts.specs.Scripts.{limit_of};
ghost use Rattle.scripts.specs.Spellings.{hasher-same, kind-same};

use crate::fault::{Expected, ScriptFault, UnknownWord};
use crate::label::{Label, read_label, read_labelled};
use crate::named::{Named, read_named};
use crate::pieces::read_end;
use hashing::named::HasherName;
use std::str::FromStr;
use tables::line::Line;
use tables::pieces::Pieces;

// What the entries are.
#[derive(Clone, Copy, Debug, PartialEq, Eq)]
pub enum Kind {
    Rules,
    Names,
}

impl Kind {
    // The largest unit of an entry.
    pub(crate) fn limit(self) -> u32
        ensures { result ≡ limit_of self }
    {
        match self {
            Kind::Rules => u32::MAX,
            Kind::Names => u32::from(u8::MAX),
        }
    }
}

impl FromStr for Kind {
    type Err = UnknownWord;

    ghost from_str_gives = { WordAs kind_word };

    fn from_str(text: &str) -> Result<Kind, UnknownWord> {
        // Kept: a search of a list of both by their words takes the same arms, turned round, and the list beside.
        match text {
            "rules" => Ok(Kind::Rules),
            "names" => Ok(Kind::Names),
            _ => Err(UnknownWord),
        }
    }
}

impl Named for Kind {
    ghost spelling = { kind_word };

    fn expected() -> Expected {
        Expected::Kind
    }

    ghost apart = { kind-same };

    ghost reads = { λ bs r h. h };
}

impl Named for HasherName {
    ghost spelling = { spelling };

    fn expected() -> Expected {
        Expected::HasherName
    }

    ghost apart = { hasher-same };

    ghost reads = { λ bs r h. h };
}

// The slots for entries, the units of them all, and the hasher.
#[derive(Clone, Copy, Debug)]
pub struct Heading {
    pub slots: usize,
    pub units: usize,
    pub hasher: HasherName,
}

// The heading that a line is.
pub fn read_heading(line: Line, text: &str) -> Result<(Kind, Heading), ScriptFault>
    ensures { Reads line.number (λ x. x) (HeadingAs text.now) result }
{
    let mut pieces = Pieces::new(text);
    let kind = read_kind(line, &mut pieces)?;
    let slots = read_labelled(line, &mut pieces, Label::Slots)?;
    let units = read_labelled(line, &mut pieces, Label::Units)?;
    let hasher = read_hasher(line, pieces)?;
    Ok((
        kind,
        Heading {
            slots,
            units,
            hasher,
        },
    ))
}

// The kind after `catalogue`.
fn read_kind(line: Line, pieces: &mut Pieces<'_>) -> Result<Kind, ScriptFault>
    ensures { Reads line.number (λ k. (k, left pieces.new)) (KindTo (left pieces.old)) result }
{
    read_label(line, pieces, Label::Catalogue)?;
    read_named(line, pieces)
}

// The hasher at the end of a heading, the rotating one where none stands there.
fn read_hasher(line: Line, mut pieces: Pieces<'_>) -> Result<HasherName, ScriptFault>
    ensures { Reads line.number (λ x. x) (HasherAs (left pieces.entry)) result }
{
    let mut ahead = pieces;
    if ahead.next().is_none() {
        return Ok(HasherName::Rotating);
    }
    read_label(line, &mut pieces, Label::Hasher)?;
    read_hasher_name(line, pieces)
}

// The hasher whose name is all that the pieces are.
fn read_hasher_name(line: Line, mut pieces: Pieces<'_>) -> Result<HasherName, ScriptFault>
    ensures { Reads line.number (λ x. x) (HasherNamed (left pieces.entry)) result }
{
    let hasher = read_named(line, &mut pieces)?;
    read_end(line, pieces)?;
    Ok(hasher)
}
