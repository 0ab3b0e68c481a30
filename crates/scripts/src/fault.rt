// What is wrong with the text of a script, and at which line.
ghost use Rattle.std.specs.Prelude.{◌≡◌, Some};
ghost use Rattle.scripts.specs.Readings.{Faulted, line_of};
ghost use Rattle.scripts.specs.declared.fault.ScriptFault.TheVariants.{Memory, NotUtf8};

use std::alloc::{AllocError, AllocFailed};
use std::error::Error;
use std::fmt;
use tables::fault::{BadUtf8, shown};
use tables::line::Line;

// What the text should have had in place of what was found.
#[derive(Clone, Copy, Debug, PartialEq, Eq)]
pub enum Expected {
    Heading,
    Kind,
    Slots,
    Units,
    Hasher,
    HasherName,
    Call,
    Number,
    Byte,
    End,
}

#[derive(Debug, Drop)]
pub enum ScriptFault {
    Unexpected {
        line: usize,
        expected: Expected,
        // `None` where the line ends.
        found: Option<String>,
    },
    NoHeading,
    NotUtf8 {
        line: usize,
    },
    Memory,
}

// A text is none of the words that name something.
#[derive(Clone, Copy, Debug, PartialEq, Eq)]
pub struct UnknownWord;

impl From<BadUtf8> for ScriptFault {
    ghost from_gives = { λ e r. r ≡ NotUtf8 e.line };

    fn from(e: BadUtf8) -> ScriptFault {
        ScriptFault::NotUtf8 { line: e.line }
    }
}

// Kept: `?` asks for an impl for each error that it converts, here and for the fault of a table. One macro for both is
// refused, since no impl may come of a macro of the repository, and the `From` that `thiserror` derives has no contract.
impl From<AllocError> for ScriptFault {
    ghost from_gives = { λ _ r. r ≡ Memory };

    fn from(_e: AllocError) -> ScriptFault {
        ScriptFault::Memory
    }
}

impl<T: Drop> From<AllocFailed<T>> for ScriptFault {
    ghost from_gives = { λ _ r. r ≡ Memory };

    fn from(_e: AllocFailed<T>) -> ScriptFault {
        ScriptFault::Memory
    }
}

impl ScriptFault {
    // A line has this text in place of what was expected.
    pub(crate) fn found(line: Line, expected: Expected, text: &str) -> ScriptFault
        ensures { Faulted line.number result }
    {
        shown(line.heap, text).map_or(
            ScriptFault::Memory,
            |found| ScriptFault::Unexpected {
                line: line.number,
                expected,
                found: Some(found),
            },
        )
    }

    // A line ends before what was expected.
    pub(crate) fn missing(line: Line, expected: Expected) -> ScriptFault
        ensures { line_of result ≡ Some line.number }
    {
        ScriptFault::Unexpected {
            line: line.number,
            expected,
            found: None,
        }
    }

    // The line that the fault stands at, counted from 1.
    pub fn line(&self) -> Option<usize>
        ensures { result ≡ line_of self.now }
    {
        match self {
            ScriptFault::Unexpected { line, .. } | ScriptFault::NotUtf8 { line } => Some(*line),
            ScriptFault::NoHeading | ScriptFault::Memory => None,
        }
    }
}

impl fmt::Display for Expected {
    fn fmt<W: fmt::Write>(&self, f: &mut fmt::Formatter<W>) -> fmt::Result {
        f.write_str(match self {
            Expected::Heading => "\"catalogue rules\" or \"catalogue names\"",
            Expected::Kind => "\"rules\" or \"names\"",
            Expected::Slots => "\"slots\"",
            Expected::Units => "\"units\"",
            Expected::Hasher => "\"hasher\"",
            Expected::HasherName => "the name of a hasher (rotating or fnv1a)",
            Expected::Call => "a call (enter, find, cut, count, class, hash or run)",
            Expected::Number => "a number from 0 to 4294967295",
            Expected::Byte => "a byte, at most 255",
            Expected::End => "the end of the line",
        })
    }
}

impl fmt::Display for ScriptFault {
    fn fmt<W: fmt::Write>(&self, f: &mut fmt::Formatter<W>) -> fmt::Result {
        match self {
            ScriptFault::Unexpected {
                line,
                expected,
                found,
            } => match found {
                Some(found) => write!(f, "line {line}: expected {expected}, found {found:?}"),
                None => write!(
                    f,
                    "line {line}: expected {expected}, found the end of the line"
                ),
            },
            ScriptFault::NoHeading => f.write_str(
                "expected a heading \"catalogue rules\" or \"catalogue names\", found the end of the text",
            ),
            ScriptFault::NotUtf8 { line } => write!(f, "line {line}: expected UTF-8 text"),
            ScriptFault::Memory => f.write_str("out of memory"),
        }
    }
}

impl fmt::Display for UnknownWord {
    fn fmt<W: fmt::Write>(&self, f: &mut fmt::Formatter<W>) -> fmt::Result {
        f.write_str("the text names nothing that a script has")
    }
}

impl Error for UnknownWord {}
