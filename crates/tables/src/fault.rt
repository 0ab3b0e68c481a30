// What is wrong with the text of a table, and at which line.
ghost use Rattle.std.specs.Prelude.{◌≡◌, IfOk, string_bytes};
ghost use Rattle.tables.specs.Lines.{Shown, line_of};
ghost use Rattle.tables.specs.declared.fault.TableFault.TheVariants.{Memory, NotUtf8};

use crate::word::WordFault;
use std::alloc::{AllocError, AllocFailed, Global};
use std::fmt;

#[derive(Debug, Drop)]
pub enum TableFault {
    NoColon {
        line: usize,
    },
    NoName {
        line: usize,
    },
    NameTwice {
        line: usize,
        name: String,
        before: usize,
    },
    NotAWord {
        line: usize,
        found: String,
        fault: WordFault,
    },
    NotUtf8 {
        line: usize,
    },
    Memory,
}

// The line of the first byte that is no text, counted from 1.
#[derive(Clone, Copy, Debug, PartialEq, Eq)]
pub struct BadUtf8 {
    pub line: usize,
}

impl From<BadUtf8> for TableFault {
    ghost from_gives = { λ e r. r ≡ NotUtf8 e.line };

    fn from(e: BadUtf8) -> TableFault {
        TableFault::NotUtf8 { line: e.line }
    }
}

// Kept: `?` asks for an impl for each error that it converts, here and for the fault of a script. One macro for both is
// refused, since no impl may come of a macro of the repository, and the `From` that `thiserror` derives has no contract.
impl From<AllocError> for TableFault {
    ghost from_gives = { λ _ r. r ≡ Memory };

    fn from(_e: AllocError) -> TableFault {
        TableFault::Memory
    }
}

impl<T: Drop> From<AllocFailed<T>> for TableFault {
    ghost from_gives = { λ _ r. r ≡ Memory };

    fn from(_e: AllocFailed<T>) -> TableFault {
        TableFault::Memory
    }
}

impl TableFault {
    // The line that the fault stands at, counted from 1.
    pub fn line(&self) -> Option<usize>
        ensures { result ≡ line_of self.now }
    {
        match self {
            TableFault::NoColon { line }
            | TableFault::NoName { line }
            | TableFault::NameTwice { line, .. }
            | TableFault::NotAWord { line, .. }
            | TableFault::NotUtf8 { line } => Some(*line),
            TableFault::Memory => None,
        }
    }
}

impl fmt::Display for TableFault {
    fn fmt<W: fmt::Write>(&self, f: &mut fmt::Formatter<W>) -> fmt::Result {
        match self {
            TableFault::NoColon { .. } => f.write_str("expected a colon after the name of a rule"),
            TableFault::NoName { .. } => f.write_str("expected a name before the colon"),
            TableFault::NameTwice { name, before, .. } => {
                write!(
                    f,
                    "expected a new name, found {name:?}, which stands at line {before}"
                )
            }
            TableFault::NotAWord { found, .. } => {
                write!(f, "expected a number from 0 to 4294967295, found {found:?}")
            }
            TableFault::NotUtf8 { .. } => f.write_str("expected UTF-8 text"),
            TableFault::Memory => f.write_str("out of memory"),
        }
    }
}

// The most bytes of a word or a name that a fault shows.
const SHOWN: usize = 40;

// A text as a fault shows it: whole where it is short, and else its front with three dots.
pub fn shown(heap: Global, text: &str) -> Result<String, AllocError>
    ensures { IfOk result (λ s. Shown text.now (string_bytes s)) }
{
    if text.len() <= SHOWN {
        return String::from_str(heap, text);
    }
    let (front, _) = text.split_at(text.floor_char_boundary(SHOWN));
    let mut cut = String::from_str(heap, front)?;
    cut.push_str("...")?;
    Ok(cut)
}
