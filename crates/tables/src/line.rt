// A line of a table.
ghost use Rattle.std.specs.Prelude.{◌≡◌};
ghost use Rattle.tables.specs.Lines.{content, KeepsRules, LineAs, PieceRead, PieceFault, RunAs};

use crate::blanks::{is_skipped, trim_blanks};
use crate::fault::{TableFault, shown};
use crate::pieces::Pieces;
use crate::word::{WordFault, read_word};
use std::alloc::Global;

// A rule as a table has it, and the line that it stands at, counted from 1.
#[derive(Debug, Drop)]
pub struct Entry {
    pub name: String,
    pub words: Vec<u32>,
    pub line: usize,
}

// Where a line stands, counted from 1, and the heap for what is read of it and for its faults.
#[derive(Clone, Copy)]
pub struct Line {
    pub heap: Global,
    pub number: usize,
}

impl Line {
    // The words of a run, which blanks part.
    fn words(self, run: &str) -> Result<Vec<u32>, TableFault>
        ensures { RunAs self.number run.now result }
    {
        Pieces::new(run)
            .map(|piece| self.word(piece))
            .try_collect(self.heap)
    }

    // The word that a piece is.
    fn word(self, piece: &str) -> Result<u32, TableFault>
        ensures { PieceRead self.number piece.now result }
    {
        read_word(piece).map_err(|fault| self.fault(piece, fault))
    }

    // The fault of a piece that is no word.
    fn fault(self, piece: &str, fault: WordFault) -> TableFault
        ensures { PieceFault self.number piece.now fault result }
    {
        let line = self.number;
        shown(self.heap, piece).map_or(
            TableFault::Memory,
            |found| TableFault::NotAWord { line, found, fault },
        )
    }
}

// The rule that a line holds, or `None` at a line that is empty or a comment.
pub fn read_line(line: Line, text: &str) -> Result<Option<Entry>, TableFault>
    ensures reads { LineAs line.number (content text.now) result }
    ensures keeps { KeepsRules line.number (content text.now) result }
{
    let content = before_return(text);
    if is_skipped(content) {
        return Ok(None);
    }
    let (front, run) = content
        .split_once(':')
        .ok_or(TableFault::NoColon { line: line.number })?;
    let name = trim_blanks(front);
    if name.is_empty() {
        return Err(TableFault::NoName { line: line.number });
    }
    let words = line.words(run)?;
    let name = String::from_str(line.heap, name)?;
    Ok(Some(Entry {
        name,
        words,
        line: line.number,
    }))
}

// A line without the carriage return that may end it.
pub fn before_return(text: &str) -> &str
    ensures { result.now ≡ content text.now }
{
    text.strip_suffix('\r').unwrap_or(text)
}
