// What becomes of each rule where one table takes the place of another.
ghost use Rattle.std.specs.Prelude.{IfOk};
ghost use Rattle.verdicts.specs.Censuses.{CensusOf, outcomes_of};
ghost use Rattle.verdicts.specs.Surveys.{NewLine, OldLine, OldLines, SurveyOf, WithNew};

use crate::census::Census;
use crate::names::Names;
use crate::outcome::{Outcome, Side};
use std::alloc::{AllocError, Global};
use std::fmt;
use tables::line::Entry;

// The name of a rule, and what becomes of it.
#[derive(Clone, Copy)]
pub struct Line<'a> {
    pub name: &'a str,
    pub outcome: Outcome,
}

impl<'a> fmt::Display for Line<'a> {
    fn fmt<W: fmt::Write>(&self, f: &mut fmt::Formatter<W>) -> fmt::Result {
        write!(f, "{}: {}", self.name, self.outcome)
    }
}

#[derive(Drop)]
pub struct Survey<'a> {
    pub lines: Vec<Line<'a>>,
    pub census: Census,
}

impl<'a> Survey<'a> {
    // A line for each rule of the old table, then one for each rule of the new table whose name the old one lacks.
    pub fn of(heap: Global, old: &'a [Entry], new: &'a [Entry]) -> Result<Survey<'a>, AllocError>
        ensures lines { IfOk result (λ survey. SurveyOf old.now new.now survey.lines.items) }
        ensures census { IfOk result (λ survey. CensusOf (outcomes_of survey.lines.items) survey.census) }
    {
        let lines = old_lines(heap, old, &Names::of(heap, new)?)?;
        let lines = with_new_lines(lines, &Names::of(heap, old)?, new)?;
        let census = Census::of_lines(lines.as_slice());
        Ok(Survey { lines, census })
    }
}

fn old_lines<'a>(
    heap: Global,
    old: &'a [Entry],
    new: &Names<'_>,
) -> Result<Vec<Line<'a>>, AllocError>
    ensures { IfOk result (λ ls. OldLines new.now old.now ls.items) }
{
    old.iter().map(|entry| old_line(entry, new)).collect(heap)
}

// The line of a rule of the old table.
fn old_line<'a>(entry: &'a Entry, new: &Names<'_>) -> Line<'a>
    ensures { OldLine new.now entry.now result }
{
    let name = entry.name.as_str();
    let words = entry.words.as_slice();
    let outcome = match new.get(name) {
        Some(other) => Outcome::judged(words, other.words.as_slice()),
        None => Outcome::sole(Side::Old, words),
    };
    Line { name, outcome }
}

fn with_new_lines<'a>(
    mut lines: Vec<Line<'a>>,
    old: &Names<'_>,
    new: &'a [Entry],
) -> Result<Vec<Line<'a>>, AllocError>
    ensures { IfOk result (λ ls. WithNew old.now new.now lines.entry.items ls.items) }
{
    // Kept: `filter` asks for one function of the rule, and which rule of the name `get` gives is a relation.
    for entry in new {
        let name = entry.name.as_str();
        if old.get(name).is_none() {
            lines.push(new_line(entry))?;
        }
    }
    Ok(lines)
}

// The line of a rule that is in the new table alone.
fn new_line(entry: &Entry) -> Line<'_>
    ensures { NewLine entry.now result }
{
    Line {
        name: entry.name.as_str(),
        outcome: Outcome::sole(Side::New, entry.words.as_slice()),
    }
}
