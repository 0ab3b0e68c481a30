// A script, line by line.
ghost use Rattle.tables.specs.Rules.{lines};
ghost use Rattle.scripts.specs.Calls.{told_all};
ghost use Rattle.scripts.specs.Scripts.{LinesAs, ScriptAs, scripted};

use crate::call::{Call, read_call};
use crate::fault::ScriptFault;
use crate::heading::{Heading, Kind, read_heading};
use crate::narrow::narrow_calls;
use std::alloc::Global;
use tables::blanks::is_skipped;
use tables::line::{Line, before_return};
use tables::table::text_of;

#[derive(Debug, Drop)]
pub enum Script {
    Rules(Heading, Vec<Call<u32>>),
    Names(Heading, Vec<Call<u8>>),
}

// The script that bytes are.
pub fn read_script(heap: Global, bytes: &[u8]) -> Result<Script, ScriptFault>
    ensures { ScriptAs bytes.now result }
{
    read_text(heap, text_of(bytes)?)
}

// The script that a text is.
pub fn read_text(heap: Global, text: &str) -> Result<Script, ScriptFault>
    ensures { LinesAs scripted (lines text.now) result }
{
    let (kind, heading, calls) = read_lines(heap, text)?;
    match kind {
        Kind::Rules => Ok(Script::Rules(heading, calls)),
        Kind::Names => Ok(Script::Names(heading, narrow_calls(heap, calls.as_slice())?)),
    }
}

// The heading and the calls of a text.
fn read_lines(heap: Global, text: &str) -> Result<(Kind, Heading, Vec<Call<u32>>), ScriptFault>
    ensures { LinesAs (λ x. ((x.0, x.1), told_all x.2.items)) (lines text.now) result }
{
    let mut headed: Option<(Kind, Heading)> = None;
    let mut calls = Vec::new(heap);
    // Kept: `str::lines` takes the return off each line but a last one that no line feed ends, so of two returns at the end
    // of a line none would be left, and without `before_return` the last line would keep its one.
    for (i, row) in text.split('\n').enumerate() {
        let content = before_return(row);
        if is_skipped(content) {
            continue;
        }
        let line = Line {
            heap,
            number: i + 1,
        };
        match headed {
            None => headed = Some(read_heading(line, content)?),
            Some((kind, _)) => calls.push(read_call(line, content, kind.limit())?)?,
        }
    }
    let (kind, heading) = headed.ok_or(ScriptFault::NoHeading)?;
    Ok((kind, heading, calls))
}
