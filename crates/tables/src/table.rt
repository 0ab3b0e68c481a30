// A table, line by line.
ghost use Rattle.std.specs.Prelude.{◌≡◌, ◌≤◌, length, take, IsUtf8};
ghost use Rattle.tables.specs.Rules.{lines, BytesAs, KeepsTables, NotedAs, TableAs, TextAs};

use crate::fault::{BadUtf8, TableFault, shown};
use crate::line::{Entry, Line, read_line};
use std::alloc::Global;
use std::collections::BTreeMap;
use std::str::from_utf8;

// The rules of a table that is given as bytes.
pub fn read_bytes(heap: Global, bytes: &[u8]) -> Result<Vec<Entry>, TableFault>
    ensures reads { BytesAs bytes.now result }
    ensures keeps { IsUtf8 bytes.now → KeepsTables bytes.now result }
{
    read_table(heap, text_of(bytes)?)
}

// The text that bytes are.
pub fn text_of(bytes: &[u8]) -> Result<&str, BadUtf8>
    ensures { TextAs bytes.now result }
{
    from_utf8(bytes).map_err(|e| BadUtf8 {
        line: line_of(bytes, e.valid_up_to()),
    })
}

// The line that the byte at `at` stands at, counted from 1.
fn line_of(bytes: &[u8], at: usize) -> usize
    requires { at ≤ length bytes.now }
    ensures { result ≡ length (lines (take at bytes.now)) }
{
    bytes[..at].iter().filter(|b| **b == b'\n').count() + 1
}

// The rules of a table, in the order of its lines.
pub fn read_table(heap: Global, text: &str) -> Result<Vec<Entry>, TableFault>
    ensures reads { TableAs text.now result }
    ensures keeps { KeepsTables text.now result }
{
    let mut entries = Vec::new(heap);
    let mut seen = BTreeMap::new(heap);
    // Kept: `str::lines` takes the return off each line but a last one that no line feed ends, so of two returns at the end
    // of a line none would be left, and without `before_return` the last line would keep its one.
    for (i, row) in text.split('\n').enumerate() {
        let line = Line {
            heap,
            number: i + 1,
        };
        if let Some(entry) = read_line(line, row)? {
            note_name(heap, &mut seen, &entry)?;
            entries.push(entry)?;
        }
    }
    Ok(entries)
}

// Notes at which line a name stands, and refuses one that stood before.
fn note_name(
    heap: Global,
    seen: &mut BTreeMap<String, usize>,
    entry: &Entry,
) -> Result<(), TableFault>
    ensures { NotedAs seen.old seen.new entry.now result }
{
    let name = entry.name.as_str();
    let line = entry.line;
    // Kept: looked up before it is copied. `insert` asks for the copy first, and where a long name stands twice the fault
    // may be want of memory.
    if let Some(before) = seen.get(name).copied() {
        let name = shown(heap, name)?;
        return Err(TableFault::NameTwice { line, name, before });
    }
    seen.insert(String::from_str(heap, name)?, line)?;
    Ok(())
}
