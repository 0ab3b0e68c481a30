// Where a table or a script comes from, and what can be wrong with it.
ghost use Rattle.judge.specs.Sources.{NamedBy};

use scripts::fault::ScriptFault;
use scripts::script::{Script, read_script};
use std::alloc::AllocError;
use std::io::Read;
use std::{fmt, fs, io};
use tables::fault::TableFault;
use tables::line::Entry;
use tables::table::read_bytes;

#[derive(Clone, Copy)]
pub enum Source<'a> {
    StandardInput,
    File(&'a str),
}

impl<'a> From<&'a str> for Source<'a> {
    ghost from_gives = { λ name source. NamedBy name.now source };

    fn from(name: &'a str) -> Source<'a> {
        match name {
            "-" => Source::StandardInput,
            file => Source::File(file),
        }
    }
}

impl<'a> fmt::Display for Source<'a> {
    fn fmt<W: fmt::Write>(&self, f: &mut fmt::Formatter<W>) -> fmt::Result {
        f.write_str(match self {
            Source::StandardInput => "standard input",
            Source::File(file) => file,
        })
    }
}

#[derive(Drop)]
pub enum Trouble<'a> {
    Unread {
        source: Source<'a>,
        error: io::Error,
    },
    Faulty {
        source: Source<'a>,
        fault: TableFault,
    },
    Misread {
        source: Source<'a>,
        fault: ScriptFault,
    },
    Unnamed {
        source: Source<'a>,
        name: &'a str,
    },
    Unwritten(io::Error),
    Memory,
}

impl<'a> From<io::Error> for Trouble<'a> {
    fn from(error: io::Error) -> Trouble<'a> {
        Trouble::Unwritten(error)
    }
}

impl<'a> From<AllocError> for Trouble<'a> {
    fn from(_e: AllocError) -> Trouble<'a> {
        Trouble::Memory
    }
}

impl<'a> fmt::Display for Trouble<'a> {
    fn fmt<W: fmt::Write>(&self, f: &mut fmt::Formatter<W>) -> fmt::Result {
        match self {
            Trouble::Unread { source, error } => {
                write!(f, "{source}: expected a file that can be read: {error}")
            }
            Trouble::Faulty { source, fault } => match fault.line() {
                Some(line) => write!(f, "{source}:{line}: {fault}"),
                None => write!(f, "{source}: {fault}"),
            },
            Trouble::Misread { source, fault } => write!(f, "{source}: {fault}"),
            Trouble::Unnamed { source, name } => {
                write!(f, "{source}: expected the name of a rule, found {name:?}")
            }
            Trouble::Unwritten(error) => write!(f, "standard output: {error}"),
            Trouble::Memory => f.write_str("out of memory"),
        }
    }
}

// The rules of a table.
// Kept: `load_script` is alike; the two differ in the parser and in the trouble, which is all that is left.
pub fn load<'a>(rt: &HostRuntime, table: &'a str) -> Result<Vec<Entry>, Trouble<'a>> {
    let source = Source::from(table);
    let bytes = read(rt, source)?;
    read_bytes(rt.alloc(), bytes.as_slice()).map_err(|fault| Trouble::Faulty { source, fault })
}

pub fn load_script<'a>(rt: &HostRuntime, script: &'a str) -> Result<Script, Trouble<'a>> {
    let source = Source::from(script);
    let bytes = read(rt, source)?;
    read_script(rt.alloc(), bytes.as_slice()).map_err(|fault| Trouble::Misread { source, fault })
}

fn read<'a>(rt: &HostRuntime, source: Source<'a>) -> Result<Vec<u8>, Trouble<'a>> {
    bytes_of(rt, source).map_err(|error| Trouble::Unread { source, error })
}

fn bytes_of(rt: &HostRuntime, source: Source<'_>) -> io::Result<Vec<u8>> {
    match source {
        Source::File(file) => fs::read(rt, file),
        Source::StandardInput => {
            let mut bytes = Vec::new(rt.alloc());
            rt.stdin().read_to_end(&mut bytes)?;
            Ok(bytes)
        }
    }
}
