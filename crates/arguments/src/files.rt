// The files after a command, and the names of rules.
ghost use Rattle.arguments.specs.Files.{AloneAs, ChangedAs, ComparedAs, FileAs};

use crate::misuse::{Expected, Misuse};

// A table, and the names of two of its rules.
#[derive(Clone, Copy, Debug, PartialEq, Eq)]
pub struct Compared<'a> {
    pub table: &'a str,
    pub first: &'a str,
    pub second: &'a str,
}

// A table, and the one that takes its place.
#[derive(Clone, Copy, Debug, PartialEq, Eq)]
pub struct Changed<'a> {
    pub old: &'a str,
    pub new: &'a str,
}

pub fn alone(rest: &[String]) -> Result<(), Misuse<'_>>
    ensures { AloneAs rest.now result }
{
    match rest {
        [] => Ok(()),
        [more, ..] => Err(Misuse::Other(Expected::NoMore, more.as_str())),
    }
}

// One file, of which `expected` says what it is.
pub fn one_file(rest: &[String], expected: Expected) -> Result<&str, Misuse<'_>>
    ensures { FileAs expected rest.now result }
{
    match rest {
        [] => Err(Misuse::Missing(expected)),
        [file, more @ ..] => {
            alone(more)?;
            Ok(file.as_str())
        }
    }
}

pub fn table_and_names(rest: &[String]) -> Result<Compared<'_>, Misuse<'_>>
    ensures { ComparedAs rest.now result }
{
    match rest {
        [] => Err(Misuse::Missing(Expected::Table)),
        [_] | [_, _] => Err(Misuse::Missing(Expected::Names)),
        [table, first, second, more @ ..] => {
            alone(more)?;
            Ok(Compared {
                table: table.as_str(),
                first: first.as_str(),
                second: second.as_str(),
            })
        }
    }
}

// Only one of the two may be standard input.
pub fn two_tables(rest: &[String]) -> Result<Changed<'_>, Misuse<'_>>
    ensures { ChangedAs rest.now result }
{
    match rest {
        [] => Err(Misuse::Missing(Expected::Table)),
        [_] => Err(Misuse::Missing(Expected::NewTable)),
        [old, new, more @ ..] => {
            alone(more)?;
            let old = old.as_str();
            let new = new.as_str();
            if old == "-" && new == "-" {
                return Err(Misuse::Other(Expected::File, new));
            }
            Ok(Changed { old, new })
        }
    }
}
