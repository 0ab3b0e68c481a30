// What is wrong with the arguments.
ghost use Rattle.std.specs.Prelude.{Some};
ghost use Rattle.arguments.specs.Texts.{said, text_of};

use std::error::Error;
use std::fmt;

#[derive(Clone, Copy, Debug, PartialEq, Eq)]
pub enum Expected {
    Command,
    Table,
    Script,
    Names,
    NewTable,
    // besides standard input, which can be read only once
    File,
    Hasher,
    NoMore,
}

#[derive(Clone, Copy, Debug, PartialEq, Eq)]
pub enum Misuse<'a> {
    // the arguments end where this is expected
    Missing(Expected),
    // this stands where something else is expected
    Other(Expected, &'a str),
}

impl fmt::Display for Expected {
    ghost output = { λ e. Some (text_of e) };

    fn fmt<W: fmt::Write>(&self, f: &mut fmt::Formatter<W>) -> fmt::Result {
        f.write_str(match self {
            Expected::Command => "a command",
            Expected::Table => "a table after the command",
            Expected::Script => "a script after the command",
            Expected::Names => "two names of rules after the table",
            Expected::NewTable => "a new table after the old one",
            Expected::File => "standard input for at most one table",
            Expected::Hasher => "rotating or fnv1a after --hasher",
            Expected::NoMore => "no more arguments",
        })
    }
}

impl<'a> fmt::Display for Misuse<'a> {
    ghost output = { said };

    fn fmt<W: fmt::Write>(&self, f: &mut fmt::Formatter<W>) -> fmt::Result {
        match self {
            Misuse::Missing(expected) => write!(f, "expected {expected}"),
            Misuse::Other(expected @ Expected::File, _) => {
                write!(f, "expected {expected}, found - twice")
            }
            Misuse::Other(expected, found) => write!(f, "expected {expected}, found {found:?}"),
        }
    }
}

impl<'a> Error for Misuse<'a> {}
