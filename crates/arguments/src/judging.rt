// What the arguments of the commands that judge rules ask for: help, check, compare and change, and nothing of hashes or catalogues.
ghost use Rattle.std.specs.Prelude.{IfErr};
ghost use Rattle.arguments.specs.Judging.{Answerable, JudgingAs};
ghost use Rattle.arguments.specs.Texts.{said_with_help};

use crate::command::Command;
use crate::files::{alone, one_file, table_and_names, two_tables};
use crate::misuse::{Expected, Misuse};
use std::fmt;

// Kept: lines of `command::HELP` stand here again: no constant is made of another's text, and a macro's pieces would hide the text as it is printed.
pub const HELP: &str = "\
usage: judge COMMAND

  check TABLE               say of each rule of a table whether it is accepted
  compare TABLE NAME NAME   say whether two rules of a table are the same,
                            and which locals are one another's partners
  change OLD NEW            say of each rule of two tables whether it is kept,
                            is to be converted, is gone, is new or is refused
  help                      show this text

TABLE, OLD and NEW are files, or - for standard input, at most one of them.";

// A misuse, and the help below it.
#[derive(Clone, Copy, Debug)]
pub struct WithHelp<'a>(pub Misuse<'a>);

impl<'a> fmt::Display for WithHelp<'a> {
    ghost output = { λ w. said_with_help w.0 };

    fn fmt<W: fmt::Write>(&self, f: &mut fmt::Formatter<W>) -> fmt::Result {
        write!(f, "{}\n{HELP}", self.0)
    }
}

// The first of the arguments is the program's own name.
#[tactic(auto, using(crate::proofs::Tails::tail_is))]
pub fn parse_args(args: &[String]) -> Result<Command<'_>, Misuse<'_>>
    ensures reads { JudgingAs args.now result }
    ensures misuse { IfErr result Answerable }
{
    let [_, word, rest @ ..] = args else {
        return Ok(Command::Help);
    };
    match word.as_str() {
        "help" | "--help" => {
            alone(rest)?;
            Ok(Command::Help)
        }
        "check" => Ok(Command::Check(one_file(rest, Expected::Table)?)),
        "compare" => Ok(Command::Compare(table_and_names(rest)?)),
        "change" => Ok(Command::Change(two_tables(rest)?)),
        other => Err(Misuse::Other(Expected::Command, other)),
    }
}
