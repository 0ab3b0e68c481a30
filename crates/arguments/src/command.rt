// The commands.
ghost use Rattle.arguments.specs.Commands.{ParsedAs};

use crate::files::{Changed, Compared, one_file};
use crate::hashed::{Hashed, table_and_hasher};
use crate::judging;
use crate::misuse::{Expected, Misuse};

pub const HELP: &str = "\
usage: judge COMMAND

  check TABLE               say of each rule of a table whether it is accepted
  compare TABLE NAME NAME   say whether two rules of a table are the same,
                            and which locals are one another's partners
  change OLD NEW            say of each rule of two tables whether it is kept,
                            is to be converted, is gone, is new or is refused
  hash TABLE                show the hash of each rule of a table
  classes TABLE             enter the rules of a table into a catalogue, and show
                            the entry, the class and the hash of each
  replay SCRIPT             perform the calls of a script on a catalogue, and
                            show the answer of each
  help                      show this text

TABLE, OLD, NEW and SCRIPT are files, or - for standard input, at most one of
them.
With hash and classes, --hasher rotating or --hasher fnv1a names the hasher; it
is rotating where none is named.";

#[derive(Clone, Copy, Debug, PartialEq, Eq)]
pub enum Command<'a> {
    Help,
    Check(&'a str),
    Compare(Compared<'a>),
    Change(Changed<'a>),
    Hash(Hashed<'a>),
    Classes(Hashed<'a>),
    Replay(&'a str),
}

// The first of the arguments is the program's own name. What is neither of hashes nor of a catalogue is read as by the commands that judge rules.
#[tactic(auto, using(crate::proofs::Tails::tail_is))]
pub fn parse_args(args: &[String]) -> Result<Command<'_>, Misuse<'_>>
    ensures { ParsedAs args.now result }
{
    let [_, word, rest @ ..] = args else {
        return judging::parse_args(args);
    };
    match word.as_str() {
        "hash" => Ok(Command::Hash(table_and_hasher(rest)?)),
        "classes" => Ok(Command::Classes(table_and_hasher(rest)?)),
        "replay" => Ok(Command::Replay(one_file(rest, Expected::Script)?)),
        _ => judging::parse_args(args),
    }
}
