// judge: says of each rule of a table whether it can be judged, of two rules whether they are the same, and of each rule what
// becomes of it in a change of tables; shows the hashes and classes of rules; and replays the calls of a script on a catalogue.

#![tactic(auto)]

use arguments::command;
use arguments::command::{Command, parse_args};
use source::Trouble;
use std::process::ExitCode;
use std::{env, fmt};

mod change;
mod check;
mod classing;
mod compare;
mod hash;
mod hashers;
mod place;
mod replay;
mod source;

fn main(rt: HostRuntime) -> ExitCode {
    let Ok(args) = env::args(&rt) else {
        return fail(&rt, "expected arguments that are UTF-8 text");
    };
    let Ok(args) = args.collect::<Vec<String>>(rt.alloc()) else {
        return fail(&rt, "out of memory");
    };
    match parse_args(args.as_slice()) {
        Ok(command) => match perform(&rt, command) {
            Ok(()) => ExitCode::SUCCESS,
            Err(trouble) => fail(&rt, &trouble),
        },
        Err(misuse) => {
            let _ = rt.eprintln(&misuse);
            fail(&rt, command::HELP)
        }
    }
}

fn perform<'a>(rt: &HostRuntime, command: Command<'a>) -> Result<(), Trouble<'a>> {
    match command {
        Command::Help => {
            rt.println(command::HELP)?;
            Ok(())
        }
        Command::Check(table) => check::check(rt, table),
        Command::Compare(asked) => compare::compare(rt, asked),
        Command::Change(asked) => change::change(rt, asked),
        Command::Hash(asked) => hash::hash(rt, asked),
        Command::Classes(asked) => classing::classes(rt, asked),
        Command::Replay(script) => replay::replay(rt, script),
    }
}

// Says on standard error what went wrong.
fn fail<D: fmt::Display + Drop>(rt: &HostRuntime, what: D) -> ExitCode {
    let _ = rt.eprintln(what);
    ExitCode::FAILURE
}
