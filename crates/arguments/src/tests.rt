// What arguments are read as, and what is said where they are wrong.
use crate::command::parse_args;
use crate::judging::{self, HELP, WithHelp};
use std::alloc::{AllocError, Global};
use std::fmt;
use std::process::Abort;
use std::test::Fail;

fn words(heap: Global, line: &str) -> Result<Vec<String>, AllocError> {
    line.split_whitespace()
        .map(|word| String::from_str(heap, word))
        .try_collect(heap)
}

// What was read prints as expected, and what is wrong with `help` behind it.
fn prints<R: Abort + AllocGlobal, C: fmt::Debug, M: fmt::Display>(
    rt: &R,
    read: &Result<C, M>,
    expected: &str,
    help: &str,
) -> Result<(), Fail> {
    let heap = rt.alloc();
    match read {
        Ok(command) => {
            assert_eq!(rt; format!(in heap; "{command:?}")?.as_str(), expected);
            Ok(())
        },
        Err(misuse) => {
            let expected = format!(in heap; "{expected}{help}")?;
            assert_eq!(rt; format!(in heap; "{misuse}")?.as_str(), expected.as_str());
            Ok(())
        },
    }
}

fn reads<R: Abort + AllocGlobal>(rt: &R, line: &str, expected: &str) -> Result<(), Fail> {
    let args = words(rt.alloc(), line)?;
    prints(rt, &parse_args(args.as_slice()), expected, "")
}

#[test]
fn reads_commands(rt: HostRuntime) -> Result<(), Fail> {
    reads(&rt, "", "Help")?;
    reads(&rt, "judge", "Help")?;
    reads(&rt, "judge help", "Help")?;
    reads(&rt, "judge --help", "Help")?;
    reads(&rt, "judge check t", "Check(\"t\")")?;
    reads(&rt, "judge replay s", "Replay(\"s\")")?;
    reads(
        &rt,
        "judge compare t a b",
        "Compare(Compared { table: \"t\", first: \"a\", second: \"b\" })",
    )?;
    reads(
        &rt,
        "judge change - new",
        "Change(Changed { old: \"-\", new: \"new\" })",
    )?;
    reads(
        &rt,
        "judge change old -",
        "Change(Changed { old: \"old\", new: \"-\" })",
    )
}

#[test]
fn reads_hashers(rt: HostRuntime) -> Result<(), Fail> {
    let rotating = "Hash(Hashed { table: \"t\", hasher: Rotating })";
    let fnv1a = "Hash(Hashed { table: \"t\", hasher: Fnv1a })";
    reads(&rt, "judge hash t", rotating)?;
    reads(&rt, "judge hash t --hasher rotating", rotating)?;
    reads(&rt, "judge hash t --hasher fnv1a", fnv1a)?;
    reads(&rt, "judge hash --hasher fnv1a t", fnv1a)?;
    reads(
        &rt,
        "judge classes --hasher rotating t",
        "Classes(Hashed { table: \"t\", hasher: Rotating })",
    )?;
    reads(
        &rt,
        "judge classes t --hasher fnv1a",
        "Classes(Hashed { table: \"t\", hasher: Fnv1a })",
    )
}

#[test]
fn says_what_is_missing(rt: HostRuntime) -> Result<(), Fail> {
    let table = "expected a table after the command";
    let names = "expected two names of rules after the table";
    let hasher = "expected rotating or fnv1a after --hasher";
    reads(&rt, "judge check", table)?;
    reads(&rt, "judge replay", "expected a script after the command")?;
    reads(&rt, "judge compare", table)?;
    reads(&rt, "judge compare t", names)?;
    reads(&rt, "judge compare t a", names)?;
    reads(&rt, "judge change", table)?;
    reads(
        &rt,
        "judge change t",
        "expected a new table after the old one",
    )?;
    reads(&rt, "judge hash", table)?;
    reads(&rt, "judge hash --hasher", hasher)?;
    reads(&rt, "judge hash --hasher fnv1a", table)?;
    reads(&rt, "judge classes t --hasher", hasher)
}

#[test]
fn says_what_is_found(rt: HostRuntime) -> Result<(), Fail> {
    let more = "expected no more arguments, found \"x\"";
    let unknown = "expected rotating or fnv1a after --hasher, found \"md5\"";
    reads(&rt, "judge weigh", "expected a command, found \"weigh\"")?;
    reads(&rt, "judge help x", more)?;
    reads(&rt, "judge check t x", more)?;
    reads(&rt, "judge compare t a b x", more)?;
    reads(&rt, "judge change a b x", more)?;
    reads(
        &rt,
        "judge change - -",
        "expected standard input for at most one table, found - twice",
    )?;
    reads(&rt, "judge hash t x", more)?;
    reads(&rt, "judge hash t --hasher fnv1a x", more)?;
    reads(&rt, "judge hash --hasher fnv1a t x", more)?;
    reads(&rt, "judge hash --hasher md5 t", unknown)?;
    reads(&rt, "judge classes t --hasher md5", unknown)
}

// As `reads`, of the commands that judge rules alone: there the help follows what is wrong.
fn judges<R: Abort + AllocGlobal>(rt: &R, line: &str, expected: &str) -> Result<(), Fail> {
    let args = words(rt.alloc(), line)?;
    let help = format!(in rt.alloc(); "\n{HELP}")?;
    prints(
        rt,
        &judging::parse_args(args.as_slice()).map_err(WithHelp),
        expected,
        help.as_str(),
    )
}

#[test]
fn reads_commands_that_judge(rt: HostRuntime) -> Result<(), Fail> {
    let table = "expected a table after the command";
    let names = "expected two names of rules after the table";
    let more = "expected no more arguments, found \"x\"";
    judges(&rt, "", "Help")?;
    judges(&rt, "judge", "Help")?;
    judges(&rt, "judge help", "Help")?;
    judges(&rt, "judge --help", "Help")?;
    judges(&rt, "judge help x", more)?;
    judges(&rt, "judge --help x", more)?;
    judges(&rt, "judge check t", "Check(\"t\")")?;
    judges(&rt, "judge check", table)?;
    judges(&rt, "judge check t x", more)?;
    judges(
        &rt,
        "judge compare t a b",
        "Compare(Compared { table: \"t\", first: \"a\", second: \"b\" })",
    )?;
    judges(&rt, "judge compare", table)?;
    judges(&rt, "judge compare t", names)?;
    judges(&rt, "judge compare t a", names)?;
    judges(&rt, "judge compare t a b x", more)?;
    judges(
        &rt,
        "judge change - new",
        "Change(Changed { old: \"-\", new: \"new\" })",
    )?;
    judges(
        &rt,
        "judge change old -",
        "Change(Changed { old: \"old\", new: \"-\" })",
    )?;
    judges(&rt, "judge change", table)?;
    judges(
        &rt,
        "judge change t",
        "expected a new table after the old one",
    )?;
    judges(
        &rt,
        "judge change - -",
        "expected standard input for at most one table, found - twice",
    )?;
    judges(&rt, "judge change a b x", more)?;
    judges(&rt, "judge hash t", "expected a command, found \"hash\"")
}
