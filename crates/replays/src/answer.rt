// What a call answers.
use catalogue::fault::{Fault, NotStanding, Numbered};
use catalogue::record::Entered;
use std::fmt;

/// The answer of each call, where the kind of entry has the units `U` and refuses runs by an `F`.
#[derive(Drop)]
pub enum Answer<U, F> {
    Enter(Result<Entered, Fault<F>>),
    Find(Result<Option<usize>, F>),
    Cut(Result<(), NotStanding>),
    Count(usize),
    Class(Result<usize, NotStanding>),
    Hash(Result<u64, NotStanding>),
    Run(Result<Vec<U>, NotStanding>),
}

impl<U: fmt::Display, F: Numbered> fmt::Display for Answer<U, F> {
    fn fmt<W: fmt::Write>(&self, f: &mut fmt::Formatter<W>) -> fmt::Result {
        match self {
            Answer::Enter(Ok(Entered { number, class })) => {
                write!(f, "entry {number} class {class}")
            }
            Answer::Find(Ok(Some(number))) => write!(f, "found {number}"),
            Answer::Find(Ok(None)) => f.write_str("none"),
            Answer::Cut(Ok(())) => f.write_str("cut"),
            Answer::Count(count) => write!(f, "count {count}"),
            Answer::Class(Ok(class)) => write!(f, "class {class}"),
            Answer::Hash(Ok(hash)) => write!(f, "hash 0x{hash:016x}"),
            Answer::Run(Ok(units)) => write_run(f, units.as_slice()),
            Answer::Enter(Err(fault)) => write_refused(f, *fault),
            Answer::Find(Err(fault)) => write_refused(f, *fault),
            Answer::Cut(Err(fault))
            | Answer::Class(Err(fault))
            | Answer::Hash(Err(fault))
            | Answer::Run(Err(fault)) => write_refused(f, *fault),
        }
    }
}

fn write_run<W: fmt::Write, U: fmt::Display>(
    f: &mut fmt::Formatter<W>,
    units: &[U],
) -> fmt::Result {
    f.write_str("run")?;
    for unit in units {
        write!(f, " {unit}")?;
    }
    Ok(())
}

fn write_refused<W: fmt::Write, F: Numbered>(f: &mut fmt::Formatter<W>, fault: F) -> fmt::Result {
    let number = fault.number();
    write!(f, "refused {number}")
}
