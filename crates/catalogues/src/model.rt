// What a catalogue of names should answer, by the runs that stand alone: a linear search by equality.
ghost use Rattle.std.specs.Prelude.{◌≡◌, ℕ, ◌<◌, length, min, IfErr, OnOk};
ghost use Rattle.catalogue.specs.Classes.{Begun, ClassOf, FirstSame, entry};
ghost use Rattle.catalogue.specs.Kinds.{FirstOf, SoundBy};
ghost use Rattle.catalogue.specs.Model.{total};
ghost use Rattle.catalogues.specs.Naive.{CallAnswered, CallTried, CutAnswered, EnterTried, FindAnswered, Modest, names, runs_of};
ghost use Rattle.kinds.specs.Names.{meets_name};
ghost use Rattle.kinds.specs.Numbers.{name_number};

use crate::words::{Answer, Call};
use catalogue::fault::{Fault, NotStanding, Numbered};
use kinds::names::NameFault;
use std::alloc::AllocError;

/// The runs that stand, and how many slots and units there are.
#[derive(Drop)]
pub struct Model {
    pub runs: Vec<&'static [u8]>,
    pub slots: usize,
    pub units: usize,
}

impl Model {
    /// It answers `Other` too where there is no memory for a run that is to be entered.
    pub fn answer(&mut self, call: Call) -> Answer
        ensures { CallAnswered self.old call result self.new }
    {
        self.try_answer(call).unwrap_or(Answer::Other)
    }

    /// It fails for want of memory for a run that is to be entered only.
    pub fn try_answer(&mut self, call: Call) -> Result<Answer, AllocError>
        ensures { CallTried self.old call result self.new }
    {
        match call {
            Call::Enter(run) => self.enter(run),
            Call::Find(run) => Ok(self.find(run)),
            Call::Cut(keep) => Ok(self.cut(keep)),
            _ => Ok(Answer::Other),
        }
    }

    fn enter(&mut self, run: &'static [u8]) -> Result<Answer, AllocError>
        ensures { Modest self.old → EnterTried self.old run.now result self.new }
    {
        let number = self.runs.len();
        if let Err(fault) = tested(run) {
            return Ok(Answer::Refused(fault.number()));
        }
        if number >= self.slots {
            return Ok(Answer::Refused(Fault::<NameFault>::NoSlot.number()));
        }
        if self.used().saturating_add(run.len()) > self.units {
            return Ok(Answer::Refused(Fault::<NameFault>::NoUnits.number()));
        }
        self.runs.push(run)?;
        Ok(Answer::Entered(number, self.class(run)))
    }

    fn find(&self, run: &'static [u8]) -> Answer
        ensures { FindAnswered self.now run.now result }
    {
        if let Err(fault) = tested(run) {
            return Answer::Refused(fault.number());
        }
        Answer::Found(self.first(run))
    }

    fn cut(&mut self, keep: usize) -> Answer
        ensures { CutAnswered self.old keep result self.new }
    {
        if keep > self.runs.len() {
            return Answer::Refused(NotStanding.number());
        }
        self.runs.truncate(keep);
        Answer::Cut
    }

    // How many classes began before the first entry that is equal.
    pub fn class(&self, run: &[u8]) -> usize
        ensures entered { let rs = runs_of self.now in (i : ℕ) → i < length rs → entry rs i ≡ run.now → ClassOf names rs i result }
        ensures absent { FirstSame names (runs_of self.now) run.now None → result ≡ 0 }
    {
        self.first(run).map_or(0, |first| self.begun(first))
    }

    // How many of the first n entries begin a class.
    pub fn begun(&self, n: usize) -> usize
        ensures { let rs = runs_of self.now in Begun names rs (min n (length rs)) result }
    {
        // Kept: tried `filter` and `count`; what `first` answers is a relation, and a chain is counted by a function.
        let mut begun = 0usize;
        for (i, run) in self.runs.iter().enumerate() {
            if i < n && self.first(*run) == Some(i) {
                begun = begun.saturating_add(1);
            }
        }
        begun
    }

    // The first entry that is equal.
    fn first(&self, run: &[u8]) -> Option<usize>
        ensures { FirstSame names (runs_of self.now) run.now result }
    {
        self.runs.iter().position(|stored| *stored == run)
    }

    // How many bytes the runs have, or the highest number.
    fn used(&self) -> usize
        ensures { result ≡ min (total (runs_of self.now)) usize.MAX }
    {
        self.runs
            .iter()
            .fold(0, |used, run| used.saturating_add(run.len()))
    }
}

/// The fault of the first number of the names' input list that the run meets.
// Kept: no call of the kind's own intake, since the model is to share no test with what is held against it; the faults and
// their numbers it shares.
pub fn tested(run: &[u8]) -> Result<(), NameFault>
    ensures sound { OnOk result (SoundBy meets_name run.now) }
    ensures first { IfErr result (λ e. FirstOf meets_name run.now (name_number e)) }
{
    if run.len() > 255 {
        return Err(NameFault::TooLong);
    }
    if run.is_empty() {
        return Err(NameFault::Empty);
    }
    Ok(())
}
