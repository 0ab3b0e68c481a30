// Calls and answers as values.

/// What is called or asked.
#[derive(Clone, Copy)]
pub enum Call {
    Enter(&'static [u8]),
    Find(&'static [u8]),
    Cut(usize),
    // how many entries stand, and how many classes they have
    Counts,
    // whether the entry of this number has this run
    Entry(usize, &'static [u8]),
    // an entry, where so many slots and so many units are handed
    Told(usize, usize, usize),
}

/// What is answered.
#[derive(Clone, Copy, PartialEq, Eq, Debug)]
pub enum Answer {
    // the number and the class
    Entered(usize, usize),
    // the first entry that is the same, or that there is none
    Found(Option<usize>),
    Cut,
    Counts(usize, usize),
    // the entry has that run, and its hash, and is of this class
    Class(usize),
    // it has another run or another hash; or the call is none of the model's
    Other,
    // Kept: numbers here and below. The values of the tests are the numbers that are listed, and the fault that has one is
    // another type for each call.
    // the fault's number, or 0, where the class, the hash and the run are asked for
    Told(u8, u8, u8),
    Refused(u8),
}
