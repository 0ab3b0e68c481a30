ghost use Rattle.std.specs.Prelude.{◌≡◌, Some};
ghost use Rattle.rule.specs.Faults.{ground_of, number_of};

use std::fmt;

/// Why a run of words is no rule, in the order in which the grounds are tested.
#[derive(Clone, Copy, Debug, PartialEq, Eq)]
pub enum Fault {
    // longer than 8,192 words
    TooLong = 1,
    // empty, or ends inside a node
    CutShort = 2,
    // a code without a row, or a word outside its row
    OutsideRow = 3,
    // a child number not below its node's, or a node before the last that is not a child exactly once
    NotATree = 4,
    // children or root not of the row's classes or count
    WrongClass = 5,
    // a local above 1,023, declared twice, used earlier in the walk than declared,
    // or declared under one operand of a comparison and used outside that operand
    BadScope = 6,
    // a code that is the same as nothing
    SameAsNothing = 7,
}

impl Fault {
    /// The number of the ground, from 1 to 7.
    pub fn number(self) -> u8
        ensures { result ≡ number_of self }
    {
        self as u8
    }

    /// The ground in plain words.
    // Kept: a call beside Display, since README promises a ground's words as a call; they stand here once, and Display prints them.
    pub fn ground(self) -> &'static str
        ensures { result.now ≡ ground_of self }
    {
        match self {
            Fault::TooLong => "longer than 8192 words",
            Fault::CutShort => "empty, or ends inside a node",
            Fault::OutsideRow => "a code without a row, or a word outside its row",
            Fault::NotATree =>
                "a child number not below its node's, or a node that is not a child exactly once",
            Fault::WrongClass => "children or root not of the row's classes or count",
            Fault::BadScope =>
                "a local above 1023, declared twice, used before it is declared, or used outside its operand",
            Fault::SameAsNothing => "a code that is the same as nothing",
        }
    }
}

/// The ground.
impl fmt::Display for Fault {
    ghost output = { λ fault. Some (ground_of fault) };

    fn fmt<W: fmt::Write>(&self, f: &mut fmt::Formatter<W>) -> fmt::Result {
        f.write_str(self.ground())
    }
}
