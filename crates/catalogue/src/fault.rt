// Why the calls of a catalogue are refused. Each refusal has a number.
ghost use Rattle.std.specs.Prelude.{◌≡◌, ℕ};
ghost use Rattle.catalogue.specs.Faults.{not_standing_number, number_of};
ghost use Rattle.catalogue.specs.declared.fault.Fault.TheVariants.{Input};

/// A refusal with a number.
pub trait Numbered: Copy {
    ghost number: { Self → ℕ };

    fn number(self) -> u8
        ensures { result ≡ number self };
}

/// Why a run is not entered, where its kind refuses runs by an `F`.
#[derive(Clone, Copy, Debug, PartialEq, Eq)]
pub enum Fault<F> {
    // the run meets a number of its kind's input list
    Input(F),
    // no slot is free, or 65,536 entries stand
    NoSlot,
    // fewer units are free than the run needs
    NoUnits,
}

impl<F: Numbered> Numbered for Fault<F> {
    ghost number = { number_of F.number };

    fn number(self) -> u8 {
        match self {
            Fault::Input(fault) => fault.number(),
            Fault::NoSlot => 20,
            Fault::NoUnits => 21,
        }
    }
}

impl<F> From<F> for Fault<F> {
    ghost from_gives = { λ fault r. r ≡ Input fault };

    fn from(fault: F) -> Fault<F> {
        Fault::Input(fault)
    }
}

/// More entries are to be kept than stand, or an entry is asked for that does not stand or is not within the memory.
#[derive(Clone, Copy, Debug, PartialEq, Eq)]
pub struct NotStanding;

impl Numbered for NotStanding {
    ghost number = { not_standing_number };

    fn number(self) -> u8 {
        22
    }
}
