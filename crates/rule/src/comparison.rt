// The binary operators that compare their operands.
ghost use Rattle.std.specs.Prelude.{◌≡◌};
ghost use Rattle.rule.specs.Comparisons.{comparison_of, comparison_number, reversed};

/// A comparison. In a rule's words a number stands for it, v of a binary expression.
#[derive(Clone, Copy, Debug, PartialEq, Eq)]
pub enum Comparison {
    Eq = 12,
    Lt = 13,
    Le = 14,
    Ne = 15,
    Ge = 16,
    Gt = 17,
}

impl Comparison {
    /// The comparison that a number stands for, if it stands for one.
    // Kept: `of` and `number`, and no `TryFrom` and `From`: who asks wants an Option, and an error with nothing in it would only
    // be taken off again; and a number is asked for by `number`, as that of a fault is.
    pub fn of(number: u32) -> Option<Comparison>
        ensures { result ≡ comparison_of number }
    {
        match number {
            12 => Some(Comparison::Eq),
            13 => Some(Comparison::Lt),
            14 => Some(Comparison::Le),
            15 => Some(Comparison::Ne),
            16 => Some(Comparison::Ge),
            17 => Some(Comparison::Gt),
            _ => None,
        }
    }

    /// The number that stands for it.
    pub fn number(self) -> u32
        ensures { result ≡ comparison_number self }
    {
        self as u32
    }

    /// The comparison that says the same of exchanged operands.
    pub fn reversed(self) -> Comparison
        ensures { result ≡ reversed self }
    {
        match self {
            Comparison::Lt => Comparison::Gt,
            Comparison::Le => Comparison::Ge,
            Comparison::Ge => Comparison::Le,
            Comparison::Gt => Comparison::Lt,
            Comparison::Eq | Comparison::Ne => self,
        }
    }
}
