// The hashes of the operands of an Eq or a Ne.
ghost use Rattle.std.specs.Prelude.{◌≡◌, max, min};

#[derive(Clone, Copy)]
pub(crate) struct Operands {
    pub smaller: u64,
    pub larger: u64,
}

impl Operands {
    // Two hashes, in the order of their sizes.
    pub(crate) fn of(a: u64, b: u64) -> Operands
        ensures { result ≡ record { smaller = min a b; larger = max a b } }
    {
        Operands {
            smaller: a.min(b),
            larger: a.max(b),
        }
    }
}
