// A few names, and numbers and calls that look picked at random.
use crate::words::Call;

static LONG: [u8; 256] = [7; 256];

// The longest name.
pub(crate) fn longest() -> &'static [u8] {
    &LONG[0..255]
}

// A run that is one byte too long.
pub(crate) fn too_long() -> &'static [u8] {
    &LONG
}

// One of nine names, and sometimes a run that is none.
pub(crate) fn word(pick: u64) -> &'static [u8] {
    match pick % 16 {
        0 => b"a",
        1 => b"b",
        2 => b"aa",
        3 => b"ab",
        4 => b"ba",
        5 => b"\0",
        6 => b"a\0",
        7 => longest(),
        8 => too_long(),
        9 => b"",
        _ => b"some name",
    }
}

/// Numbers that look picked at random, and are the same each time.
#[derive(Clone, Copy)]
pub(crate) struct Picks {
    pub(crate) state: u64,
}

impl Picks {
    pub(crate) fn next(&mut self) -> u64 {
        let product = self.state.wrapping_mul(6364136223846793005);
        self.state = product.wrapping_add(1442695040888963407);
        self.state >> 33
    }

    // More entries than cuts; a cut may be above the standing number.
    pub(crate) fn call(&mut self) -> Call {
        let run = word(self.next());
        let keep = (self.next() % 14) as usize;
        match self.next() % 16 {
            0 | 1 => Call::Cut(keep),
            2..=5 => Call::Find(run),
            _ => Call::Enter(run),
        }
    }
}
