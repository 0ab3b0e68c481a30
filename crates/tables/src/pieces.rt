// The pieces of a text, which blanks part.
ghost use Rattle.std.specs.Prelude.{◌≡◌, length};
ghost use Rattle.std.specs.Iterator.{at_most};
ghost use Rattle.tables.specs.Pieces.{NextPiece, left};

use crate::blanks::{cut_piece, skip_blanks};

// The pieces that a text has from a place on.
#[derive(Clone, Copy, Debug)]
pub struct Pieces<'a> {
    rest: &'a str,
}

impl<'a> Pieces<'a> {
    pub fn new(text: &'a str) -> Pieces<'a>
        ensures { left result ≡ text.now }
    {
        Pieces { rest: text }
    }
}

impl<'a> Iterator for Pieces<'a> {
    type Item = &'a str;

    ghost next_gives = { λ s r t. NextPiece (left s) r (left t) };

    ghost remaining = { λ s. at_most (length (left s)) };

    fn next(&mut self) -> Option<&'a str> {
        let rest = skip_blanks(self.rest);
        if rest.is_empty() {
            return None;
        }
        let (piece, after) = cut_piece(rest);
        self.rest = after;
        Some(piece)
    }
}
