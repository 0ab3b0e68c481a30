ghost use Rattle.std.specs.Prelude.{◌≡◌, ◌<◌, true, length};
ghost use Rattle.rule.specs.Format.{format, within, serves, admits, admitted};
ghost use Rattle.rule.specs.Lookup.{takes, row_of, behind, front_at, enough, place_of, root, placed};

use crate::rows::{Class, FIRST, Front, Place, ROWS, Row, Span};

// The rows, and for each code the number of its first row.
fn rows() -> &'static [Row]
    ensures { result.now ≡ format }
{
    &ROWS
}

fn firsts() -> &'static [u8]
    ensures places { placed 0 result.now ≡ true }
    ensures len { length result.now ≡ 117 }
{
    &FIRST
}

impl Span {
    fn holds(self, x: u32) -> bool
        ensures { result ≡ within self x }
    {
        (self.low..=self.high).contains(&x)
    }
}

impl Class {
    // A child of the class `kid` may stand where one of this class is wanted.
    fn takes_kid(self, kid: Class) -> bool
        ensures { result ≡ serves self kid }
    {
        self == kid || (self == Class::Pat && kid == Class::EndPat)
    }

    pub(crate) fn can_be_root(self) -> bool
        ensures { result ≡ root self }
    {
        Class::Expr.takes_kid(self)
            || Class::Block.takes_kid(self)
            || Class::Pat.takes_kid(self)
            || Class::Ty.takes_kid(self)
    }
}

impl Place {
    fn admits_kid(self, kid: Class) -> bool
        ensures { result ≡ admits self kid }
    {
        match self {
            Place::One(c) => c.takes_kid(kid),
            Place::Maybe(c) => kid == Class::Absent || c.takes_kid(kid),
            Place::Either(c, d) => c.takes_kid(kid) || d.takes_kid(kid),
        }
    }
}

impl Front {
    fn at(self, q: usize) -> Option<Place>
        ensures { result ≡ front_at self q }
    {
        // Kept: by number, since the places are four fields and no array.
        match q {
            0 => self.a,
            1 => self.b,
            2 => self.c,
            _ => self.d,
        }
    }
}

impl Row {
    fn is_for(self, code: u32, v: u32, w: u32) -> bool
        ensures { result ≡ takes self code v w }
    {
        self.code == code && self.v.holds(v) && self.w.holds(w)
    }

    fn kids_behind(self) -> usize
        ensures { result ≡ behind self }
    {
        usize::from(self.last.is_some())
    }

    // A node of this row may have `n` children.
    pub(crate) fn may_have(self, n: usize) -> bool
        ensures { result ≡ enough self n }
    {
        match self.many {
            None => n == self.count,
            Some(_) => self.count <= n && self.kids_behind() <= n - self.count,
        }
    }

    // The place of child `q` of `n`.
    fn place_of(self, n: usize, q: usize) -> Option<Place>
        requires { q < n }
        ensures { result ≡ place_of self n q }
    {
        if q < self.count {
            self.front.at(q)
        } else if q + self.kids_behind() < n {
            self.many
        } else {
            self.last
        }
    }

    // Child `q` of `n` may be of the class `kid`.
    pub(crate) fn admits(self, n: usize, q: usize, kid: Class) -> bool
        requires { q < n }
        ensures { result ≡ admitted (place_of self n q) kid }
    {
        self.place_of(n, q)
            .is_some_and(|place| place.admits_kid(kid))
    }
}

/// The row that a node's words are within.
pub fn row_of(code: u32, v: u32, w: u32) -> Option<Row>
    ensures { result ≡ row_of code v w }
{
    let first = *firsts().get(code as usize)? as usize;
    rows()[first..first + 3]
        .iter()
        .find(|row| row.is_for(code, v, w))
        .copied()
}
