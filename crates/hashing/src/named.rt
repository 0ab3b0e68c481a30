// The names of the hashers, as texts write them.
ghost use Rattle.hashing.specs.Named.{no_name, spelling};
ghost use Rattle.std.specs.Prelude.{Some};

use std::error::Error;
use std::fmt;
use std::str::FromStr;

#[derive(Clone, Copy, Debug, PartialEq, Eq)]
pub enum HasherName {
    Rotating,
    Fnv1a,
}

/// The text names no hasher.
#[derive(Clone, Copy, Debug, PartialEq, Eq)]
pub struct UnknownHasher;

/// The hasher that a text names.
impl FromStr for HasherName {
    type Err = UnknownHasher;

    ghost use Rattle.hashing.specs.Named.{NamedAs};

    ghost from_str_gives = { NamedAs };

    fn from_str(text: &str) -> Result<HasherName, UnknownHasher> {
        // Kept: a search of a list of both by their words is no shorter, as the arms of `Display` stay beside it.
        match text {
            "rotating" => Ok(HasherName::Rotating),
            "fnv1a" => Ok(HasherName::Fnv1a),
            _ => Err(UnknownHasher),
        }
    }
}

impl fmt::Display for HasherName {
    ghost output = { λ n. Some (spelling n) };

    fn fmt<W: fmt::Write>(&self, f: &mut fmt::Formatter<W>) -> fmt::Result {
        match self {
            HasherName::Rotating => f.write_str("rotating"),
            HasherName::Fnv1a => f.write_str("fnv1a"),
        }
    }
}

impl fmt::Display for UnknownHasher {
    ghost output = { λ _. Some no_name };

    fn fmt<W: fmt::Write>(&self, f: &mut fmt::Formatter<W>) -> fmt::Result {
        f.write_str("no hasher has this name: it is rotating or fnv1a")
    }
}

impl Error for UnknownHasher {}
