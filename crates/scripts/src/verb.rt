// The verbs that calls begin with.
ghost use Rattle.scripts.specs.Calls.{verb_word};
ghost use Rattle.scripts.specs.Parts.{WordAs};
ghost use Rattle.scripts.specs.Spellings.{verb-same};

use crate::fault::{Expected, UnknownWord};
use crate::named::Named;
use std::str::FromStr;

#[derive(Clone, Copy, Debug, PartialEq, Eq)]
pub(crate) enum Verb {
    Enter,
    Find,
    Cut,
    Count,
    Class,
    Hash,
    Run,
}

impl FromStr for Verb {
    type Err = UnknownWord;

    ghost from_str_gives = { WordAs verb_word };

    fn from_str(text: &str) -> Result<Verb, UnknownWord> {
        // Kept: a search of a list of all seven by their words takes the same arms, turned round, and the list beside.
        match text {
            "enter" => Ok(Verb::Enter),
            "find" => Ok(Verb::Find),
            "cut" => Ok(Verb::Cut),
            "count" => Ok(Verb::Count),
            "class" => Ok(Verb::Class),
            "hash" => Ok(Verb::Hash),
            "run" => Ok(Verb::Run),
            _ => Err(UnknownWord),
        }
    }
}

impl Named for Verb {
    ghost spelling = { verb_word };

    fn expected() -> Expected {
        Expected::Call
    }

    ghost apart = { verb-same };

    ghost reads = { λ bs r h. h };
}
