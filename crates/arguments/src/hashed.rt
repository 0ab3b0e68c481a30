// A table, and the hasher for its rules: `--hasher NAME`, before the table or after it.
ghost use Rattle.arguments.specs.Hashers.{HashedAs, TableHashedAs};

use crate::files::alone;
use crate::misuse::{Expected, Misuse};
use hashing::named::HasherName;

#[derive(Clone, Copy, Debug, PartialEq, Eq)]
pub struct Hashed<'a> {
    pub table: &'a str,
    pub hasher: HasherName,
}

// Without the option the hasher is `rotating`.
pub fn table_and_hasher(rest: &[String]) -> Result<Hashed<'_>, Misuse<'_>>
    ensures { HashedAs rest.now result }
{
    match rest {
        [] => Err(Misuse::Missing(Expected::Table)),
        [option, rest @ ..] if option.as_str() == "--hasher" => match rest {
            [] => Err(Misuse::Missing(Expected::Hasher)),
            [_] => Err(Misuse::Missing(Expected::Table)),
            [name, table, more @ ..] => {
                alone(more)?;
                hashed_by(name.as_str(), table.as_str())
            }
        },
        [table, option, rest @ ..] if option.as_str() == "--hasher" => match rest {
            [] => Err(Misuse::Missing(Expected::Hasher)),
            [name, more @ ..] => {
                alone(more)?;
                hashed_by(name.as_str(), table.as_str())
            }
        },
        [table, more @ ..] => {
            alone(more)?;
            Ok(Hashed {
                table: table.as_str(),
                hasher: HasherName::Rotating,
            })
        }
    }
}

// The table, and the hasher of this name.
fn hashed_by<'a>(name: &'a str, table: &'a str) -> Result<Hashed<'a>, Misuse<'a>>
    ensures { TableHashedAs name.now table.now result }
{
    let hasher = name
        .parse::<HasherName>()
        .map_err(|_| Misuse::Other(Expected::Hasher, name))?;
    Ok(Hashed { table, hasher })
}
