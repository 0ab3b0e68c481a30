// A word of a run, as the text of a table writes it.
ghost use Rattle.std.specs.Prelude.{◌≡◌, ℕ, ◌^◌, ◌<◌, ◌≤◌, Ok, Err};
ghost use Rattle.std.specs.Str.Parse.{IsNumeral, digits_value};
ghost use Rattle.tables.specs.Numerals.{Writes, ReadAs, DigitsAs};

// Why a text is no word.
#[derive(Clone, Copy, Debug, PartialEq, Eq)]
pub enum WordFault {
    NotANumber,
    TooLarge,
}

// The number that a word writes: decimal digits, or `0x` and hexadecimal digits.
pub fn read_word(text: &str) -> Result<u32, WordFault>
    ensures cases { ReadAs text.now result }
    ensures whole { (n : ℕ) → Writes text.now n → n < 2 ^ 32 → result ≡ Ok n }
{
    match text.strip_prefix("0x") {
        Some(digits) => read_digits(digits, 16),
        None => read_digits(text, 10),
    }
}

// The number that digits write. The library takes a plus before them, which no word has.
fn read_digits(digits: &str, radix: u32) -> Result<u32, WordFault>
    requires low { 2 ≤ radix }
    requires high { radix ≤ 16 }
    ensures { DigitsAs radix digits.now result }
{
    match u32::from_str_radix(digits, radix) {
        Ok(word) if !digits.starts_with('+') => Ok(word),
        _ => Err(fault_of(digits, radix)),
    }
}

// Why digits are no word. They are looked at to the last, since a run with a stray character is no number at any size.
fn fault_of(digits: &str, radix: u32) -> WordFault
    requires low { 2 ≤ radix }
    requires high { radix ≤ 16 }
    requires no_word { IsNumeral radix digits.now → 2 ^ 32 ≤ digits_value radix digits.now }
    ensures { DigitsAs radix digits.now (Err result) }
{
    if digits.is_empty() {
        return WordFault::NotANumber;
    }
    if digits.bytes().all(|b| char::from(b).is_digit(radix)) {
        WordFault::TooLarge
    } else {
        WordFault::NotANumber
    }
}
