// Blanks, the spaces and tabs between the parts of a line.
ghost use Rattle.std.specs.Prelude.{◌≡◌, ℕ, ◌<◌, ◌≤◌, true, false, List, length, ◌≢◌, slice_index};
ghost use Rattle.tables.specs.Lines.{skipped};
ghost use Rattle.tables.specs.Pieces.{blank, Cut, Trimmed};

// What parts the pieces of a line.
const BLANKS: [char; 2] = [' ', '\t'];

fn is_blank(b: u8) -> bool
    ensures { result ≡ blank b }
{
    b == b' ' || b == b'\t'
}

// Whether a line is empty or a comment.
pub fn is_skipped(text: &str) -> bool
    ensures { result ≡ skipped text.now }
{
    let rest = skip_blanks(text);
    rest.is_empty() || rest.starts_with('#')
}

// How many bytes at the front are blanks, or, where `blanks` is false, are none.
// Kept: by bytes, since each word of a table is found by this; `find` and `trim_start_matches` with both blanks take
// each byte for a character first, which takes twice the time.
fn run_len(bytes: &[u8], blanks: bool) -> usize
    ensures within { result ≤ length bytes.now }
    ensures alike { (i : ℕ) → i < result → blank (slice_index bytes.now i) ≡ blanks }
    ensures ends { result < length bytes.now → blank (slice_index bytes.now result) ≢ blanks }
{
    bytes
        .iter()
        .position(|b| is_blank(*b) != blanks)
        .unwrap_or(bytes.len())
}

// What stands after the blanks at the front.
pub fn skip_blanks(text: &str) -> &str
    ensures { (gap : List ℕ) × Cut true text.now gap result.now }
{
    // The byte before the cut is ASCII, so no character is split.
    text.split_at(run_len(text.as_bytes(), true)).1
}

// The piece up to the first blank, and the rest.
pub fn cut_piece(text: &str) -> (&str, &str)
    ensures { Cut false text.now result.0.now result.1.now }
{
    text.split_at(run_len(text.as_bytes(), false))
}

// A text without the blanks at both its ends.
pub fn trim_blanks(text: &str) -> &str
    ensures { Trimmed text.now result.now }
{
    skip_blanks(text).trim_end_matches(BLANKS)
}
