// The pair table: place l is the partner of local l of the first rule, and place LOCALS + r that of local r of the second.
ghost use Rattle.std.specs.Prelude.{◌≡◌, min, length};
ghost use Rattle.trial.specs.Table.{placed, holds, paired, unpaired, recorded, Cleared};

/// Stands at a place that holds no partner.
// Kept: the pair table is the caller's words, and the format has this word for no partner.
pub const NONE: u32 = 4294967295;

/// How many locals a rule can have.
pub const LOCALS: usize = 1024;

/// How many places a table has for the locals of two rules.
pub const PLACES: usize = 2048;

// How many of the places are within the table.
pub(crate) fn places(table: &[u32]) -> usize
    ensures { result ≡ min (length table.now) 2048 }
{
    table.len().min(PLACES)
}

// Kept: the table and two locals are no struct. These calls take the caller's words, of any length, and `record` is lent them
// to be changed.

// Both are numbers of locals, and the table has their places.
fn has_places(table: &[u32], l: u32, r: u32) -> bool
    ensures { result ≡ placed table.now l r }
{
    (l as usize) < LOCALS && (r as usize) < LOCALS && LOCALS + (r as usize) < table.len()
}

// The table has the places of l and r, and they hold `x` and `y`.
fn holds(table: &[u32], l: u32, r: u32, x: u32, y: u32) -> bool
    ensures { result ≡ holds table.now l r x y }
{
    if !has_places(table, l, r) {
        return false;
    }
    table[l as usize] == x && table[LOCALS + r as usize] == y
}

/// Local l of the first rule and local r of the second are each other's partner. False where the table lacks a place of theirs.
#[tactic(auto, unfolding(crate::specs::Table::paired))]
pub fn paired(table: &[u32], l: u32, r: u32) -> bool
    ensures { result ≡ paired table.now l r }
{
    holds(table, l, r, r, l)
}

/// Neither local l of the first rule nor local r of the second has a partner. False where the table lacks a place of theirs.
#[tactic(auto, unfolding(crate::specs::Table::unpaired))]
pub fn unpaired(table: &[u32], l: u32, r: u32) -> bool
    ensures { result ≡ unpaired table.now l r }
{
    holds(table, l, r, NONE, NONE)
}

/// Makes local l of the first rule and local r of the second partners. Does nothing where the table lacks a place of theirs.
pub fn record(table: &mut [u32], l: u32, r: u32)
    ensures { table.new ≡ recorded table.old l r }
{
    if has_places(table, l, r) {
        table[l as usize] = r;
        table[LOCALS + r as usize] = l;
    }
}

/// Takes every partner out, and leaves what stands past the places.
pub fn clear(table: &mut [u32])
    ensures { Cleared table.old table.new }
{
    let end = places(table);
    table[..end].fill(NONE);
}
