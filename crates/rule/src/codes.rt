// The codes of nodes that mean more than their rows say.
// Kept: numbers with names and no enum. A node's code is a word that anyone may hand in, and the row table is what says
// which of them are codes; an enum would be a second list of the 77 codes, and a test of each word against it.
ghost use Rattle.std.specs.Prelude.{◌≡◌};
ghost use Rattle.rule.specs.Intake.{barred};

pub const ABSENT: u32 = 0;

pub const BINARY: u32 = 14;

pub const BLOCK_EXPR: u32 = 15;

pub const CLOSURE: u32 = 19;

pub const RETURN: u32 = 31;

pub const TUPLE: u32 = 33;

pub const BECOME: u32 = 35;

pub const ERROR: u32 = 36;

pub const BINDING: u32 = 41;

pub const STRUCT_PAT: u32 = 46;

pub const OR_PAT: u32 = 50;

pub const REF_TY: u32 = 63;

pub const NEVER: u32 = 67;

pub const PATH: u32 = 70;

pub const BLOCK: u32 = 94;

pub const EXPR_STMT: u32 = 96;

pub const SEMI_STMT: u32 = 97;

/// A node of such a code is the same as nothing.
pub fn is_barred(code: u32) -> bool
    ensures { result ≡ barred code }
{
    matches!(code, CLOSURE | BECOME | ERROR | OR_PAT | NEVER)
}
