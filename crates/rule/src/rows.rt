/// What a node is: where it may stand as a child or as the root.
#[derive(Clone, Copy, Debug, PartialEq, Eq)]
pub enum Class {
    Absent,
    Expr,
    Pat,
    // a pattern that may also end a range
    EndPat,
    Ty,
    QPath,
    Segment,
    Const,
    Lit,
    Block,
    Stmt,
    Arm,
    ExprField,
    PatField,
}

/// The words from `low` to `high`, both of them included.
#[derive(Clone, Copy)]
pub struct Span {
    pub low: u32,
    pub high: u32,
}

/// Which classes a child's place takes.
#[derive(Clone, Copy)]
pub enum Place {
    One(Class),
    // one of the class, or Absent
    Maybe(Class),
    Either(Class, Class),
}

/// The first places of a row: four at most.
// Kept: four fields, and their count in `Row`, and no array, since the borrow checker does not cover a static of structs that hold arrays of enums.
#[derive(Clone, Copy)]
pub struct Front {
    pub a: Option<Place>,
    pub b: Option<Place>,
    pub c: Option<Place>,
    pub d: Option<Place>,
}

/// What a node of one code may be. A code has as many rows as its words or its children have shapes.
#[derive(Clone, Copy)]
pub struct Row {
    pub code: u32,
    pub class: Class,
    pub v: Span,
    pub w: Span,
    // the first places, and how many of them there are
    pub front: Front,
    pub count: usize,
    // the place that is repeated, as often as it takes, behind the first ones
    pub many: Option<Place>,
    // the place behind the repeated ones
    pub last: Option<Place>,
}

const ZERO: Span = Span { low: 0, high: 0 };

const ANY: Span = Span {
    low: 0,
    high: 4294967295,
};

const NO: Option<Place> = None;

const ABSENT: Option<Place> = Some(Place::One(Class::Absent));

const E: Option<Place> = Some(Place::One(Class::Expr));

const P: Option<Place> = Some(Place::One(Class::Pat));

const T: Option<Place> = Some(Place::One(Class::Ty));

const Q: Option<Place> = Some(Place::One(Class::QPath));

const S: Option<Place> = Some(Place::One(Class::Segment));

const C: Option<Place> = Some(Place::One(Class::Const));

const L: Option<Place> = Some(Place::One(Class::Lit));

const B: Option<Place> = Some(Place::One(Class::Block));

const STMT: Option<Place> = Some(Place::One(Class::Stmt));

const ARM: Option<Place> = Some(Place::One(Class::Arm));

const EXPR_FIELD: Option<Place> = Some(Place::One(Class::ExprField));

const PAT_FIELD: Option<Place> = Some(Place::One(Class::PatField));

const MAYBE_E: Option<Place> = Some(Place::Maybe(Class::Expr));

const MAYBE_P: Option<Place> = Some(Place::Maybe(Class::Pat));

const MAYBE_T: Option<Place> = Some(Place::Maybe(Class::Ty));

const MAYBE_B: Option<Place> = Some(Place::Maybe(Class::Block));

const MAYBE_END: Option<Place> = Some(Place::Maybe(Class::EndPat));

const T_OR_C: Option<Place> = Some(Place::Either(Class::Ty, Class::Const));

const NO_FRONT: Front = Front {
    a: NO,
    b: NO,
    c: NO,
    d: NO,
};

// The rows, in the order of their codes.
#[rattlefmt::skip]
pub(crate) static ROWS: [Row; 83] = [
    Row { code: 0, class: Class::Absent, v: ZERO, w: ZERO, front: NO_FRONT, count: 0, many: NO, last: NO }, // Absent
    Row { code: 10, class: Class::Expr, v: ZERO, w: Span { low: 0, high: 1 }, front: Front { a: E, b: NO, c: NO, d: NO }, count: 1, many: NO, last: NO }, // AddrOf
    Row { code: 11, class: Class::Expr, v: ZERO, w: ZERO, front: NO_FRONT, count: 0, many: E, last: NO }, // Array
    Row { code: 12, class: Class::Expr, v: ZERO, w: ZERO, front: Front { a: E, b: E, c: NO, d: NO }, count: 2, many: NO, last: NO }, // Assign
    Row { code: 13, class: Class::Expr, v: Span { low: 0, high: 4 }, w: ZERO, front: Front { a: E, b: E, c: NO, d: NO }, count: 2, many: NO, last: NO }, // AssignOp: Add to Rem
    Row { code: 13, class: Class::Expr, v: Span { low: 7, high: 11 }, w: ZERO, front: Front { a: E, b: E, c: NO, d: NO }, count: 2, many: NO, last: NO }, // AssignOp: BitXor to Shr
    Row { code: 14, class: Class::Expr, v: Span { low: 0, high: 17 }, w: ZERO, front: Front { a: E, b: E, c: NO, d: NO }, count: 2, many: NO, last: NO }, // Binary
    Row { code: 15, class: Class::Expr, v: ANY, w: ZERO, front: Front { a: B, b: NO, c: NO, d: NO }, count: 1, many: NO, last: NO }, // Block
    Row { code: 16, class: Class::Expr, v: ANY, w: ZERO, front: Front { a: MAYBE_E, b: NO, c: NO, d: NO }, count: 1, many: NO, last: NO }, // Break
    Row { code: 17, class: Class::Expr, v: ZERO, w: ZERO, front: Front { a: E, b: NO, c: NO, d: NO }, count: 1, many: E, last: NO }, // Call
    Row { code: 18, class: Class::Expr, v: ZERO, w: ZERO, front: Front { a: E, b: T, c: NO, d: NO }, count: 2, many: NO, last: NO }, // Cast
    Row { code: 19, class: Class::Expr, v: ZERO, w: ZERO, front: Front { a: E, b: NO, c: NO, d: NO }, count: 1, many: NO, last: NO }, // Closure
    Row { code: 20, class: Class::Expr, v: ANY, w: ZERO, front: NO_FRONT, count: 0, many: NO, last: NO }, // Continue
    Row { code: 21, class: Class::Expr, v: ANY, w: ZERO, front: Front { a: E, b: NO, c: NO, d: NO }, count: 1, many: NO, last: NO }, // Field
    Row { code: 22, class: Class::Expr, v: ZERO, w: ZERO, front: Front { a: E, b: E, c: NO, d: NO }, count: 2, many: NO, last: NO }, // Index
    Row { code: 23, class: Class::Expr, v: ZERO, w: ZERO, front: Front { a: E, b: E, c: MAYBE_E, d: NO }, count: 3, many: NO, last: NO }, // If
    Row { code: 24, class: Class::Expr, v: ZERO, w: ZERO, front: Front { a: E, b: MAYBE_T, c: P, d: NO }, count: 3, many: NO, last: NO }, // Let
    Row { code: 25, class: Class::Expr, v: ZERO, w: ZERO, front: Front { a: L, b: NO, c: NO, d: NO }, count: 1, many: NO, last: NO }, // Lit
    Row { code: 26, class: Class::Expr, v: ANY, w: Span { low: 0, high: 2 }, front: Front { a: B, b: NO, c: NO, d: NO }, count: 1, many: NO, last: NO }, // Loop
    Row { code: 27, class: Class::Expr, v: Span { low: 0, high: 3 }, w: ZERO, front: Front { a: E, b: NO, c: NO, d: NO }, count: 1, many: ARM, last: NO }, // Match
    Row { code: 28, class: Class::Expr, v: ZERO, w: ZERO, front: Front { a: S, b: E, c: NO, d: NO }, count: 2, many: E, last: NO }, // MethodCall
    Row { code: 29, class: Class::Expr, v: ZERO, w: ZERO, front: Front { a: Q, b: NO, c: NO, d: NO }, count: 1, many: NO, last: NO }, // Path
    Row { code: 30, class: Class::Expr, v: ZERO, w: ZERO, front: Front { a: E, b: C, c: NO, d: NO }, count: 2, many: NO, last: NO }, // Repeat
    Row { code: 31, class: Class::Expr, v: ZERO, w: ZERO, front: Front { a: MAYBE_E, b: NO, c: NO, d: NO }, count: 1, many: NO, last: NO }, // Ret
    Row { code: 32, class: Class::Expr, v: ZERO, w: ZERO, front: Front { a: Q, b: ABSENT, c: NO, d: NO }, count: 2, many: EXPR_FIELD, last: NO }, // Struct without a tail
    Row { code: 32, class: Class::Expr, v: Span { low: 1, high: 1 }, w: ZERO, front: Front { a: Q, b: E, c: NO, d: NO }, count: 2, many: EXPR_FIELD, last: NO }, // Struct with a base
    Row { code: 32, class: Class::Expr, v: Span { low: 2, high: 2 }, w: ZERO, front: Front { a: Q, b: ABSENT, c: NO, d: NO }, count: 2, many: EXPR_FIELD, last: NO }, // Struct with default fields
    Row { code: 33, class: Class::Expr, v: ZERO, w: ZERO, front: NO_FRONT, count: 0, many: E, last: NO }, // Tup
    Row { code: 34, class: Class::Expr, v: Span { low: 0, high: 2 }, w: ZERO, front: Front { a: E, b: NO, c: NO, d: NO }, count: 1, many: NO, last: NO }, // Unary
    Row { code: 35, class: Class::Expr, v: ZERO, w: ZERO, front: Front { a: E, b: NO, c: NO, d: NO }, count: 1, many: NO, last: NO }, // Become
    Row { code: 36, class: Class::Expr, v: ZERO, w: ZERO, front: NO_FRONT, count: 0, many: NO, last: NO }, // Err
    Row { code: 40, class: Class::Pat, v: ZERO, w: ZERO, front: NO_FRONT, count: 0, many: NO, last: NO }, // Wild
    Row { code: 41, class: Class::Pat, v: ANY, w: Span { low: 0, high: 5 }, front: Front { a: MAYBE_P, b: NO, c: NO, d: NO }, count: 1, many: NO, last: NO }, // Binding
    Row { code: 42, class: Class::EndPat, v: ZERO, w: Span { low: 0, high: 1 }, front: Front { a: L, b: NO, c: NO, d: NO }, count: 1, many: NO, last: NO }, // Literal
    Row { code: 43, class: Class::EndPat, v: ZERO, w: ZERO, front: Front { a: Q, b: NO, c: NO, d: NO }, count: 1, many: NO, last: NO }, // Path
    Row { code: 44, class: Class::Pat, v: ANY, w: ZERO, front: NO_FRONT, count: 0, many: P, last: NO }, // Tuple
    Row { code: 45, class: Class::Pat, v: ANY, w: ZERO, front: Front { a: Q, b: NO, c: NO, d: NO }, count: 1, many: P, last: NO }, // TupleStruct
    Row { code: 46, class: Class::Pat, v: Span { low: 0, high: 1 }, w: ZERO, front: Front { a: Q, b: NO, c: NO, d: NO }, count: 1, many: PAT_FIELD, last: NO }, // Struct
    Row { code: 47, class: Class::Pat, v: ZERO, w: Span { low: 0, high: 1 }, front: Front { a: MAYBE_END, b: MAYBE_END, c: NO, d: NO }, count: 2, many: NO, last: NO }, // Range
    Row { code: 48, class: Class::Pat, v: ZERO, w: Span { low: 0, high: 1 }, front: Front { a: P, b: NO, c: NO, d: NO }, count: 1, many: NO, last: NO }, // Ref
    Row { code: 50, class: Class::Pat, v: ZERO, w: ZERO, front: NO_FRONT, count: 0, many: P, last: NO }, // Or
    Row { code: 60, class: Class::Ty, v: ZERO, w: ZERO, front: Front { a: T, b: NO, c: NO, d: NO }, count: 1, many: NO, last: NO }, // Slice
    Row { code: 61, class: Class::Ty, v: ZERO, w: ZERO, front: Front { a: T, b: C, c: NO, d: NO }, count: 2, many: NO, last: NO }, // Array
    Row { code: 62, class: Class::Ty, v: ZERO, w: Span { low: 0, high: 1 }, front: Front { a: T, b: NO, c: NO, d: NO }, count: 1, many: NO, last: NO }, // Ptr
    Row { code: 63, class: Class::Ty, v: ANY, w: Span { low: 0, high: 1 }, front: Front { a: T, b: NO, c: NO, d: NO }, count: 1, many: NO, last: NO }, // Ref
    Row { code: 64, class: Class::Ty, v: ZERO, w: ZERO, front: Front { a: Q, b: NO, c: NO, d: NO }, count: 1, many: NO, last: NO }, // Path
    Row { code: 65, class: Class::Ty, v: ZERO, w: ZERO, front: NO_FRONT, count: 0, many: T, last: NO }, // Tup
    Row { code: 66, class: Class::Ty, v: ZERO, w: ZERO, front: NO_FRONT, count: 0, many: NO, last: NO }, // Infer
    Row { code: 67, class: Class::Ty, v: ZERO, w: ZERO, front: NO_FRONT, count: 0, many: NO, last: NO }, // Never
    Row { code: 70, class: Class::QPath, v: ZERO, w: ANY, front: Front { a: ABSENT, b: NO, c: NO, d: NO }, count: 1, many: NO, last: NO }, // Resolved: a local
    Row { code: 70, class: Class::QPath, v: Span { low: 1, high: 6 }, w: ANY, front: Front { a: MAYBE_T, b: S, c: NO, d: NO }, count: 2, many: S, last: NO }, // Resolved: a definition
    Row { code: 70, class: Class::QPath, v: Span { low: 7, high: 7 }, w: ZERO, front: Front { a: MAYBE_T, b: S, c: NO, d: NO }, count: 2, many: S, last: NO }, // Resolved: any other
    Row { code: 71, class: Class::QPath, v: ZERO, w: ZERO, front: Front { a: T, b: S, c: NO, d: NO }, count: 2, many: NO, last: NO }, // TypeRelative
    Row { code: 72, class: Class::Segment, v: ANY, w: ZERO, front: NO_FRONT, count: 0, many: T_OR_C, last: NO }, // Segment
    Row { code: 80, class: Class::Const, v: ZERO, w: ZERO, front: Front { a: Q, b: NO, c: NO, d: NO }, count: 1, many: NO, last: NO }, // Path
    Row { code: 81, class: Class::Const, v: ZERO, w: Span { low: 0, high: 1 }, front: Front { a: L, b: NO, c: NO, d: NO }, count: 1, many: NO, last: NO }, // Literal
    Row { code: 82, class: Class::Const, v: ZERO, w: ZERO, front: NO_FRONT, count: 0, many: NO, last: NO }, // Infer
    Row { code: 84, class: Class::Const, v: ZERO, w: ZERO, front: Front { a: Q, b: NO, c: NO, d: NO }, count: 1, many: C, last: NO }, // TupleCall
    Row { code: 90, class: Class::ExprField, v: ANY, w: ZERO, front: Front { a: E, b: NO, c: NO, d: NO }, count: 1, many: NO, last: NO }, // field of an expression
    Row { code: 91, class: Class::PatField, v: ANY, w: ZERO, front: Front { a: P, b: NO, c: NO, d: NO }, count: 1, many: NO, last: NO }, // field of a pattern
    Row { code: 93, class: Class::Arm, v: ZERO, w: ZERO, front: Front { a: P, b: MAYBE_E, c: E, d: NO }, count: 3, many: NO, last: NO }, // Arm
    Row { code: 94, class: Class::Block, v: Span { low: 0, high: 1 }, w: ZERO, front: NO_FRONT, count: 0, many: STMT, last: MAYBE_E }, // block
    Row { code: 95, class: Class::Stmt, v: ZERO, w: ZERO, front: Front { a: MAYBE_E, b: MAYBE_T, c: MAYBE_B, d: P }, count: 4, many: NO, last: NO }, // Let
    Row { code: 96, class: Class::Stmt, v: ZERO, w: ZERO, front: Front { a: E, b: NO, c: NO, d: NO }, count: 1, many: NO, last: NO }, // Expr
    Row { code: 97, class: Class::Stmt, v: ZERO, w: ZERO, front: Front { a: E, b: NO, c: NO, d: NO }, count: 1, many: NO, last: NO }, // Semi
    Row { code: 100, class: Class::Lit, v: ANY, w: ANY, front: NO_FRONT, count: 0, many: NO, last: NO }, // integer without a suffix
    Row { code: 101, class: Class::Lit, v: ANY, w: ANY, front: NO_FRONT, count: 0, many: NO, last: NO }, // integer i8
    Row { code: 102, class: Class::Lit, v: ANY, w: ANY, front: NO_FRONT, count: 0, many: NO, last: NO }, // integer i16
    Row { code: 103, class: Class::Lit, v: ANY, w: ANY, front: NO_FRONT, count: 0, many: NO, last: NO }, // integer i32
    Row { code: 104, class: Class::Lit, v: ANY, w: ANY, front: NO_FRONT, count: 0, many: NO, last: NO }, // integer i64
    Row { code: 105, class: Class::Lit, v: ANY, w: ANY, front: NO_FRONT, count: 0, many: NO, last: NO }, // integer isize
    Row { code: 106, class: Class::Lit, v: ANY, w: ANY, front: NO_FRONT, count: 0, many: NO, last: NO }, // integer u8
    Row { code: 107, class: Class::Lit, v: ANY, w: ANY, front: NO_FRONT, count: 0, many: NO, last: NO }, // integer u16
    Row { code: 108, class: Class::Lit, v: ANY, w: ANY, front: NO_FRONT, count: 0, many: NO, last: NO }, // integer u32
    Row { code: 109, class: Class::Lit, v: ANY, w: ANY, front: NO_FRONT, count: 0, many: NO, last: NO }, // integer u64
    Row { code: 110, class: Class::Lit, v: ANY, w: ANY, front: NO_FRONT, count: 0, many: NO, last: NO }, // integer usize
    Row { code: 111, class: Class::Lit, v: ANY, w: ZERO, front: NO_FRONT, count: 0, many: NO, last: NO }, // text
    Row { code: 112, class: Class::Lit, v: ANY, w: ZERO, front: NO_FRONT, count: 0, many: NO, last: NO }, // byte string
    Row { code: 113, class: Class::Lit, v: Span { low: 0, high: 55295 }, w: ZERO, front: NO_FRONT, count: 0, many: NO, last: NO }, // character below the surrogates
    Row { code: 113, class: Class::Lit, v: Span { low: 57344, high: 1114111 }, w: ZERO, front: NO_FRONT, count: 0, many: NO, last: NO }, // character above the surrogates
    Row { code: 114, class: Class::Lit, v: Span { low: 0, high: 255 }, w: ZERO, front: NO_FRONT, count: 0, many: NO, last: NO }, // byte
    Row { code: 115, class: Class::Lit, v: Span { low: 0, high: 1 }, w: ZERO, front: NO_FRONT, count: 0, many: NO, last: NO }, // truth
    Row { code: 116, class: Class::Lit, v: ANY, w: Span { low: 0, high: 2 }, front: NO_FRONT, count: 0, many: NO, last: NO }, // float
];

// For each code the number of its first row, or 80 for the last two codes, whose rows are 81 and 82; for one without a row
// any number.
// Kept: beside the rows, since the row table is constant by the project's form, and with this a row is found by three looks.
// That it fits the rows is proved by one test over both.
#[rattlefmt::skip]
pub(crate) static FIRST: [u8; 117] = [
    0, 0, 0, 0, 0, 0, 0, 0, 0, 0, 1, 2, 3,
    4, 6, 7, 8, 9, 10, 11, 12, 13, 14, 15, 16, 17,
    18, 19, 20, 21, 22, 23, 24, 27, 28, 29, 30, 0, 0,
    0, 31, 32, 33, 34, 35, 36, 37, 38, 39, 0, 40, 0,
    0, 0, 0, 0, 0, 0, 0, 0, 41, 42, 43, 44, 45,
    46, 47, 48, 0, 0, 49, 52, 53, 0, 0, 0, 0, 0,
    0, 0, 54, 55, 56, 0, 57, 0, 0, 0, 0, 0, 58,
    59, 0, 60, 61, 62, 63, 64, 0, 0, 65, 66, 67, 68,
    69, 70, 71, 72, 73, 74, 75, 76, 77, 78, 80, 80, 80,
];
