// The vocabulary of the examiner: what its answers are made of, and document 01's table of refusals (table.rt). What each of
// them means is said in specs/, and the laws about that stand in proofs/.
#![tactic(auto)]

mod table;

// Where an item stands in the contract's source text.
#[derive(Clone, Copy, Debug, PartialEq, Eq)]
pub struct Location {
    pub start: u32,
    pub end: u32,
    pub line: u32,
    pub column: u32,
}

// ---- what can be wrong

// The kinds of faults. The paper's number and place for each stand apart from them, in specs/Table.antt.
#[derive(Clone, Copy, Debug, PartialEq, Eq)]
pub enum Kind {
    // the image as a whole
    TooLong,
    NotMarked,
    OtherVersion,
    BadMode,
    LeftOver,
    // an item or a field of it
    TagMissing,
    TagUnknown,
    TooDeep,
    TooMany,
    CutShort,
    OpUnknown,
    BadFlag,
    BadBoolean,
    // what the items say together
    TooManyPaths,
    Overflows,
    // what a call was lent besides the image
    CheckpointHead,
    CheckpointVersion,
    CheckpointPlace,
    BufferShort,
    NoSuchPath,
}

// A fault: its kind, the offset of the item that has it, and the first byte of the field that is cut or bad.
#[derive(Clone, Copy, Debug, PartialEq, Eq)]
pub struct Fault {
    pub kind: Kind,
    pub item: usize,
    pub field: usize,
}

// What a caller is told of a fault.
#[derive(Clone, Copy, Debug, PartialEq, Eq)]
pub struct Refusal {
    pub number: u32,
    pub place: usize,
}

// ---- reading

// What was counted so far.
#[derive(Clone, Copy, Debug, PartialEq, Eq)]
pub struct Tally {
    pub stmts: usize,
    pub nodes: usize,
}

// The kinds of statements.
#[derive(Clone, Copy, Debug, PartialEq, Eq)]
pub enum Sort {
    If,
    Locktime,
    Verify,
    Return,
}

// The kinds of expressions.
#[derive(Clone, Copy, Debug, PartialEq, Eq)]
pub enum Tag {
    Variable,
    Number,
    Boolean,
    Text,
    Logical,
    Compare,
    Unary,
    Binary,
    Hash,
    Checksig,
    Length,
}

// An if's fields: how many statements its blocks have, and where its condition begins. No else is one of no statements.
#[derive(Clone, Copy, Debug, PartialEq, Eq)]
pub struct Forks {
    pub yes: usize,
    pub no: usize,
    pub from: usize,
}

// What the head of an image says.
#[derive(Clone, Copy, Debug, PartialEq, Eq)]
pub struct Head {
    pub mode: u8,
    pub count: usize,
}

// ---- folding

// Kept, though a Result of an Option has its shape: document 01 names the form, "value, none or overflow".
// A value; no value; or the distance from the expression's own tag to that of the operation that leaves 64 bits.
#[derive(Clone, Copy, Debug, PartialEq, Eq)]
pub enum Folded {
    Value(i64),
    Nothing,
    Overflow(usize),
}

// ---- verdicts and places

// How many Free atoms the security search takes on, and how many atoms of both kinds the liveness search.
#[derive(Clone, Copy, Debug, PartialEq, Eq)]
pub struct Bounds {
    pub free: u32,
    pub all: u32,
}

// Where an examination stands: the phase (0 security, 1 liveness), the path, the next mask, and how many assignments
// were tried before it.
#[derive(Clone, Copy, Debug, PartialEq, Eq)]
pub struct Place {
    pub phase: u8,
    pub path: u16,
    pub mask: u32,
    pub count: u64,
}

// Why a path needs no signature: its Free atoms are more than the security search takes on, or an assignment of them satisfies it. No examination
// gives another number (proofs/Reasons.antt); one that stands in an outcome of a caller's own is told as it is.
#[derive(Clone, Copy, Debug, PartialEq, Eq)]
pub enum Reason {
    OverBound,
    Satisfied,
    Other(u8),
}

// The verdicts, each with its own data.
#[derive(Clone, Copy, Debug, PartialEq, Eq)]
pub enum Verdict {
    Ok,
    NoSigRequired {
        reason: Reason,
        path: u16,
        location: Location,
        mask: u32,
    },
    UselessSig {
        path: u16,
        location: Location,
        mask: u32,
    },
    DeadPath {
        location: Location,
    },
}

// An end: the verdict, how many assignments were tried in all, and the place at which it was found.
#[derive(Clone, Copy, Debug, PartialEq, Eq)]
pub struct Outcome {
    pub verdict: Verdict,
    pub total: u64,
    pub place: Place,
}

// ---- the answers that hold no examination; each is told as a Result, whose error is the refusal

// The atoms of one path.
#[derive(Clone, Copy, Debug, PartialEq, Eq)]
pub struct PathAtoms {
    pub sigs: usize,
    pub frees: usize,
}

// Whether one path can be satisfied: by which mask first.
#[derive(Clone, Copy, Debug, PartialEq, Eq)]
pub enum Satisfiable {
    OverBound,
    Mask(u32),
    Never,
}
