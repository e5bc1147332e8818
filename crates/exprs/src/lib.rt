// Expressions of a contract image, in one pass: the counts with the first one in a tail of the image and its size, or its fault. No
// tree is made and nothing is copied. What an answer is a picture of stands in specs/, the laws in proofs/.
#![tactic(auto)]

ghost use Rattle.std.specs.Prelude.{◌≡◌, List, ℕ, ◌+◌, ◌≤◌, IfOk, OnOk, false, length};
ghost use Rattle.definition.specs.Fault.{refuse};
ghost use Rattle.definition.specs.Reading.{code_field, number_field, string_field, fields, node_of, expr};
ghost use Rattle.exprs.specs.Answers.{extent, part_of, sequence, arity_of};

mod item;
mod tail;

use definition::{Fault, Kind, Tag, Tally};
pub use item::{Item, begin, entered};
pub use tail::Tail;

// What was read of an item, or of several: the counts with it, and the offset at which it ends.
#[derive(Clone, Copy)]
pub struct Extent {
    pub tally: Tally,
    pub size: usize,
}

impl Extent {
    // What was read, with the next item behind it.
    pub fn followed_by(self, next: Extent) -> Extent
        requires { self.size + next.size ≤ 32768 }
        ensures { result ≡ extent next.tally (self.size + next.size) }
    {
        Extent {
            tally: next.tally,
            size: self.size + next.size,
        }
    }
}

// One test: refused with the fault if it holds.
#[tactic(auto, unfolding(definition::specs::Fault::refuse))]
pub fn refuse(test: bool, fault: Fault) -> Result<(), Fault>
    ensures is { result ≡ refuse test fault }
    ensures passed { OnOk result (test ≡ false) }
{
    if test { Err(fault) } else { Ok(()) }
}

// One byte after the location, below n: an op, a flag or a boolean. Otherwise the fault is of the given kind.
#[tactic(auto, using(crate::proofs::Steps::steps), unfolding(definition::specs::Reading::code_field))]
pub fn code_field(tail: Tail, n: usize, kind: Kind) -> Result<usize, Fault>
    ensures is { result ≡ code_field kind n tail.entry.at tail.entry.bytes.now }
    ensures within { IfOk result (λ end. end ≤ length tail.entry.bytes.now) }
{
    tail.reaches(18, 17)?;
    refuse(n <= ints::wide(tail.bytes[17]), tail.fault(kind, 17))?;
    Ok(18)
}

// A number of 64 bits after the location.
#[tactic(auto, using(crate::proofs::Steps::steps), unfolding(definition::specs::Reading::number_field))]
fn number_field(tail: Tail) -> Result<usize, Fault>
    ensures is { result ≡ number_field tail.entry.at tail.entry.bytes.now }
    ensures within { IfOk result (λ end. end ≤ length tail.entry.bytes.now) }
{
    tail.reaches(25, 17)?;
    Ok(25)
}

// A length of 16 bits after the location, and as many bytes.
#[tactic(auto, using(crate::proofs::Steps::steps), unfolding(definition::specs::Reading::string_field))]
fn string_field(tail: Tail) -> Result<usize, Fault>
    ensures is { result ≡ string_field tail.entry.at tail.entry.bytes.now }
    ensures within { IfOk result (λ end. end ≤ length tail.entry.bytes.now) }
{
    tail.reaches(19, 17)?;
    let end = 19 + ints::two(tail.bytes, 17);
    tail.reaches(end, 19)?;
    Ok(end)
}

// The fields of an expression after its location: where its operands begin. Kept: an arm for each tag, here and in `arity`, where some are
// alike: of tags that share an arm the compiled code asks once more which it is.
#[tactic(auto, unfolding(definition::specs::Reading::fields))]
fn fields(tag: Tag, tail: Tail) -> Result<usize, Fault>
    ensures is { result ≡ fields tag tail.entry.at tail.entry.bytes.now }
    ensures within { 17 ≤ length tail.entry.bytes.now → IfOk result (λ end. end ≤ length tail.entry.bytes.now) }
{
    match tag {
        Tag::Number => number_field(tail),
        Tag::Boolean => code_field(tail, 2, Kind::BadBoolean),
        Tag::Text => string_field(tail),
        Tag::Logical => code_field(tail, 2, Kind::OpUnknown),
        Tag::Hash => code_field(tail, 2, Kind::OpUnknown),
        Tag::Compare => code_field(tail, 8, Kind::OpUnknown),
        Tag::Unary => code_field(tail, 5, Kind::OpUnknown),
        Tag::Binary => code_field(tail, 4, Kind::OpUnknown),
        Tag::Variable => Ok(17),
        Tag::Checksig => Ok(17),
        Tag::Length => Ok(17),
    }
}

// How many operands a tag has.
#[tactic(auto, unfolding(definition::specs::Reading::node_of))]
fn arity(tag: Tag) -> usize
    ensures { (s : List ℕ) → result ≡ arity_of (node_of tag s) }
{
    match tag {
        Tag::Variable => 0,
        Tag::Number => 0,
        Tag::Boolean => 0,
        Tag::Text => 0,
        Tag::Logical => 2,
        Tag::Compare => 2,
        Tag::Unary => 1,
        Tag::Binary => 2,
        Tag::Hash => 1,
        Tag::Checksig => 0,
        Tag::Length => 1,
    }
}

// The operands of an item whose fields were read, one after the other.
#[cycle(expr_operands)]
#[tactic(auto, using(crate::proofs::Nested::nested))]
fn operands(tail: Tail, mut read: Extent, many: usize, level: usize) -> Result<Extent, Fault>
    requires { read.size ≤ length tail.bytes.now }
    ensures is { result ≡ sequence (expr level) many read tail.entry.at tail.entry.bytes.now }
    ensures within { IfOk result (λ end. end.size ≤ length tail.entry.bytes.now) }
{
    for _ in 0..many {
        let operand = expr(tail.rest(read.size), level, read.tally)?;
        read = read.followed_by(operand);
    }
    Ok(read)
}

// One expression from its tag on, with so many levels left and so many items counted before it.
#[cycle(expr_operands)]
#[tactic(auto, using(crate::proofs::Nested::nested))]
pub fn expr(tail: Tail, level: usize, tally: Tally) -> Result<Extent, Fault>
    ensures is { result ≡ part_of (expr level tally tail.entry.at tail.entry.bytes.now) }
    ensures within { IfOk result (λ read. read.size ≤ length tail.entry.bytes.now) }
{
    let tag: Tag = begin(tail, level, tally.nodes)?;
    let read = Extent {
        tally: Tally {
            stmts: tally.stmts,
            nodes: tally.nodes + 1,
        },
        size: fields(tag, tail)?,
    };
    operands(tail, read, arity(tag), level - 1)
}
