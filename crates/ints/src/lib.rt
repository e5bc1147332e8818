// Numbers out of bytes, and signed 64-bit arithmetic that is checked: no operation here ever leaves its width.
// What each function gives is said by the definitions of crate definition (specs/Bytes.antt, specs/Folding.antt). The proof of a
// function stands in proofs/NAME/ (where there is none the checker finds it); the laws that the proofs cite in
// proofs/Ranges.antt (what the checked methods of std give) and proofs/Halves.antt (two's complement).
#![tactic(auto)]

ghost use Rattle.std.specs.Prelude.{◌≡◌, ◌+◌, ◌<◌, ◌≤◌, length, ℤ, FitsSigned, ◌+ℤ◌};
ghost use Rattle.std.specs.Int.{w64};
ghost use Rattle.std.specs.Option.{SomeIff};
ghost use Rattle.definition.specs.Bytes.{be16, be32, be64, signed};
ghost use Rattle.definition.specs.Folding.{kept, flag, is_zero, unary_of, binary_of, compare_of, logical_of};

use definition::Folded;

// ---- numbers out of bytes
// Kept: `from_be_bytes` wants its bytes as an array, so eight of them would be written out one by one, or a `try_into` would bring a
// branch that never comes; these are the definition's be16, be32 and be64 word for word, and stand in the path of reading.

// A byte as a number.
pub fn wide(b: u8) -> usize
    ensures { (result ≡ b) × (result < 256) }
{
    usize::from(b)
}

// The number of 16 bits at an offset.
#[tactic(auto, unfolding(definition::specs::Bytes::be16))]
pub fn two(part: &[u8], at: usize) -> usize
    requires { at + 2 ≤ length part.now }
    ensures { (result ≡ be16 part.now at) × (result < 65536) }
{
    wide(part[at]) * 256 + wide(part[at + 1])
}

// The number of 32 bits at an offset.
#[tactic(auto, unfolding(definition::specs::Bytes::be32))]
pub fn four(part: &[u8], at: usize) -> usize
    requires { at + 4 ≤ length part.now }
    ensures { (result ≡ be32 part.now at) × (result < 4294967296) }
{
    two(part, at) * 65536 + two(part, at + 2)
}

// The number of 64 bits at an offset.
#[tactic(auto, unfolding(definition::specs::Bytes::be64))]
pub fn eight(part: &[u8], at: usize) -> u64
    requires { at + 8 ≤ length part.now }
    ensures { result ≡ be64 part.now at }
{
    four(part, at) as u64 * 4294967296 + four(part, at + 4) as u64
}

// The signed number that 64 bits stand for.
pub fn signed(n: u64) -> i64
    ensures { result ≡ signed n }
{
    n.cast_signed()
}

// ---- one operation, or that it leaves 64 bits

// What a checked operation came to: its value, or that it leaves 64 bits.
fn kept(checked: Option<i64>) -> Folded
    ensures { (z : ℤ) → SomeIff checked (FitsSigned w64 z) z → result ≡ kept z }
{
    match checked {
        Some(v) => Folded::Value(v),
        None => Folded::Overflow(0),
    }
}

// The sum.
fn sum(a: i64, b: i64) -> Folded
    ensures { result ≡ kept (a +ℤ b) }
{
    kept(a.checked_add(b))
}

// ---- operations that stay within 64 bits

// Whether the number counts as false.
pub fn is_zero(v: i64) -> bool
    ensures { result ≡ is_zero v }
{
    v == 0
}

// A truth value as a number, 1 or 0.
#[tactic(auto, unfolding(definition::specs::Folding::flag))]
pub fn truth(b: bool) -> Folded
    ensures { result ≡ Folded.Value (flag b) }
{
    Folded::Value(i64::from(b))
}

// ---- the operations by their numbers in the image
// Kept: the numbers are the image's bytes, and the answers are promised for every byte: past the table an op counts as the last.

// Of one operand: 0 Add, 1 Sub (by 1 each), 2 Negate, 3 Abs, 4 Not.
pub fn unary(op: u8, v: i64) -> Folded
    ensures { result ≡ unary_of op v }
{
    match op {
        0 => sum(v, 1),
        1 => kept(v.checked_sub(1)),
        2 => kept(v.checked_neg()),
        3 => kept(v.checked_abs()),
        _ => truth(is_zero(v)),
    }
}

// Of two operands: 0 Add, 1 Sub, 2 Max, 3 Min.
pub fn binary(op: u8, a: i64, b: i64) -> Folded
    ensures { result ≡ binary_of op a b }
{
    match op {
        0 => sum(a, b),
        1 => kept(a.checked_sub(b)),
        2 => Folded::Value(a.max(b)),
        _ => Folded::Value(a.min(b)),
    }
}

// A comparison: 0 Equal, 1 NotEqual, 2 Greater, 3 GreaterOrEqual, 4 Less, 5 LessOrEqual, 6 NumEqual, 7 NumNotEqual.
pub fn compare(op: u8, a: i64, b: i64) -> bool
    ensures { result ≡ compare_of op a b }
{
    match op {
        0 => a == b,
        1 => a != b,
        2 => a > b,
        3 => a >= b,
        4 => a < b,
        5 => a <= b,
        6 => a == b,
        _ => a != b,
    }
}

// 0 Or, 1 And, of numbers that are true unless 0.
pub fn logical(op: u8, a: i64, b: i64) -> bool
    ensures { result ≡ logical_of op a b }
{
    let x = !is_zero(a);
    let y = !is_zero(b);
    match op {
        0 => x || y,
        _ => x && y,
    }
}
