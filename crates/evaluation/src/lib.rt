// The truth of a formula at one assignment: the only thing that the search asks. `evaluate` reads the words that the crate formula writes
// (specs/Words.antt), and answers for any words at all. What a formula is, and when an assignment satisfies it, is said in definition's
// specs/Formula.antt. The laws stand in proofs/: of reading words in Decoding.antt, of the functions' answers in Assignments.antt. The proof
// of a function stands in proofs/NAME/, that of the recursive one in proofs/+value/; where there is none the checker finds it.
#![tactic(auto)]

ghost use Rattle.std.specs.Prelude.{◌≡◌, true, false, ℕ, ◌/◌, ◌≤◌, ◌<◌, length};
ghost use Rattle.definition.specs.Formula.{sig_value, free_value, satisfies};
ghost use Rattle.definition.specs.Formula.{bit as bit_of};
ghost use Rattle.evaluation.specs.Words.{formula_of};
ghost use Rattle.evaluation.specs.Values.{is_leaf, value_at};

// Bit i of the number; past its width it is false.
#[tactic(auto, using(crate::proofs::Assignments::bit_past), unfolding(definition::specs::Formula::bit))]
fn bit(bits: u32, i: usize) -> bool
    ensures { result ≡ bit_of bits i }
{
    // Kept: measured, as one && this takes up to a tenth more time for each assignment.
    if i < 32 {
        return (bits >> i) % 2 == 1;
    }
    false
}

// The number in a word: an atom's, or how many words a left operand has.
fn number(w: u32) -> usize
    ensures { (result ≡ w / 8) × (result < 536870912) }
{
    (w / 8) as usize
}

// Whether word i has no operands: an atom, a constant, or none at all.
fn is_leaf(code: &[u32], i: usize) -> bool
    ensures { result ≡ is_leaf code.now i }
{
    match code.get(i) {
        Some(w) => *w % 8 < 2 || 4 < *w % 8,
        None => true,
    }
}

// The value of word i, which has no operands: Sig k is bit k of sigs, Free k bit k of frees.
// Kept: sigs and frees go together through this and `value` alone, where a struct of the two would be no plainer.
fn leaf(code: &[u32], i: usize, sigs: u32, frees: u32) -> bool
    requires { is_leaf code.now i ≡ true }
    ensures { result ≡ value_at code.now sigs frees i }
{
    let Some(w) = code.get(i) else {
        return false;
    };
    match *w % 8 {
        1 => true,
        5 => bit(sigs, number(*w)),
        6 => bit(frees, number(*w)),
        _ => false,
    }
}

// The first word from i on that has no operands: where going on to the left operand ends.
fn foot(code: &[u32], i: usize) -> usize
    ensures { (i ≤ result) × (is_leaf code.now result ≡ true) × ((k : ℕ) → i ≤ k → k < result → is_leaf code.now k ≡ false) }
{
    // Kept: a position in code[i..] asks what is to be where i is past the end; this asks nothing.
    let mut j = i;
    while !is_leaf(code, j) {
        j += 1;
    }
    j
}

// The value of the formula that begins at word i: worked out from its foot back to word i, with a call for a right operand that matters. A
// right operand is a level deeper, so on a path of an accepted image at most 32 calls stand within each other.
fn value(code: &[u32], i: usize, sigs: u32, frees: u32) -> bool
    requires { length code.now ≤ 2049 }
    ensures { result ≡ value_at code.now sigs frees i }
{
    let end = foot(code, i);
    let mut v = leaf(code, end, sigs, frees);
    for j in (i..end).rev() {
        let w = code[j];
        if w % 8 == 2 {
            v = !v;
        } else if v == (w % 8 == 3) {
            v = value(code, j + 1 + number(w), sigs, frees);
        }
    }
    v
}

// The number whose bit i is Sig i's value: in phase 0 none is true.
#[tactic(auto, using(crate::proofs::Assignments::by_phase))]
fn sig_bits(phase: u8, mask: u32) -> u32
    ensures { (i : ℕ) → bit_of result i ≡ sig_value phase mask i }
{
    if phase == 0 { 0 } else { mask }
}

// The number whose bit j is Free j's value: in any phase but 0 those bits stand above the Sig atoms'.
#[tactic(auto, using(crate::proofs::Assignments::by_phase))]
fn free_bits(phase: u8, sigs: usize, mask: u32) -> u32
    ensures { (j : ℕ) → bit_of result j ≡ free_value phase sigs mask j }
{
    if phase == 0 {
        return mask;
    }
    if sigs < 32 {
        return mask >> sigs;
    }
    0
}

// Whether the assignment `mask` satisfies the formula with which the words begin: in phase 0 every Sig is false and Free j is bit j, in any
// other Sig i is bit i and Free j bit sigs + j. A path's pieces are joined by and, one behind the other: the first that is false ends it.
pub fn evaluate(code: &[u32], phase: u8, sigs: usize, mask: u32) -> bool
    requires { length code.now ≤ 2049 }
    ensures { result ≡ satisfies (formula_of code.now) phase sigs mask }
{
    let s = sig_bits(phase, mask);
    let f = free_bits(phase, sigs, mask);
    let mut i = 0;
    while let Some(w) = code.get(i) {
        if *w % 8 != 3 {
            return value(code, i, s, f);
        }
        if !value(code, i + 1, s, f) {
            return false;
        }
        i += 1 + number(*w);
    }
    false
}
