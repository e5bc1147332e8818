// Text that is written piece by piece, a piece or a number in decimal: at a place of a lent buffer, or behind what is written; and the whole of it, to
// the front of a lent buffer. specs/Text.antt says what that leaves; the laws stand in proofs/Laws.antt, the proof of a function in proofs/NAME/.
#![tactic(auto)]

ghost use Rattle.std.specs.Prelude.{◌≡◌, ◌+◌, ◌≤◌, ◌++◌, length};
ghost use Rattle.text.specs.Text.{Wrote, decimal_of};

use arrayvec::ArrayVec;

// What is written, of which there is room for so many bytes.
pub type Text<const N: usize> = ArrayVec<u8, N>;

// Puts a piece at `at` of a lent buffer: the place after it.
pub fn append(out: &mut [u8], at: usize, piece: &[u8]) -> usize
    requires { at + length piece.now ≤ length out.old }
    ensures { Wrote out.old at piece.now out.new result }
{
    out[at..at + piece.len()].copy_from_slice(piece);
    at + piece.len()
}

// Puts a piece behind what is written.
pub fn push_piece<const N: usize>(text: &mut Text<N>, piece: &[u8])
    requires { length text.old.items + length piece.now ≤ N }
    ensures { text.new.items ≡ text.old.items ++ piece.now }
{
    text.try_extend_from_slice(piece).unwrap();
}

// A number in decimal.
#[tactic(auto, using(crate::proofs::Laws::decimal_one, crate::proofs::Laws::decimal_more, crate::proofs::Laws::tenth_most))]
fn digits(n: u64) -> Text<20>
    ensures { result.items ≡ decimal_of n }
{
    let mut text = if 10 <= n { digits(n / 10) } else { Text::new() };
    text.push(48 + (n % 10) as u8);
    text
}

// Puts a number in decimal at `at` of a lent buffer: the place after it.
pub fn decimal(out: &mut [u8], at: usize, n: u64) -> usize
    requires { at + length (decimal_of n) ≤ length out.old }
    ensures { Wrote out.old at (decimal_of n) out.new result }
{
    append(out, at, digits(n).as_slice())
}

// Puts a number in decimal behind what is written.
pub fn push_decimal<const N: usize>(text: &mut Text<N>, n: u64)
    requires { length text.old.items + length (decimal_of n) ≤ N }
    ensures { text.new.items ≡ text.old.items ++ decimal_of n }
{
    push_piece(text, digits(n).as_slice());
}

// Puts a text to the front of a buffer: how many bytes it has.
pub fn copy_out(text: &[u8], out: &mut [u8]) -> usize
    requires { length text.now ≤ length out.old }
    ensures { Wrote out.old 0 text.now out.new result }
{
    append(out, 0, text)
}
