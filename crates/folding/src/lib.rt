// Walking an expression of an accepted image: how many bytes it has, what it holds, and what its literals fold to. An `Expression` is
// a part of the image that starts at an expression's tag, and its methods speak of the expression with which that part begins
// (definition's specs/Begins.antt); that there is one is an invariant. The laws stand in proofs/: one view of the tags for all walkers
// in View.antt, containment in Containing.antt, folding in Values.antt. The proof of a method stands in proofs/Expression/NAME/, that of
// a recursive one in proofs/Expression/+NAME/; where there is none the checker finds it.
#![tactic(auto)]

ghost use Rattle.std.specs.Prelude.{◌≡◌, ℕ, ◌+◌, ◌≤◌, ◌<◌, length, get_or, drop};
ghost use Rattle.definition.specs.Tree.{Expr};
ghost use Rattle.definition.specs.Writing.{size_e};
ghost use Rattle.definition.specs.Reading.{location_of};
ghost use Rattle.definition.specs.Folding.{fold, on_value, contains, contains_checksig, contains_variable};
ghost use Rattle.definition.specs.Begins.{Begins, Holds};
ghost use Rattle.folding.specs.Shape.{shape_of};
ghost use Rattle.folding.specs.Operation.{two_of};

use definition::{Folded, Location};

// How many operands an expression has, and where its only one begins; of two the first begins at 18.
#[derive(Clone, Copy)]
pub enum Shape {
    Leaf,
    One(usize),
    Two,
}

// The bytes from offset n on.
pub fn rest(part: &[u8], n: usize) -> &[u8]
    requires { n ≤ length part.now }
    ensures { result.now ≡ drop n part.now }
{
    &part[n..]
}

// The location of the item that begins the part, statement or expression.
#[tactic(auto, unfolding(definition::specs::Reading::location_of))]
pub fn location_of(part: &[u8]) -> Location
    requires { 17 ≤ length part.now }
    ensures { result ≡ location_of part.now }
{
    Location {
        start: ints::four(part, 1) as u32,
        end: ints::four(part, 5) as u32,
        line: ints::four(part, 9) as u32,
        column: ints::four(part, 13) as u32,
    }
}

// The operands of an expression with that tag.
#[tactic(auto, unfolding(crate::specs::Shape::shape_of))]
pub fn shape_of(tag: u8) -> Shape
    ensures { result ≡ shape_of tag }
{
    match tag {
        20 => Shape::Two,
        21 => Shape::Two,
        22 => Shape::One(18),
        23 => Shape::Two,
        24 => Shape::One(18),
        26 => Shape::One(17),
        _ => Shape::Leaf,
    }
}

// The bytes of an accepted image from the tag of one of its expressions on.
#[derive(Clone, Copy)]
pub struct Expression<'a> {
    pub bytes: &'a [u8],
    ghost holds: { ∥ Holds bytes.now ∥₁ },
}

impl<'a> Expression<'a> {
    // The expression that begins n bytes into the part.
    pub fn at(part: &'a [u8], n: usize) -> Expression<'a>
        requires { (n ≤ length part.now) × Holds (drop n part.now) }
        ensures { result.bytes.now ≡ drop n part.now }
    {
        Expression {
            bytes: rest(part, n),
        }
    }

    // Its only operand, which begins at `from`.
    fn only(self, from: usize) -> Expression<'a>
        requires { shape_of (get_or self.bytes.now 0 0) ≡ Shape.One from }
        ensures { (result.bytes.now ≡ drop from self.entry.bytes.now) × (from + length result.bytes.now ≡ length self.entry.bytes.now) × (length result.bytes.now < length self.entry.bytes.now) }
    {
        Expression {
            bytes: rest(self.bytes, from),
        }
    }

    // The first of its two operands.
    fn left(self) -> Expression<'a>
        requires { shape_of (get_or self.bytes.now 0 0) ≡ Shape.Two }
        ensures { (result.bytes.now ≡ drop 18 self.entry.bytes.now) × (18 + length result.bytes.now ≡ length self.entry.bytes.now) × (length result.bytes.now < length self.entry.bytes.now) }
    {
        Expression {
            bytes: rest(self.bytes, 18),
        }
    }

    // The second, behind the n bytes of the first. (It is cut from `left`, so that the last call of a walker is turned into a loop.)
    fn right(self, left: Expression<'a>, n: usize) -> Expression<'a>
        requires { (shape_of (get_or self.bytes.now 0 0) ≡ Shape.Two) × (left.bytes.now ≡ drop 18 self.bytes.now) × ((e : Expr) → Begins e left.bytes.now → n ≡ size_e e) }
        ensures { (result.bytes.now ≡ drop (18 + n) self.entry.bytes.now) × (18 + n + length result.bytes.now ≡ length self.entry.bytes.now) × (length result.bytes.now < length self.entry.bytes.now) }
    {
        Expression {
            bytes: rest(left.bytes, n),
        }
    }

    // How many bytes an expression without operands has.
    #[tactic(auto, using(crate::proofs::View::tagged_known))]
    fn leaf_size(self) -> usize
        requires { shape_of (get_or self.bytes.now 0 0) ≡ Shape.Leaf }
        ensures { (e : Expr) → Begins e self.entry.bytes.now → result ≡ size_e e }
    {
        match self.bytes[0] {
            17 => 25,
            18 => 18,
            19 => 19 + ints::two(self.bytes, 17),
            _ => 17,
        }
    }

    // How many bytes it has.
    #[tactic(auto, using(crate::proofs::View::tagged_known))]
    pub fn size(self) -> usize
        ensures { (e : Expr) → Begins e self.entry.bytes.now → result ≡ size_e e }
    {
        match shape_of(self.bytes[0]) {
            Shape::Leaf => self.leaf_size(),
            Shape::One(from) => from + self.only(from).size(),
            Shape::Two => {
                let left = self.left();
                let n = left.size();
                18 + n + self.right(left, n).size()
            }
        }
    }

    // Whether a leaf of the tag `what` stands anywhere in it.
    #[tactic(auto, using(crate::proofs::View::tagged_known))]
    fn contains(self, what: u8) -> bool
        ensures { (e : Expr) → Begins e self.entry.bytes.now → result ≡ contains what e }
    {
        match shape_of(self.bytes[0]) {
            Shape::Leaf => what == self.bytes[0],
            Shape::One(from) => self.only(from).contains(what),
            Shape::Two => {
                let left = self.left();
                if left.contains(what) {
                    return true;
                }
                self.right(left, left.size()).contains(what)
            }
        }
    }

    // Whether a checksig stands anywhere in it.
    pub fn contains_checksig(self) -> bool
        ensures { (e : Expr) → Begins e self.entry.bytes.now → result ≡ contains_checksig e }
    {
        self.contains(25)
    }

    // Whether a variable stands anywhere in it.
    pub fn contains_variable(self) -> bool
        ensures { (e : Expr) → Begins e self.entry.bytes.now → result ≡ contains_variable e }
    {
        self.contains(16)
    }

    // The value of an expression without operands: of a number or a boolean, and none of the others.
    #[tactic(auto, using(crate::proofs::View::tagged_known))]
    fn literal(self) -> Folded
        requires { shape_of (get_or self.bytes.now 0 0) ≡ Shape.Leaf }
        ensures { (e : Expr) → Begins e self.entry.bytes.now → result ≡ fold e }
    {
        match self.bytes[0] {
            17 => Folded::Value(ints::signed(ints::eight(self.bytes, 17))),
            18 => ints::truth(self.bytes[17] == 1),
            _ => Folded::Nothing,
        }
    }

    // Its value, left before right; of a hash or a length there is none, and its operand is not worked out.
    #[tactic(auto, using(crate::proofs::View::tagged_known))]
    pub fn eval_int(self) -> Folded
        ensures { (e : Expr) → Begins e self.entry.bytes.now → result ≡ fold e }
    {
        match shape_of(self.bytes[0]) {
            Shape::Leaf => self.literal(),
            Shape::One(from) => {
                if self.bytes[0] != 22 {
                    return Folded::Nothing;
                }
                let x = self.only(from).eval_int();
                let Folded::Value(v) = x else {
                    return further(x, from);
                };
                ints::unary(self.bytes[17], v)
            }
            Shape::Two => {
                let left = self.left();
                let x = left.eval_int();
                let Folded::Value(v) = x else {
                    return further(x, 18);
                };
                let n = left.size();
                let y = self.right(left, n).eval_int();
                let Folded::Value(w) = y else {
                    return further(y, 18 + n);
                };
                of_two(self.bytes[0], self.bytes[17], v, w)
            }
        }
    }
}

// What an operand without a value makes of the whole: an overflow lies n bytes further on.
#[tactic(auto, unfolding(definition::specs::Folding::on_value))]
fn further(x: Folded, n: usize) -> Folded
    requires { (d : ℕ) → x ≡ Folded.Overflow d → n + d < 18446744073709551616 }
    ensures { result ≡ on_value n x Folded.Value }
{
    match x {
        Folded::Value(_) => x,
        Folded::Nothing => x,
        Folded::Overflow(d) => Folded::Overflow(n + d),
    }
}

// The operation of two values that an expression with that tag is.
#[tactic(auto, unfolding(crate::specs::Operation::two_of))]
fn of_two(tag: u8, op: u8, v: i64, w: i64) -> Folded
    ensures { result ≡ two_of tag op v w }
{
    match tag {
        20 => ints::truth(ints::logical(op, v, w)),
        21 => ints::truth(ints::compare(op, v, w)),
        _ => ints::binary(op, v, w),
    }
}

// ---- the same, of a part for which the caller shows that an expression begins there
// Kept while callers above hold parts: they go once those hold an `Expression`.

// How many bytes the expression has.
pub fn size(part: &[u8]) -> usize
    requires { Holds part.now }
    ensures { (e : Expr) → Begins e part.now → result ≡ size_e e }
{
    Expression { bytes: part }.size()
}

// Whether a checksig stands anywhere in the expression.
pub fn contains_checksig(part: &[u8]) -> bool
    requires { Holds part.now }
    ensures { (e : Expr) → Begins e part.now → result ≡ contains_checksig e }
{
    Expression { bytes: part }.contains_checksig()
}

// Whether a variable stands anywhere in the expression.
pub fn contains_variable(part: &[u8]) -> bool
    requires { Holds part.now }
    ensures { (e : Expr) → Begins e part.now → result ≡ contains_variable e }
{
    Expression { bytes: part }.contains_variable()
}

// The value of the expression.
pub fn eval_int(part: &[u8]) -> Folded
    requires { Holds part.now }
    ensures { (e : Expr) → Begins e part.now → result ≡ fold e }
{
    Expression { bytes: part }.eval_int()
}
