// The success condition of one path. `translate` is handed a part of the image that starts at the expression's tag and `path_formula` a
// path's pieces (crate paths); both write the formula's words (the crate evaluation's specs/Words.antt) and the location of each Sig
// atom (specs/Areas.antt) into an area of the caller's. What an expression's formula is, is said in definition's specs/Formula.antt. The laws stand
// in proofs/: an expression's first bytes in Plans.antt, strings in Strings.antt, locations in Rows.antt, how much is added in Growing.antt, what
// is told and left in Results.antt, the operands' calls in Operands.antt, pieces in Pieces.antt, Checksigs.antt and Joining.antt; for callers,
// that a path's pieces are what is asked for in Holding.antt, and how much is written and what the words say in Truth.antt. The proof of a
// function stands in proofs/NAME/, that of the two that call each other in proofs/+sided_translate/; where there is none the checker finds it.
#![tactic(auto)]

ghost use Rattle.std.specs.Prelude.{length, replicate, ◌≡◌, List, ◌+◌, ◌≤◌, ◌<◌, get_or, Err};
ghost use Rattle.definition.specs.Tree.{Expr};
ghost use Rattle.definition.specs.Begins.{Begins, Holds};
ghost use Rattle.definition.specs.Paths.{Piece, any_checksig};
ghost use Rattle.definition.specs.Formula.{Const, Atoms, made, no_atoms, literal_of, pushed_truth, by_fold, path_formula};
ghost use Rattle.definition.specs.Formula.{translate as meaning};
ghost use Rattle.evaluation.specs.Words.{join_word};
ghost use Rattle.formula.specs.Plans.{beside_of, plan_of};
ghost use Rattle.formula.specs.Areas.{one_more, Rows, SigFor, Tied, Ready, SidedReady, Forms, on_side, moved, Pieced, PathHolds};

use definition::{Folded, Location};

// How an expression is translated: as a whole; as its operand that begins so many bytes on (true), or that one's negation (false); or as two
// joined by an op.
#[derive(Clone, Copy)]
pub enum Plan {
    Whole,
    One(usize, bool),
    Two(u8),
}

// How much is written: words, Sig atoms and Free atoms.
#[derive(Clone, Copy)]
pub struct Counts {
    pub words: usize,
    pub sigs: usize,
    pub frees: usize,
}

impl Counts {
    // So much and one word more.
    fn one_more(self) -> Counts
        requires { self.words < 2049 }
        ensures { result ≡ one_more self }
    {
        Counts {
            words: self.words + 1,
            ..self
        }
    }
}

// Where literal arithmetic leaves 64 bits, counted from the first byte of what was handed in.
#[derive(Clone, Copy, Debug, PartialEq, Eq)]
pub struct Overflow {
    pub at: usize,
}

// The work area of a path's formula: its words, and the location of each Sig atom.
// Kept: arrays, and Counts beside them. The counts are what callers keep of a path, and an overflow leaves scratch here that no count tells.
#[derive(Drop)]
pub struct Area {
    pub code: [u32; 2049],
    pub sigs: [Location; 1024],
}

impl Area {
    // An area with nothing written.
    pub fn new() -> Area
        ensures code { result.code ≡ replicate 2049 0 }
        ensures sigs { result.sigs ≡ replicate 1024 (record { start = 0; end = 0; line = 0; column = 0 }) }
    {
        Area {
            code: [0; 2049],
            sigs: [Location {
                start: 0,
                end: 0,
                line: 0,
                column: 0,
            }; 1024],
        }
    }
}

// ---- words

// The word of a join by that op, whose left operand has n words.
fn join_word(op: u8, n: usize) -> u32
    requires { n ≤ 2049 }
    ensures { result ≡ join_word op n }
{
    if op == 0 {
        return (n * 8 + 4) as u32;
    }
    (n * 8 + 3) as u32
}

// ---- strings

// The truth of pushed bytes, by the mode.
fn pushed_truth(mode: u8, bytes: &[u8]) -> bool
    ensures { result ≡ pushed_truth mode bytes.now }
{
    if mode == 0 {
        return !bytes.is_empty();
    }
    bytes.iter().any(|b| *b != 0)
}

// The truth of the string that begins the part.
#[tactic(auto, using(crate::proofs::Strings::string_fits))]
fn string_truth(part: &[u8], mode: u8) -> bool
    requires { Holds part.now × (get_or part.now 0 0 ≡ 19) }
    ensures { (e : Expr) → Begins e part.now → (a : Atoms) → made (Const result) a ≡ meaning mode e a }
{
    let n = ints::two(part, 17);
    pushed_truth(mode, &part[19..19 + n])
}

// ---- Sig atoms

// The number of the location's Sig atom, of which there are n so far; its location is added where it is new.
fn sig_for(sigs: &mut [Location; 1024], n: usize, p: Location) -> usize
    requires { n < 1024 }
    ensures within { result ≤ n }
    ensures number { (l : List Location) → Rows l n sigs.old → SigFor p l result sigs.old sigs.new }
{
    match sigs[..n].iter().position(|q| q.start == p.start
        && q.column == p.column
        && q.end == p.end
        && q.line == p.line)
    {
        Some(i) => i,
        None => {
            sigs[n] = p;
            n
        }
    }
}

// ---- what is planned
// Kept: a part is a slice of which `Holds` is asked, as in folding, to whose functions it is handed on.

// The literal that the expression is, if it is one.
#[tactic(auto, using(crate::proofs::Plans::by_tag))]
fn literal_at(part: &[u8]) -> Option<bool>
    requires { Holds part.now }
    ensures { (e : Expr) → Begins e part.now → result ≡ beside_of (literal_of e) }
{
    if part[0] == 18 {
        return Some(part[17] == 1);
    }
    None
}

// A comparison: Equal and NotEqual beside a boolean literal, the right side looked at first, or as a whole.
#[tactic(auto, using(crate::proofs::Plans::by_tag))]
fn plan_compare(part: &[u8]) -> Plan
    requires { Holds part.now × (get_or part.now 0 0 ≡ 21) }
    ensures { (e : Expr) → Begins e part.now → result ≡ plan_of e }
{
    let op = part[17];
    if 1 < op {
        return Plan::Whole;
    }
    let left = folding::rest(part, 18);
    let n = folding::size(left);
    if let Some(b) = literal_at(folding::rest(left, n)) {
        return Plan::One(18, b == (op == 0));
    }
    if let Some(b) = literal_at(left) {
        return Plan::One(18 + n, b == (op == 0));
    }
    Plan::Whole
}

// How the expression is translated.
#[tactic(auto, using(crate::proofs::Plans::by_tag))]
fn plan_of(part: &[u8]) -> Plan
    requires { Holds part.now }
    ensures { (e : Expr) → Begins e part.now → result ≡ plan_of e }
{
    match part[0] {
        20 => Plan::Two(part[17]),
        21 => plan_compare(part),
        22 => {
            if part[17] == 4 {
                return Plan::One(18, false);
            }
            Plan::Whole
        }
        _ => Plan::Whole,
    }
}

// ---- translation

// What an expression that is taken as a whole, and is no checksig, is worth.
#[tactic(auto, using(crate::proofs::Plans::by_tag))]
fn worth(part: &[u8], mode: u8) -> Folded
    requires { Holds part.now × (get_or part.now 0 0 ≡ 25 → ⊥) }
    ensures { (e : Expr) → Begins e part.now → plan_of e ≡ Plan.Whole → (a : Atoms) → by_fold result a ≡ meaning mode e a }
{
    if part[0] == 19 {
        return ints::truth(string_truth(part, mode));
    }
    if folding::contains_checksig(part) {
        return Folded::Nothing;
    }
    if !folding::contains_variable(part) {
        return folding::eval_int(part);
    }
    Folded::Nothing
}

// An expression that is taken as a whole: a word, for an atom or a constant.
#[tactic(auto, using(crate::proofs::Results::nodes_least))]
fn single(part: &[u8], mode: u8, area: &mut Area, at: Counts) -> Result<Counts, Overflow>
    requires { Ready part.now at area.old.sigs }
    ensures { (e : Expr) → Begins e part.now → plan_of e ≡ Plan.Whole → (a : Atoms) → Tied a at area.old.sigs → Forms (meaning mode e a) at.words result area.old area.new }
{
    let Counts { words, sigs, frees } = at;
    if part[0] == 25 {
        let i = sig_for(&mut area.sigs, sigs, folding::location_of(part));
        area.code[words] = (i * 8 + 5) as u32;
        return Ok(Counts {
            words: words + 1,
            sigs: sigs.max(i + 1),
            frees,
        });
    }
    match worth(part, mode) {
        Folded::Value(v) => {
            area.code[words] = u32::from(!ints::is_zero(v));
            Ok(at.one_more())
        }
        Folded::Nothing => {
            area.code[words] = (frees * 8 + 6) as u32;
            Ok(Counts {
                words: words + 1,
                sigs,
                frees: frees + 1,
            })
        }
        Folded::Overflow(at) => Err(Overflow { at }),
    }
}

// The same, an overflow n bytes further on.
fn further(x: Result<Counts, Overflow>, n: usize) -> Result<Counts, Overflow>
    requires { (o : _) → x ≡ Err o → n + o.at < 18446744073709551616 }
    ensures { result ≡ moved n x }
{
    x.map_err(|o| Overflow { at: n + o.at })
}

// The formula of the expression, or its negation.
#[cycle(sided_translate)]
fn sided(part: &[u8], mode: u8, side: bool, area: &mut Area, at: Counts) -> Result<Counts, Overflow>
    requires { SidedReady part.now at area.old.sigs }
    ensures { (e : Expr) → Begins e part.now → (a : Atoms) → Tied a at area.old.sigs → Forms (on_side side (meaning mode e a)) at.words result area.old area.new }
{
    if side {
        return translate(part, mode, area, at);
    }
    area.code[at.words] = 2;
    translate(part, mode, area, at.one_more())
}

// The expression's formula: its words from word at.words on, the locations of its new Sig atoms behind the at.sigs that are there.
#[cycle(sided_translate)]
pub fn translate(part: &[u8], mode: u8, area: &mut Area, at: Counts) -> Result<Counts, Overflow>
    requires { Ready part.now at area.old.sigs }
    ensures { (e : Expr) → Begins e part.now → (a : Atoms) → Tied a at area.old.sigs → Forms (meaning mode e a) at.words result area.old area.new }
{
    match plan_of(part) {
        Plan::Whole => single(part, mode, area, at),
        Plan::One(n, side) => further(sided(folding::rest(part, n), mode, side, area, at), n),
        Plan::Two(op) => {
            let w = at.words;
            let left = folding::rest(part, 18);
            let mid = further(translate(left, mode, area, at.one_more()), 18)?;
            area.code[w] = join_word(op, mid.words - (w + 1));
            let n = folding::size(left);
            further(translate(folding::rest(left, n), mode, area, mid), 18 + n)
        }
    }
}

// ---- paths

// The formula of a path, whose pieces the words tell: each joined to those behind it, and true at the end.
pub fn path_formula(
    image: &[u8],
    mode: u8,
    pieces: &[u16],
    area: &mut Area,
) -> Result<Counts, Overflow>
    requires { PathHolds image.now pieces.now }
    ensures full { (length area.old.code ≡ 2049) × (length area.old.sigs ≡ 1024) }
    ensures made { (ps : List Piece) → Pieced image.now pieces.now ps → Forms (path_formula mode ps no_atoms) 0 result area.old area.new }
{
    let mut at = Counts {
        words: 0,
        sigs: 0,
        frees: 0,
    };
    for piece in pieces {
        let off = (*piece / 2) as usize;
        let part = folding::rest(image, off);
        let w = at.words;
        let end = further(sided(part, mode, *piece % 2 == 1, area, at.one_more()), off)?;
        area.code[w] = join_word(1, end.words - (w + 1));
        at = end;
    }
    area.code[at.words] = 1;
    Ok(at.one_more())
}

// Whether a checksig stands anywhere on the path.
pub fn path_has_checksig(image: &[u8], pieces: &[u16]) -> bool
    requires { PathHolds image.now pieces.now }
    ensures { (ps : List Piece) → Pieced image.now pieces.now ps → result ≡ any_checksig ps }
{
    pieces.iter().any(|piece| folding::contains_checksig(folding::rest(
        image,
        (*piece / 2) as usize,
    )))
}
