// The paths of an accepted image: how many there are, and the pieces of one of them. The list walker and the if walker call each
// other over parts of the image, the statement level left falling. No tree is made and no byte is copied. What the functions say is
// in specs/, the laws in proofs/: Statements.antt (one statement), Left.antt (the walk of a list), Counting.antt, Gathering.antt, and Whole.antt (an image).
#![tactic(auto)]

ghost use Rattle.std.specs.Prelude.{◌≡◌, List, [], ◌∷◌, map, ℕ, ◌+◌, ◌≤◌, ◌<◌, length, get_or, take, drop, Ok, true};
ghost use Rattle.std.proofs.lemmas.List.Edits.{sets};
ghost use Rattle.definition.specs.Tree.{Stmt, Block, Contract};
ghost use Rattle.definition.specs.Writing.{size_s, size_b};
ghost use Rattle.definition.specs.Begins.{BeginsS, BeginsB, HoldsS, HoldsB};
ghost use Rattle.definition.specs.declared.Forks.{Forks};
ghost use Rattle.definition.specs.Reading.{if_fields, read};
ghost use Rattle.definition.specs.Paths.{Path, paths_s, paths_b, pieces as pieces_of};
ghost use Rattle.paths.specs.Walking.{Accepted, IsOne, IsList};
ghost use Rattle.paths.specs.Gathering.{word as word_of_piece, word_of, gathered, Conditioned, Verified, Walks, Ahead, Room, RoomS, Asked};

use arrayvec::ArrayVec;
use definition::{Forks, Location};
use folding::Expression;
use std::ops::ControlFlow;

// ---- counting

// One statement: with how many paths the walk of its list ends there, if it does, and how many bytes it has.
#[derive(Clone, Copy)]
pub struct One {
    pub paths: Option<usize>,
    pub size: usize,
}

// A list of statements: how many paths and how many bytes it has.
#[derive(Clone, Copy)]
pub struct Listed {
    pub paths: usize,
    pub size: usize,
}

// The fields of the if at the front of the part, which were judged when it was read.
// Kept: the reader's `if_fields` judges flag, counts and length and may refuse; here nothing is judged again, at each if of each path.
fn forks_at(part: &[u8]) -> Forks
    requires { (f : Forks) × (if_fields 0 part.now ≡ Ok f) }
    ensures { if_fields 0 part.now ≡ Ok result }
{
    let yes = ints::two(part, 18);
    if part[17] == 0 {
        return Forks {
            yes,
            no: 0,
            from: 20,
        };
    }
    Forks {
        yes,
        no: ints::two(part, 20),
        from: 22,
    }
}

// A statement that is no if: a locktime, a verify or a return.
fn plain(part: &[u8]) -> One
    requires { (get_or part.now 0 0 ≡ 1 → ⊥) × ((l : ℕ) × HoldsS part.now l) }
    ensures { (x : Stmt) (l : ℕ) → BeginsS x l part.now → IsOne x result }
{
    let tag = part[0];
    if tag == 2 {
        return One {
            paths: None,
            size: 26,
        };
    }
    let size = 17 + Expression::at(part, 17).size();
    if tag == 4 {
        return One {
            paths: Some(1),
            size,
        };
    }
    One { paths: None, size }
}

// A list of `count` statements, all of which count for its size; what follows a return or an if has no path.
#[cycle(count_if_count_list)]
fn count_list(part: &[u8], count: usize, level: usize) -> Listed
    requires { HoldsB part.now count level }
    ensures { (b : Block) → BeginsB b count level part.now → IsList b result }
{
    let mut off: usize = 0;
    let mut paths = None;
    for _ in 0..count {
        let here = folding::rest(part, off);
        let one = if here[0] == 1 {
            count_if(here, level - 1)
        } else {
            plain(here)
        };
        paths = paths.or(one.paths);
        off += one.size;
    }
    Listed {
        paths: paths.unwrap_or(0),
        size: off,
    }
}

// An if: the if block's paths, then the else block's.
#[cycle(count_if_count_list)]
fn count_if(part: &[u8], level: usize) -> One
    requires { (get_or part.now 0 0 ≡ 1) × HoldsS part.now level }
    ensures { (x : Stmt) → BeginsS x level part.now → IsOne x result }
{
    let forks = forks_at(part);
    let head = forks.from + Expression::at(part, forks.from).size();
    let yes = count_list(folding::rest(part, head), forks.yes, level);
    let mid = head + yes.size;
    let no = count_list(folding::rest(part, mid), forks.no, level);
    One {
        paths: Some(yes.paths + no.paths),
        size: mid + no.size,
    }
}

// How many paths an accepted image has; `top` is its head's count.
pub fn count_paths(image: &[u8], top: usize) -> usize
    requires { Accepted image.now top }
    ensures { (c : Contract) → read image.now ≡ Ok c → result ≡ length (paths_b c.block 8) }
{
    count_list(folding::rest(image, 8), top, 16).paths
}

// ---- gathering

// The pieces of one path on the way to its return: the words of its conditions and of its verifies, in order.
#[derive(Drop)]
struct Trail {
    conditions: ArrayVec<u16, 512>,
    verifies: ArrayVec<u16, 512>,
}

impl Trail {
    // No piece yet.
    fn new() -> Trail
        ensures { (result.conditions.items ≡ []) × (result.verifies.items ≡ []) }
    {
        Trail {
            conditions: ArrayVec::new(),
            verifies: ArrayVec::new(),
        }
    }

    // A condition more.
    fn condition(&mut self, at: usize, side: bool)
        requires { (length self.old.conditions.items < 512) × (at < 32768) }
        ensures { Conditioned self.old (word_of at side) self.new }
    {
        self.conditions.push(word(at, side));
    }

    // A verify more.
    fn verify(&mut self, at: usize)
        requires { (length self.old.verifies.items < 512) × (at < 32768) }
        ensures { Verified self.old (word_of at true) self.new }
    {
        self.verifies.push(word(at, true));
    }

    // Back to so many conditions and verifies.
    fn back(&mut self, conditions: usize, verifies: usize)
        ensures { (self.new.conditions.items ≡ take conditions self.old.conditions.items) × (self.new.verifies.items ≡ take verifies self.old.verifies.items) }
    {
        self.conditions.truncate(conditions);
        self.verifies.truncate(verifies);
    }
}

// A path whose return was reached: the offset of the return's expression, and the return's location.
#[derive(Clone, Copy)]
pub struct Ended {
    pub ret: usize,
    pub location: Location,
}

// A whole path: how many pieces it has, and its return's location.
#[derive(Clone, Copy)]
pub struct Gathered {
    pub pieces: usize,
    pub location: Location,
}

// A piece as one number: twice its offset in the image, and 1 where it has to hold.
fn word(at: usize, side: bool) -> u16
    requires { at < 32768 }
    ensures { result ≡ word_of at side }
{
    (at * 2 + usize::from(side)) as u16
}

// The return at the front of the part, which stands at offset `at`: path 0 ends there, and it has no other.
fn return_at(part: &[u8], at: usize, wanted: usize) -> ControlFlow<Ended, Listed>
    requires { (get_or part.now 0 0 ≡ 4) × ((l : ℕ) × HoldsS part.now l) × (at + 17 ≤ 32768) }
    ensures { (x : Stmt) (l : ℕ) → BeginsS x l part.now → (t : Trail) → Walks (paths_s x at []) (size_s x) wanted t result t }
{
    if wanted == 0 {
        return ControlFlow::Break(Ended {
            ret: at + 17,
            location: folding::location_of(part),
        });
    }
    ControlFlow::Continue(Listed {
        paths: 1,
        size: plain(part).size,
    })
}

// Past an if or a return at offset `off` of its list: the `count` statements behind it have bytes and no path.
fn past(part: &[u8], off: usize, count: usize, level: usize, one: Listed) -> Listed
    requires { Ahead off part.now count level one }
    ensures { (b : Block) → BeginsB b count level (drop (off + one.size) part.now) → (result.paths ≡ one.paths) × (result.size ≡ off + one.size + size_b b) }
{
    let from = off + one.size;
    let behind = count_list(folding::rest(part, from), count, level);
    Listed {
        paths: one.paths,
        size: from + behind.size,
    }
}

// Path `wanted` of the list of `count` statements at offset `at`, behind what is written down.
#[cycle(gather_if_gather_list)]
fn gather_list(
    part: &[u8],
    at: usize,
    count: usize,
    level: usize,
    wanted: usize,
    trail: &mut Trail,
) -> ControlFlow<Ended, Listed>
    requires { Room part.now at count level trail.old }
    ensures { (b : Block) → BeginsB b count level part.now → Walks (paths_b b at) (size_b b) wanted trail.old result trail.new }
{
    let mut off: usize = 0;
    for i in 0..count {
        let here = folding::rest(part, off);
        let tag = here[0];
        if tag == 1 {
            let own = gather_if(here, at + off, level - 1, wanted, trail)?;
            return ControlFlow::Continue(past(part, off, count - i - 1, level, own));
        }
        if tag == 4 {
            let own = return_at(here, at + off, wanted)?;
            return ControlFlow::Continue(past(part, off, count - i - 1, level, own));
        }
        if tag == 3 {
            trail.verify(at + off + 17);
        }
        off += plain(here).size;
    }
    ControlFlow::Continue(Listed {
        paths: 0,
        size: off,
    })
}

// Path `wanted` of the if at offset `at`: its condition and a path of its first block, or its negated condition and one of its second.
#[cycle(gather_if_gather_list)]
fn gather_if(
    part: &[u8],
    at: usize,
    level: usize,
    wanted: usize,
    trail: &mut Trail,
) -> ControlFlow<Ended, Listed>
    requires { RoomS part.now at level trail.old }
    ensures { (x : Stmt) → BeginsS x level part.now → Walks (paths_s x at []) (size_s x) wanted trail.old result trail.new }
{
    let forks = forks_at(part);
    let head = forks.from + Expression::at(part, forks.from).size();
    let conditions = trail.conditions.len();
    let verifies = trail.verifies.len();
    trail.condition(at + forks.from, true);
    let here = folding::rest(part, head);
    let first = gather_list(here, at + head, forks.yes, level, wanted, trail)?;
    trail.back(conditions, verifies);
    trail.condition(at + forks.from, false);
    let mid = head + first.size;
    let there = folding::rest(part, mid);
    let more = wanted - first.paths;
    let second = gather_list(there, at + mid, forks.no, level, more, trail)?;
    ControlFlow::Continue(Listed {
        paths: first.paths + second.paths,
        size: mid + second.size,
    })
}

// The words, written one after the other from offset `at` on.
fn append(words: &[u16], pieces: &mut [u16], at: usize)
    requires { at + length words.now ≤ length pieces.old }
    ensures { pieces.new ≡ sets pieces.old at words.now }
{
    let end = at + words.len();
    pieces[at..end].copy_from_slice(words);
}

// The pieces of path `wanted` of an accepted image, written to the front of `pieces`; `top` is its head's count.
pub fn enumerate(image: &[u8], top: usize, wanted: usize, pieces: &mut [u16; 512]) -> Gathered
    requires { Asked image.now top wanted }
    ensures { (c : Contract) → read image.now ≡ Ok c → (p : Path) (ps : List Path) → drop wanted (paths_b c.block 8) ≡ p ∷ ps →
        (result ≡ gathered p) × (pieces.new ≡ sets pieces.old 0 (map word_of_piece (pieces_of p))) }
{
    let mut trail = Trail::new();
    let part = folding::rest(image, 8);
    match gather_list(part, 8, top, 16, wanted, &mut trail) {
        ControlFlow::Break(end) => {
            let k = trail.conditions.len();
            let v = trail.verifies.len();
            append(&trail.conditions, pieces, 0);
            append(&trail.verifies, pieces, k);
            let n = k + v;
            pieces[n] = word(end.ret, true);
            Gathered {
                pieces: n + 1,
                location: end.location,
            }
        }
        // An asked path is found, so this is not reached.
        ControlFlow::Continue(_) => Gathered {
            pieces: 0,
            location: Location {
                start: 0,
                end: 0,
                line: 0,
                column: 0,
            },
        },
    }
}
