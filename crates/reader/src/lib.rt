// A contract image, any bytes, to its head or its fault: the head, then the lists of statements, in one pass. No tree is made and
// nothing is copied. `read` asks nothing of its input. What each answer is a picture of stands in specs/, the laws in proofs/.
#![tactic(auto)]

ghost use Rattle.std.specs.Prelude.{◌≡◌, ◌≤◌, IfOk, OnOk, length};
ghost use Rattle.definition.specs.Reading.{expr, items, else_field, if_fields, if_stmt, lock_stmt, stmt, marked, head, read};
ghost use Rattle.exprs.specs.Answers.{part_of, behind};
ghost use Rattle.reader.specs.Answers.{seen_of};

use definition::{Fault, Forks, Head, Kind, Sort, Tally};
use exprs::{Extent, Tail};

// An if's fields where the flag says that there is an else: two counts.
#[tactic(auto, using(exprs::proofs::Steps::steps), unfolding(definition::specs::Reading::else_field))]
fn else_field(tail: Tail) -> Result<Forks, Fault>
    ensures is { result ≡ else_field tail.entry.at tail.entry.bytes.now }
    ensures within { IfOk result (λ forks. forks.from ≤ length tail.entry.bytes.now) }
{
    tail.reaches(22, 20)?;
    Ok(Forks {
        yes: ints::two(tail.bytes, 18),
        no: ints::two(tail.bytes, 20),
        from: 22,
    })
}

// An if's flag and counts, one by one.
#[tactic(auto, using(exprs::proofs::Steps::choices, exprs::proofs::Steps::steps), unfolding(definition::specs::Reading::if_fields))]
fn if_fields(tail: Tail) -> Result<Forks, Fault>
    ensures is { result ≡ if_fields tail.entry.at tail.entry.bytes.now }
    ensures within { IfOk result (λ forks. forks.from ≤ length tail.entry.bytes.now) }
{
    exprs::code_field(tail, 2, Kind::BadFlag)?;
    tail.reaches(20, 18)?;
    if tail.bytes[17] != 0 {
        return else_field(tail);
    }
    Ok(Forks {
        yes: ints::two(tail.bytes, 18),
        no: 0,
        from: 20,
    })
}

// A locktime: its op and operand.
#[tactic(auto, using(exprs::proofs::Steps::steps, exprs::proofs::Telling::telling), unfolding(definition::specs::Reading::lock_stmt))]
fn lock_stmt(tail: Tail, tally: Tally) -> Result<Extent, Fault>
    ensures is { result ≡ part_of (lock_stmt tally tail.entry.at tail.entry.bytes.now) }
    ensures within { IfOk result (λ read. read.size ≤ length tail.entry.bytes.now) }
{
    exprs::code_field(tail, 2, Kind::OpUnknown)?;
    tail.reaches(26, 18)?;
    Ok(Extent { tally, size: 26 })
}

// A root expression behind what was read of a statement.
#[tactic(auto, using(exprs::proofs::Sequences::behinds))]
fn root(tail: Tail, read: Extent) -> Result<Extent, Fault>
    requires { read.size ≤ length tail.bytes.now }
    ensures is { result ≡ behind (expr 32) read tail.entry.at tail.entry.bytes.now }
    ensures within { IfOk result (λ end. end.size ≤ length tail.entry.bytes.now) }
{
    let next = exprs::expr(tail.rest(read.size), 32, read.tally)?;
    Ok(read.followed_by(next))
}

// An if: its fields, its condition, its two blocks. No else is one of no statements.
#[cycle(if_stmt_items_stmt)]
#[tactic(auto, using(crate::proofs::Listing::listing))]
fn if_stmt(tail: Tail, level: usize, tally: Tally) -> Result<Extent, Fault>
    ensures is { result ≡ part_of (if_stmt (stmt level) tally tail.entry.at tail.entry.bytes.now) }
    ensures within { IfOk result (λ read. read.size ≤ length tail.entry.bytes.now) }
{
    let forks = if_fields(tail)?;
    let fields = Extent {
        tally,
        size: forks.from,
    };
    let condition = root(tail, fields)?;
    let yes = items(tail, condition, forks.yes, level)?;
    items(tail, yes, forks.no, level)
}

// One statement from its tag on, with so many levels left and so many items counted before it.
#[cycle(if_stmt_items_stmt)]
#[tactic(auto, using(crate::proofs::Listing::listing))]
fn stmt(tail: Tail, level: usize, tally: Tally) -> Result<Extent, Fault>
    ensures is { result ≡ part_of (stmt level tally tail.entry.at tail.entry.bytes.now) }
    ensures within { IfOk result (λ read. read.size ≤ length tail.entry.bytes.now) }
{
    let sort: Sort = exprs::begin(tail, level, tally.stmts)?;
    let tally = Tally {
        stmts: tally.stmts + 1,
        nodes: tally.nodes,
    };
    match sort {
        Sort::If => if_stmt(tail, level - 1, tally),
        Sort::Locktime => lock_stmt(tail, tally),
        Sort::Verify | Sort::Return => root(tail, Extent { tally, size: 17 }),
    }
}

// So many statements, one after the other, behind what was read. Kept: the loop of `exprs::operands` once more, since a cycle of calls that
// goes through a closure gets no proof.
#[cycle(if_stmt_items_stmt)]
#[tactic(auto, using(crate::proofs::Listing::listing))]
fn items(tail: Tail, mut read: Extent, many: usize, level: usize) -> Result<Extent, Fault>
    requires { read.size ≤ length tail.bytes.now }
    ensures is { result ≡ part_of (items (stmt level) many read.tally read.size tail.entry.at tail.entry.bytes.now) }
    ensures within { IfOk result (λ end. end.size ≤ length tail.entry.bytes.now) }
{
    for _ in 0..many {
        let next = stmt(tail.rest(read.size), level, read.tally)?;
        read = read.followed_by(next);
    }
    Ok(read)
}

// Whether the bytes begin with B, V and this letter.
#[tactic(auto, unfolding(definition::specs::Reading::marked))]
pub fn marked(s: &[u8], letter: u8) -> bool
    requires { 3 ≤ length s.now }
    ensures { result ≡ marked letter s.now }
{
    s[0] == b'B' && s[1] == b'V' && s[2] == letter
}

// The head of an image: length, mark, version, mode and count, one by one.
#[tactic(auto, using(exprs::proofs::Steps::steps), unfolding(definition::specs::Reading::head))]
fn head(s: &[u8]) -> Result<Head, Fault>
    ensures is { result ≡ head s.now }
    ensures long { OnOk result ((8 ≤ length s.now) × (length s.now ≤ 32768)) }
{
    let n = s.len();
    exprs::refuse(32768 < n, Fault::new(Kind::TooLong, 0, 0))?;
    exprs::refuse(n < 3, Fault::new(Kind::NotMarked, 0, 0))?;
    exprs::refuse(!marked(s, b'N'), Fault::new(Kind::NotMarked, 0, 0))?;
    exprs::refuse(n < 5, Fault::new(Kind::CutShort, 3, 3))?;
    exprs::refuse(ints::two(s, 3) != 1, Fault::new(Kind::OtherVersion, 3, 3))?;
    exprs::refuse(n < 6, Fault::new(Kind::CutShort, 5, 5))?;
    exprs::refuse(2 <= s[5], Fault::new(Kind::BadMode, 5, 5))?;
    exprs::refuse(n < 8, Fault::new(Kind::CutShort, 6, 6))?;
    Ok(Head {
        mode: s[5],
        count: ints::two(s, 6),
    })
}

// The whole image: the head, the top list, and no byte left over.
#[tactic(auto, using(crate::proofs::Entry::entry))]
pub fn read(image: &[u8]) -> Result<Head, Fault>
    ensures { result ≡ seen_of (read image.now) }
{
    let top = head(image)?;
    let whole = Tail {
        bytes: image,
        at: 0,
    };
    let before = Extent {
        tally: Tally { stmts: 0, nodes: 0 },
        size: 8,
    };
    let end = items(whole, before, top.count, 16)?.size;
    exprs::refuse(end < image.len(), Fault::new(Kind::LeftOver, end, end))?;
    Ok(top)
}
