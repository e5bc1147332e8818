// What every item of an image begins with, a statement or an expression: its tag and its location, with a level and room for it.
ghost use Rattle.std.specs.Prelude.{◌≡◌, ℕ, ◌<◌, ◌≤◌, OnOk, length};
ghost use Rattle.definition.specs.Fault.{Read};
ghost use Rattle.definition.specs.Reading.{located, entered, begin, expr_tag, stmt_tag};

use crate::{Tail, refuse};
use definition::{Fault, Kind, Sort, Tag};

// The kinds of items of one sort, of which an image has at most so many. Kept: a method of its own in place of TryFrom<u8>, since the fault
// names the offset, and since that impl would have to stand in crate definition, where the kinds do.
pub trait Item: Copy {
    const MOST: usize;

    ghost MOST: { ℕ };

    ghost tag_of: { ℕ → ℕ → Read Self };

    // The kind of item that a tag is, which stands at this offset.
    fn of_tag(tag: u8, at: usize) -> Result<Self, Fault>
        ensures { result ≡ tag_of tag at };
}

impl Item for Tag {
    const MOST: usize = 1024;

    ghost MOST = { 1024 };

    ghost tag_of = { expr_tag };

    #[tactic(auto, using(crate::proofs::Steps::choices), unfolding(definition::specs::Reading::expr_tag))]
    fn of_tag(tag: u8, at: usize) -> Result<Tag, Fault> {
        match tag {
            16 => Ok(Tag::Variable),
            17 => Ok(Tag::Number),
            18 => Ok(Tag::Boolean),
            19 => Ok(Tag::Text),
            20 => Ok(Tag::Logical),
            21 => Ok(Tag::Compare),
            22 => Ok(Tag::Unary),
            23 => Ok(Tag::Binary),
            24 => Ok(Tag::Hash),
            25 => Ok(Tag::Checksig),
            26 => Ok(Tag::Length),
            _ => Err(Fault::new(Kind::TagUnknown, at, at)),
        }
    }
}

impl Item for Sort {
    const MOST: usize = 512;

    ghost MOST = { 512 };

    ghost tag_of = { stmt_tag };

    #[tactic(auto, using(crate::proofs::Steps::choices), unfolding(definition::specs::Reading::stmt_tag))]
    fn of_tag(tag: u8, at: usize) -> Result<Sort, Fault> {
        match tag {
            1 => Ok(Sort::If),
            2 => Ok(Sort::Locktime),
            3 => Ok(Sort::Verify),
            4 => Ok(Sort::Return),
            _ => Err(Fault::new(Kind::TagUnknown, at, at)),
        }
    }
}

// The four numbers of the location, one by one.
#[tactic(auto, using(crate::proofs::Steps::steps), unfolding(definition::specs::Reading::located))]
fn located(tail: Tail) -> Result<(), Fault>
    ensures is { result ≡ located tail.entry.at tail.entry.bytes.now }
    ensures long { OnOk result (17 ≤ length tail.entry.bytes.now) }
{
    tail.reaches(5, 1)?;
    tail.reaches(9, 5)?;
    tail.reaches(13, 9)?;
    tail.reaches(17, 13)
}

// The tests at an item whose tag is known: a level left, fewer than `most` counted before it, and its location.
#[tactic(auto, using(crate::proofs::Steps::steps), unfolding(definition::specs::Reading::entered))]
pub fn entered(tail: Tail, level: usize, most: usize, counted: usize) -> Result<(), Fault>
    ensures is { result ≡ entered most level counted tail.entry.at tail.entry.bytes.now }
    ensures held { OnOk result ((0 < level) × (counted < most) × (17 ≤ length tail.entry.bytes.now)) }
{
    refuse(level == 0, tail.fault(Kind::TooDeep, 0))?;
    refuse(most <= counted, tail.fault(Kind::TooMany, 0))?;
    located(tail)
}

// The beginning of an item: tag, level, count and location.
#[tactic(auto, using(crate::proofs::Steps::choices, crate::proofs::Steps::steps), unfolding(definition::specs::Reading::begin))]
pub fn begin<T: Item>(tail: Tail, level: usize, counted: usize) -> Result<T, Fault>
    ensures is { result ≡ begin T.tag_of T.MOST level counted tail.entry.at tail.entry.bytes.now }
    ensures held { OnOk result ((0 < level) × (counted < T.MOST) × (17 ≤ length tail.entry.bytes.now)) }
{
    refuse(tail.bytes.is_empty(), tail.fault(Kind::TagMissing, 0))?;
    let kind = T::of_tag(tail.bytes[0], tail.at)?;
    entered(tail, level, T::MOST, counted)?;
    Ok(kind)
}
