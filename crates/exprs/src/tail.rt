// What is left of an image from some item on.
ghost use Rattle.std.specs.Prelude.{◌≡◌, ◌+◌, ◌≤◌, OnOk, drop, length, ltb};
ghost use Rattle.definition.specs.Fault.{fault, refuse};

use crate::refuse;
use definition::{Fault, Kind};

// The bytes of an image from an item's tag on, and the offset at which they begin.
#[derive(Clone, Copy)]
pub struct Tail<'a> {
    pub bytes: &'a [u8],
    pub at: usize,
    ghost in_image: { at + length bytes.now ≤ 32768 },
}

impl<'a> Tail<'a> {
    // The fault of the item here, in its field so many bytes after its tag.
    pub fn fault(self, kind: Kind, field: u8) -> Fault
        ensures { result ≡ fault kind self.entry.at (self.entry.at + field) }
    {
        Fault::new(kind, self.at, self.at + ints::wide(field))
    }

    // Whether the bytes reach to an offset. If not, the item's field so many bytes after its tag is cut short.
    pub fn reaches(self, end: usize, field: u8) -> Result<(), Fault>
        ensures is { result ≡ refuse (ltb (length self.entry.bytes.now) end) (fault Kind.CutShort self.entry.at (self.entry.at + field)) }
        ensures long { OnOk result (end ≤ length self.entry.bytes.now) }
    {
        refuse(self.bytes.len() < end, self.fault(Kind::CutShort, field))
    }

    // What is left so many bytes further on.
    pub fn rest(self, skip: usize) -> Tail<'a>
        requires { skip ≤ length self.bytes.now }
        ensures at { result.at ≡ self.entry.at + skip }
        ensures bytes { result.bytes.now ≡ drop skip self.entry.bytes.now }
        ensures left { skip + length result.bytes.now ≡ length self.entry.bytes.now }
    {
        Tail {
            bytes: &self.bytes[skip..],
            at: self.at + skip,
        }
    }
}
