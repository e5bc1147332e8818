// Document 01's numbers: what a caller is told of a fault ("Numbers that come back", specs/Table.antt), and of a reason (specs/Values.antt).
ghost use Rattle.std.specs.Prelude.{◌≡◌};
ghost use Rattle.definition.specs.Fault.{fault};
ghost use Rattle.definition.specs.Table.{number_of, place_of, refusal_of};
ghost use Rattle.definition.specs.Values.{reason_of};

use crate::{Fault, Kind, Reason, Refusal};
use std::fmt;

impl Kind {
    // The number that comes back for a kind of fault.
    pub fn number(self) -> u32
        ensures { result ≡ number_of self }
    {
        match self {
            Kind::NotMarked => 1,
            Kind::OtherVersion => 2,
            Kind::TagMissing => 3,
            Kind::CutShort => 3,
            Kind::TagUnknown => 4,
            Kind::OpUnknown => 4,
            Kind::BadFlag => 4,
            Kind::BadMode => 4,
            Kind::BadBoolean => 4,
            Kind::TooDeep => 5,
            Kind::TooMany => 6,
            Kind::LeftOver => 7,
            Kind::TooLong => 8,
            Kind::TooManyPaths => 9,
            Kind::Overflows => 10,
            Kind::CheckpointHead => 11,
            Kind::CheckpointVersion => 11,
            Kind::CheckpointPlace => 11,
            Kind::BufferShort => 12,
            Kind::NoSuchPath => 13,
        }
    }
}

impl Reason {
    // Document 01's number of a reason.
    pub fn number(self) -> u32
        ensures { result ≡ reason_of self }
    {
        match self {
            Reason::OverBound => 1,
            Reason::Satisfied => 2,
            Reason::Other(number) => u32::from(number),
        }
    }
}

impl Fault {
    // A fault, from its parts.
    pub fn new(kind: Kind, item: usize, field: usize) -> Fault
        ensures { result ≡ fault kind item field }
    {
        Fault { kind, item, field }
    }

    // The place that comes back with its number.
    pub fn place(self) -> usize
        ensures { result ≡ place_of self }
    {
        self.item
    }
}

// What a caller is told of a fault.
impl From<Fault> for Refusal {
    ghost from_gives = { λ f r. r ≡ refusal_of f };

    fn from(fault: Fault) -> Refusal {
        Refusal {
            number: fault.kind.number(),
            place: fault.place(),
        }
    }
}

impl fmt::Display for Refusal {
    fn fmt<W: fmt::Write>(&self, f: &mut fmt::Formatter<W>) -> fmt::Result {
        write!(f, "refused {} at {}", self.number, self.place)
    }
}
