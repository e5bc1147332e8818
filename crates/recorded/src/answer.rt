// The numbers of an answer, which are compared one by one.
ghost use Rattle.std.specs.Prelude.{◌≡◌, length, IfOk};

use definition::Refusal;
use std::fmt;

// An answer's number that differs, or is not there.
#[derive(Clone, Copy, Debug, PartialEq, Eq)]
pub struct Differs {
    at: usize,
}

impl fmt::Display for Differs {
    fn fmt<W: fmt::Write>(&self, f: &mut fmt::Formatter<W>) -> fmt::Result {
        write!(f, "number {} of the answer differs", self.at)
    }
}

// An answer: its numbers of 32 bits, the bytes behind them, and which number is the next to be compared.
#[derive(Drop)]
pub struct Answer<'a> {
    numbers: &'a [[u8; 4]],
    left_over: &'a [u8],
    at: usize,
}

impl<'a> Answer<'a> {
    // An answer, at its first number.
    pub fn new(bytes: &'a [u8]) -> Answer<'a> {
        let (numbers, left_over) = bytes.as_chunks::<4>();
        Answer {
            numbers,
            left_over,
            at: 0,
        }
    }

    // The next number differs.
    pub fn differs(&self) -> Differs {
        Differs { at: self.at }
    }

    // The next number is there, and is this one.
    pub fn expect(&mut self, value: u64) -> Result<(), Differs> {
        match self.numbers.get(self.at) {
            Some(number) if u64::from(u32::from_be_bytes(*number)) == value => {
                self.at += 1;
                Ok(())
            }
            _ => Err(self.differs()),
        }
    }

    // A refusal: number and place.
    pub fn expect_refusal(&mut self, refusal: Refusal) -> Result<(), Differs> {
        self.expect(u64::from(refusal.number))?;
        self.expect(refusal.place as u64)
    }

    // The next 64 numbers, which are masks, if there are four more behind them.
    pub fn masks(&mut self) -> Result<&'a [[u8; 4]], Differs>
        ensures { IfOk result (λ m. length m.now ≡ 64) }
    {
        let at = self.at;
        let count = self.numbers.len();
        if count < 68 || count - 68 < at {
            return Err(self.differs());
        }
        self.at = at + 64;
        Ok(&self.numbers[at..at + 64])
    }

    // The answer ends here.
    pub fn end(&self) -> Result<(), Differs> {
        if self.at == self.numbers.len() && self.left_over.is_empty() {
            return Ok(());
        }
        Err(self.differs())
    }
}
