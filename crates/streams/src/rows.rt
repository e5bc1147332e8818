// The rows of a recorded list, each an image and its answer: each is compared, what differs or is cut is told, and the score is counted.
use crate::failures::tell_failure;
use crate::{Cut, ROOM, take};
use std::fmt::Display;
use std::io::Read;
use std::rt::Files;
use std::{fmt, fs};

// More rows than any list has.
pub const MOST_ROWS: u64 = 1000000;

// How many rows are the same, and how many are not.
#[derive(Clone, Copy, Debug, Default, PartialEq, Eq)]
pub struct Score {
    pub same: u64,
    pub different: u64,
}

impl Display for Score {
    fn fmt<W: fmt::Write>(&self, f: &mut fmt::Formatter<W>) -> fmt::Result {
        write!(f, "{} same, {} different", self.same, self.different)
    }
}

// A line about a row.
fn tell(rt: &impl Eprint, row: u64, what: impl Display + Drop) {
    let _ = eprintln!(rt; "row {row}: {what}");
}

// The next row of a list: its image, and its answer; none where the list has ended.
fn next_row<'a, R: Read>(
    list: &mut R,
    image: &'a mut [u8],
    answer: &'a mut [u8],
) -> Result<Option<(&'a [u8], &'a [u8])>, Cut> {
    let Some(image) = take(list, image)? else {
        return Ok(None);
    };
    match take(list, answer)? {
        Some(answer) => Ok(Some((image, answer))),
        None => Err(Cut { count: 0 }),
    }
}

// The score of a list by a comparison, which says what differs. A row that is cut is the last one; a list that is too long has one more that differs.
pub fn score_list<R: Read, D: Display + Drop, F: FnMut(&[u8], &[u8]) -> Result<(), D> + Drop>(
    rt: &impl Eprint,
    list: &mut R,
    mut compare: F,
) -> Score
    requires { F.IsAlwaysCallable compare }
{
    let mut image = [0u8; ROOM];
    let mut answer = [0u8; ROOM];
    let mut score = Score::default();
    for row in 0..MOST_ROWS {
        match next_row(list, &mut image, &mut answer) {
            Ok(None) => return score,
            Err(cut) => {
                tell(rt, row, cut);
                score.different += 1;
                return score;
            }
            Ok(Some((image, answer))) => match compare(image, answer) {
                Ok(()) => score.same += 1,
                Err(difference) => {
                    tell(rt, row, difference);
                    score.different += 1;
                }
            },
        }
    }
    tell(rt, MOST_ROWS, "no list has so many");
    score.different += 1;
    score
}

// The score of the list of that name, of no rows where it cannot be opened.
pub fn score_file<
    S: Files + Eprint + Alloc,
    D: Display + Drop,
    F: FnMut(&[u8], &[u8]) -> Result<(), D> + Drop,
>(rt: &S, name: &str, compare: F) -> Score
    requires { F.IsAlwaysCallable compare }
{
    match fs::open(rt, name) {
        Ok(mut list) => score_list(rt, &mut list, compare),
        Err(error) => {
            tell_failure(rt, name, error);
            Score::default()
        }
    }
}
