// keep IMAGE CHECKPOINT [BUDGET]: examines an image file in slices of so many assignments (65,536 if it is not said), across cuts of the power. After each
// slice the checkpoint is in its file for good (files.rt), and only then is the count shown on standard error; a run that finds a checkpoint goes on
// from it (crates/taking). At the end it prints what `desk` prints for that image. Whatever else happens is told on standard error, and nothing is
// printed. It writes CHECKPOINT, by way of a new file of that name with a point and six letters behind it, and touches nothing else.
#![tactic(auto)]

mod files;
mod telling;

use definition::Outcome;
use examiner::{Examination, Sliced};
use files::{NAME, find_file, keep_file, read_file};
use std::rt::Runtime;
use streams::failures::print_all;
use streams::words::{is_given, word};
use taking::{NotTaken, begin, take_up};
use telling::{fail, show, tell, tell_refusal, usage};

// How many assignments a slice tries, if it is not said.
const BUDGET: u64 = 65536;

// No run has so many slices: the total is at most 671,088,640, and each slice but the last goes forward by its budget, which is at least 1.
const MOST_SLICES: u64 = 671088641;

// A run: the image and how many paths it has, the name of the checkpoint's file, and how many assignments a slice tries.
#[derive(Clone, Copy)]
struct Run<'a> {
    image: &'a [u8],
    paths: usize,
    kept: &'a str,
    budget: u64,
}

// ---- what is printed
// Kept: two functions that differ in one call. One with a closure for that call would ask for the closure's bound on what it writes, which is no plainer.

// Prints the lines of an image whose examination came to this end.
fn print_end(rt: &impl Runtime, image: &[u8], outcome: Outcome) {
    let mut out = [0u8; lines::ROOM];
    let n = lines::ended(image, outcome, &mut out);
    print_all(rt, "keep: standard output", &out[0..n]);
}

// Prints the line of an image that is refused.
fn print_refused(rt: &impl Runtime, image: &[u8]) {
    let mut out = [0u8; lines::ROOM];
    let n = lines::report(image, &mut out);
    print_all(rt, "keep: standard output", &out[0..n]);
}

// ---- one run

impl<'a> Run<'a> {
    // Puts the checkpoint of an examination in its file for good; none if it is not there, which is told.
    fn keep(self, rt: &impl Runtime, examination: Examination) -> Option<()> {
        let mut space = [0u8; streams::ROOM];
        let n = match examination.write_checkpoint(self.image, &mut space).said {
            Ok(n) => n,
            Err(refusal) => {
                tell_refusal(rt, self.kept, "cannot be written", refusal);
                return None;
            }
        };
        let Some(bytes) = space.get(0..n) else {
            tell(rt, self.kept, "cannot be written");
            return None;
        };
        match keep_file(rt, self.kept, bytes) {
            Ok(()) => Some(()),
            Err(error) => {
                fail(rt, self.kept, "cannot be written", error);
                None
            }
        }
    }

    // One slice: its checkpoint kept, its count shown, and its end printed. The examination to go on with, if there is more to do.
    fn one_slice(self, rt: &impl Runtime, examination: Examination) -> Option<Examination> {
        let Sliced { examination, said } = examination.slice(self.image, self.budget);
        self.keep(rt, examination)?;
        show(rt, examination.place, self.paths);
        match said {
            Ok(None) => return Some(examination),
            Ok(Some(outcome)) => print_end(rt, self.image, outcome),
            Err(refusal) => tell_refusal(rt, self.kept, "cannot be gone on with", refusal),
        }
        None
    }

    // Slice after slice, from an examination whose checkpoint is kept.
    fn go_on(self, rt: &impl Runtime, from: Examination) {
        let mut examination = from;
        for _ in 0..MOST_SLICES {
            let Some(next) = self.one_slice(rt, examination) else {
                return;
            };
            examination = next;
        }
    }

    // From what there is to go on with, which is kept before the first slice; what is no checkpoint of this image is told.
    fn start_from(self, rt: &impl Runtime, taken: Result<Examination, NotTaken>) {
        match taken {
            Err(NotTaken::OtherImage) => tell(rt, self.kept, "is the checkpoint of another image"),
            Err(NotTaken::Refused(refusal)) => {
                tell_refusal(rt, self.kept, "is no checkpoint", refusal);
            }
            Ok(examination) => {
                if self.keep(rt, examination).is_some() {
                    show(rt, examination.place, self.paths);
                    self.go_on(rt, examination);
                }
            }
        }
    }

    // From the examination that is kept, or from a new one. The buffer takes more than the longest checkpoint has.
    fn examine(self, rt: &impl Runtime) {
        let mut space = [0u8; streams::ROOM];
        match find_file(rt, self.kept, &mut space) {
            Ok(Some(bytes)) => self.start_from(rt, take_up(bytes, self.image)),
            Ok(None) => self.start_from(rt, begin(self.image)),
            Err(failed) => fail(rt, self.kept, "cannot be read", failed.error),
        }
    }
}

// An image: refused as `desk` refuses it, or examined.
fn judge(rt: &impl Runtime, image: &[u8], kept: &str, budget: u64) {
    match examiner::count_paths(image) {
        Ok(paths) => {
            let run = Run {
                image,
                paths,
                kept,
                budget,
            };
            run.examine(rt);
        }
        Err(_) => print_refused(rt, image),
    }
}

// The image of that name. The buffer takes more than the longest image has.
fn examine_file(rt: &impl Runtime, name: &str, kept: &str, budget: u64) {
    let mut space = [0u8; streams::ROOM];
    match read_file(rt, name, &mut space) {
        Ok(image) => judge(rt, image, kept, budget),
        Err(failed) => fail(rt, name, "cannot be read", failed.error),
    }
}

// ---- what is asked

// A number in decimal, from 1 on and below 10^19.
fn number(digits: &[u8]) -> Option<u64> {
    let mut n: u64 = 0;
    for byte in digits {
        let digit = char::from(*byte).to_digit(10)?;
        if n > 999999999999999999 {
            return None;
        }
        n = n * 10 + u64::from(digit);
    }
    if n == 0 { None } else { Some(n) }
}

// The budget that is asked for.
fn budget_asked(rt: &impl Runtime) -> Option<u64> {
    if !is_given(rt, 3) {
        return Some(BUDGET);
    }
    let mut digits = [0u8; 20];
    number(word(rt, 3, &mut digits)?)
}

// The files that are named, by names that are text.
fn examine_named(rt: &impl Runtime, name: &[u8], kept: &[u8], budget: u64) {
    match (str::from_utf8(name), str::from_utf8(kept)) {
        (Ok(name), Ok(kept)) => examine_file(rt, name, kept, budget),
        (Err(_), _) => tell(rt, "IMAGE", "has a name that is not UTF-8"),
        (Ok(_), Err(_)) => tell(rt, "CHECKPOINT", "has a name that is not UTF-8"),
    }
}

// The files that are named.
fn examine_files(rt: &impl Runtime, budget: u64) {
    let mut first = [0u8; 4096];
    let mut second = [0u8; 4096];
    match (word(rt, 1, &mut first), word(rt, 2, &mut second)) {
        (Some(_), Some(kept)) if kept.len() > NAME => {
            tell(rt, "CHECKPOINT", "has a name of over 4,000 bytes");
        }
        (Some(name), Some(kept)) => examine_named(rt, name, kept, budget),
        _ => usage(rt),
    }
}

// The words: two names, and perhaps a budget.
fn main(rt: HostRuntime) {
    if !is_given(&rt, 2) || is_given(&rt, 4) {
        usage(&rt);
        return;
    }
    match budget_asked(&rt) {
        Some(budget) => examine_files(&rt, budget),
        None => usage(&rt),
    }
}
