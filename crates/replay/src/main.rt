// Runs the library on the replayed list: for each image the lines of document 01, by the public entries, beside the lines that the list has for it, which
// are the original's answers. README.md says what the list is. One line on standard output counts the rows that are the same and those that are not,
// and the library's answers by kind; standard error tells which row differs.
#![tactic(auto)]

use definition::{Outcome, Refusal, Verdict};
use std::{fmt, io};
use streams::rows::score_file;

// The lines of an image differ.
#[derive(Clone, Copy, Debug, PartialEq, Eq)]
struct Differ;

impl fmt::Display for Differ {
    fn fmt<W: fmt::Write>(&self, f: &mut fmt::Formatter<W>) -> fmt::Result {
        f.write_str("the lines differ")
    }
}

// How many answers there are of each kind.
#[derive(Clone, Copy, Debug, Default, PartialEq, Eq)]
struct Kinds {
    refused: u64,
    sound: u64,
    no_sig_required: u64,
    useless_sig: u64,
    dead_path: u64,
}

impl Kinds {
    // One more answer.
    fn count(&mut self, answer: Result<Outcome, Refusal>) {
        let kind = match answer.map(|outcome| outcome.verdict) {
            Err(_) => &mut self.refused,
            Ok(Verdict::Ok) => &mut self.sound,
            Ok(Verdict::NoSigRequired { .. }) => &mut self.no_sig_required,
            Ok(Verdict::UselessSig { .. }) => &mut self.useless_sig,
            Ok(Verdict::DeadPath { .. }) => &mut self.dead_path,
        };
        *kind = kind.wrapping_add(1);
    }
}

impl fmt::Display for Kinds {
    fn fmt<W: fmt::Write>(&self, f: &mut fmt::Formatter<W>) -> fmt::Result {
        write!(
            f,
            "refused {}, verdict 0: {}, verdict 1: {}, verdict 2: {}, verdict 3: {}",
            self.refused, self.sound, self.no_sig_required, self.useless_sig, self.dead_path
        )
    }
}

// Whether the lines of an image are these, the kind of its answer being counted.
fn same_lines(image: &[u8], lines: &[u8], kinds: &mut Kinds) -> Result<(), Differ> {
    let mut out = [0u8; lines::ROOM];
    let answer = examiner::check_necessity(image);
    kinds.count(answer);
    let n = match answer {
        Err(_) => lines::report(image, &mut out),
        Ok(outcome) => lines::ended(image, outcome, &mut out),
    };
    if &out[0..n] == lines {
        Ok(())
    } else {
        Err(Differ)
    }
}

// Prints the score and the kinds.
fn main(rt: HostRuntime) -> io::Result<()> {
    let mut kinds = Kinds::default();
    let score = score_file(
        &rt,
        "replayed",
        |image, lines| same_lines(image, lines, &mut kinds),
    );
    println!(rt; "{score}; {kinds}")
}
