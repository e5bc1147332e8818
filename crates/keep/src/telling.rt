// What is told on standard error.
use definition::{Place, Refusal};
use std::io;
use streams::failures::tell_failure;

// How the program is used.
pub fn usage(rt: &impl Eprint) {
    let _ = eprint!(rt;
        "usage: keep IMAGE CHECKPOINT [BUDGET]\nBUDGET is how many assignments a slice tries, from 1 on: 65536 if it is not said\n"
    );
}

// A line about a file.
pub fn tell(rt: &impl Eprint, name: &str, what: &str) {
    let _ = eprintln!(rt; "keep: {name} {what}");
}

// A line about a file with which a call failed.
pub fn fail<R: Eprint + Alloc>(rt: &R, name: &str, what: &str, error: io::Error) {
    let _ = eprint!(rt; "keep: {name} ");
    tell_failure(rt, what, error);
}

// A line about a checkpoint that is refused.
pub fn tell_refusal(rt: &impl Eprint, name: &str, what: &str, refusal: Refusal) {
    let _ = eprintln!(rt; "keep: {name} {what}: {refusal}");
}

// How far the examination is: how many assignments were tried, and at which path of how many it stands in which phase.
pub fn show(rt: &impl Eprint, at: Place, paths: usize) {
    let Place {
        count,
        phase,
        path,
        ..
    } = at;
    let _ = eprintln!(rt; "tried {count} phase {phase} path {path} of {paths}");
}
