// The desk program: reads an image from standard input and prints document 01's lines for it: a line per path and the verdict, or only
// `refused N at PLACE`. What it prints is the library's report (crates/lines).
#![tactic(auto)]

use std::io::Read;
use streams::failures::{print_all, tell_failure};
use streams::words::is_given;

// Prints the lines of an image.
fn print<R: Print + Eprint + Alloc>(rt: &R, image: &[u8]) {
    let mut out = [0u8; lines::ROOM];
    let n = lines::report(image, &mut out);
    print_all(rt, "desk: standard output", &out[0..n]);
}

// Reads an image, and prints its lines. The buffer takes more than the longest image has, so that a longer one is seen.
fn examine<R: Print + Eprint + Alloc, I: Read>(rt: &R, input: &mut I) {
    let mut buffer = [0u8; streams::ROOM];
    match streams::read_whole(input, &mut buffer) {
        Ok(image) => print(rt, image),
        Err(failed) => tell_failure(rt, "desk: standard input", failed.error),
    }
}

// An image comes on standard input, and no word is given.
fn main(rt: HostRuntime) {
    if is_given(&rt, 1) {
        let _ = eprint!(rt; "usage: desk < IMAGE\n");
        return;
    }
    examine(&rt, &mut rt.stdin());
}
