// What is told of a call that failed.
use std::io;

// The system's words for a failure, without its number behind them.
fn cause_of(text: &str) -> &str {
    text.split_once(" (os error ")
        .map_or(text, |(cause, _)| cause)
}

// A line on standard error: what failed, a colon, and the system's words.
pub fn tell_failure<R: Eprint + Alloc>(rt: &R, what: &str, error: io::Error) {
    match format!(in rt.alloc(); "{error}") {
        Ok(text) => {
            let cause = cause_of(text.as_str());
            let _ = eprintln!(rt; "{what}: {cause}");
        }
        Err(_) => {
            let _ = eprintln!(rt; "{what}: {error}");
        }
    }
}

// Writes bytes to standard output; if that fails, it is told of what is named so.
pub fn print_all<R: Print + Eprint + Alloc>(rt: &R, what: &str, bytes: &[u8]) {
    if let Err(error) = rt.write_all(bytes) {
        tell_failure(rt, what, error);
    }
}
