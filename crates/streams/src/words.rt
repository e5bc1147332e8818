// The words that a program is started with. Word 0 is its own name.
ghost use Rattle.std.specs.Prelude.{◌≤◌, length, IfSome};

use std::env::FillError;
use std::rt::Env;

// Whether there is such a word.
pub fn is_given(env: &impl Env, i: usize) -> bool {
    let mut space = [0u8; 1];
    !matches!(env.arg(i, &mut space), Err(FillError::NotPresent))
}

// A word of a byte or more that is within the buffer: the part of the buffer that has it.
pub fn word<'a>(env: &impl Env, i: usize, buffer: &'a mut [u8]) -> Option<&'a [u8]>
    ensures { IfSome result (λ bytes. length bytes.now ≤ length buffer.old) }
{
    match env.arg(i, buffer) {
        Ok(n) if n != 0 => Some(&buffer[0..n]),
        _ => None,
    }
}
