// Bytes from outside: a whole input, and a list of pieces, each behind its length. What cannot be read is told apart from what has ended.
#![tactic(auto)]

pub mod failures;
pub mod rows;
pub mod words;

ghost use Rattle.std.specs.Prelude.{◌≤◌, length, IfErr, IfOk, IfSome};

use std::io::Read;
use std::{fmt, io};

// Room for more than the longest image has, or the longest checkpoint, so that a longer one is seen.
pub const ROOM: usize = 65536;

// A read failed: its error, and how many bytes came before it, which stand at the front of the buffer.
#[derive(Clone, Copy, Debug)]
pub struct Failed {
    pub error: io::Error,
    pub count: usize,
}

// A list ends within a piece, or the length of a piece is wrong: how many bytes of the piece stand at the front of the buffer.
#[derive(Clone, Copy, Debug, PartialEq, Eq)]
pub struct Cut {
    pub count: usize,
}

impl fmt::Display for Cut {
    fn fmt<W: fmt::Write>(&self, f: &mut fmt::Formatter<W>) -> fmt::Result {
        f.write_str("the list ends within it, or a length in it is wrong")
    }
}

// Reads until the buffer is full or the input ends: how many bytes stand at the front of the buffer.
fn fill<R: Read>(input: &mut R, buffer: &mut [u8]) -> Result<usize, Failed>
    ensures ok { IfOk result (λ n. n ≤ length buffer.new) }
    ensures err { IfErr result (λ failed. failed.count ≤ length buffer.new) }
{
    let mut count: usize = 0;
    while count < buffer.len() {
        match input.read(&mut buffer[count..]) {
            Ok(0) => return Ok(count),
            Ok(n) => count += n,
            Err(error) => return Err(Failed { error, count }),
        }
    }
    Ok(count)
}

// An input, read to its end or until the buffer is full: the part of the buffer that has its bytes.
pub fn read_whole<'a, R: Read>(input: &mut R, buffer: &'a mut [u8]) -> Result<&'a [u8], Failed>
    ensures ok { IfOk result (λ bytes. length bytes.now ≤ length buffer.old) }
    ensures err { IfErr result (λ failed. failed.count ≤ length buffer.old) }
{
    let n = fill(input, buffer)?;
    Ok(&buffer[0..n])
}

// The next piece of a list, behind a length of 32 bits: the part of the buffer that has it, or none where the list has ended.
pub fn take<'a, R: Read>(list: &mut R, buffer: &'a mut [u8]) -> Result<Option<&'a [u8]>, Cut>
    ensures ok { IfOk result (λ piece. IfSome piece (λ bytes. length bytes.now ≤ length buffer.old)) }
    ensures err { IfErr result (λ cut. cut.count ≤ length buffer.old) }
{
    let mut head = [0u8; 4];
    let n = match fill(list, &mut head) {
        Ok(0) => return Ok(None),
        Ok(4) => u32::from_be_bytes(head) as usize,
        _ => return Err(Cut { count: 0 }),
    };
    if buffer.len() < n {
        return Err(Cut { count: 0 });
    }
    match fill(list, &mut buffer[0..n]) {
        Ok(count) if count == n => Ok(Some(&buffer[0..n])),
        Ok(count) => Err(Cut { count }),
        Err(failed) => Err(Cut {
            count: failed.count,
        }),
    }
}
