// Files that outlive the power: the bytes are written to a new file beside the old one, written out, and take the old one's name.
ghost use Rattle.std.specs.Prelude.{◌≡◌, ◌≤◌, ◌++◌, ◌⊎◌, length, IfErr, IfOk, IfSome, string_bytes};
ghost use Rattle.std.specs.Io.{StartsWith};
ghost use Rattle.lines.specs.Lines.{ascii};
ghost use Rattle.keep.specs.Names.{behind};

use std::alloc::{AllocError, Allocator};
use std::fs::{OpenFile, OpenOptions};
use std::io::{ErrorKind, Write};
use std::os::unix::fs::OpenOptionsExt;
use std::rt::Files;
use std::{fs, io};
use streams::Failed;

// The longest name of a file that is kept, so that there is room for the name of the new one.
pub const NAME: usize = 4000;

// How many names there are for a new file.
const NAMES: u32 = 16777216;

// The bytes of the file of that name, if there is one: the part of the buffer that has them.
pub fn find_file<'a>(
    rt: &impl Files,
    name: &str,
    buffer: &'a mut [u8],
) -> Result<Option<&'a [u8]>, Failed>
    ensures ok { IfOk result (λ found. IfSome found (λ bytes. length bytes.now ≤ length buffer.old)) }
    ensures err { IfErr result (λ failed. failed.count ≤ length buffer.old) }
{
    match fs::open(rt, name) {
        Ok(mut file) => Ok(Some(streams::read_whole(&mut file, buffer)?)),
        Err(error) if error.kind() == ErrorKind::NotFound => Ok(None),
        Err(error) => Err(Failed { error, count: 0 }),
    }
}

// The bytes of the file of that name: the part of the buffer that has them.
pub fn read_file<'a>(rt: &impl Files, name: &str, buffer: &'a mut [u8]) -> Result<&'a [u8], Failed>
    ensures ok { IfOk result (λ bytes. length bytes.now ≤ length buffer.old) }
    ensures err { IfErr result (λ failed. failed.count ≤ length buffer.old) }
{
    match fs::open(rt, name) {
        Ok(mut file) => streams::read_whole(&mut file, buffer),
        Err(error) => Err(Failed { error, count: 0 }),
    }
}

// The name of a new file beside one: a point behind it, and six letters or digits, two for each byte.
fn fresh_name<A: Allocator>(
    alloc: A,
    kept: &str,
    a: u8,
    b: u8,
    c: u8,
) -> Result<String<A>, AllocError>
    ensures { IfOk result (λ name. string_bytes name ≡ kept.now ++ behind a b c) }
{
    format!(in alloc; "{kept}.{a:02x}{b:02x}{c:02x}")
}

// Makes a new file, which only its owner may read or write; no file of that name may be there.
fn create<R: Files>(rt: &R, name: &str) -> io::Result<R::File> {
    let mut options = OpenOptions::new();
    options.write(true).create_new(true).mode(0o600);
    options.open(rt, name)
}

// Makes a new file beside one, of the first name that is free.
fn create_beside<R: Files + Alloc>(rt: &R, kept: &str) -> io::Result<(R::File, String<R::A>)> {
    for n in 0..NAMES {
        let [_, a, b, c] = n.to_be_bytes();
        let name = fresh_name(rt.alloc(), kept, a, b, c)?;
        match create(rt, name.as_str()) {
            Ok(file) => return Ok((file, name)),
            Err(error) if error.kind() == ErrorKind::AlreadyExists => {}
            Err(error) => return Err(error),
        }
    }
    Err(io::Error::from(ErrorKind::AlreadyExists))
}

// Gives a file that is new these bytes for good, and closes it.
fn write_out<F: Write + OpenFile + Drop>(mut file: F, bytes: &[u8]) -> io::Result<()> {
    file.write_all(bytes)?;
    file.sync_all()
}

// The file `fresh`, which is new, gets these bytes for good, and takes the name `kept`.
fn take_name<R: Files>(
    rt: &R,
    file: R::File,
    fresh: &str,
    kept: &str,
    bytes: &[u8],
) -> io::Result<()> {
    write_out(file, bytes)?;
    fs::rename(rt, fresh, kept)
}

// Puts these bytes under the name `kept`: they are written to a new file, which takes that name. If that fails, the new file goes.
fn replace<R: Files + Alloc>(rt: &R, kept: &str, bytes: &[u8]) -> io::Result<()> {
    let (file, fresh) = create_beside(rt, kept)?;
    let done = take_name(rt, file, fresh.as_str(), kept, bytes);
    if done.is_err() {
        let _ = fs::remove_file(rt, fresh.as_str());
    }
    done
}

// The folder of a name: its front, up to its last slash; the working folder if it has none.
fn folder_of(name: &str) -> &str
    ensures { (result.now ≡ ascii ".") ⊎ StartsWith name.now result.now }
{
    match name.rsplit_once('/') {
        None => ".",
        Some(("", _)) => "/",
        Some((folder, _)) => folder,
    }
}

// Makes the names in a folder stay as they are for good.
fn folder_out(rt: &impl Files, folder: &str) -> io::Result<()> {
    let file = fs::open(rt, folder)?;
    file.sync_all()
}

// Gives the file `kept` these bytes for good. Until then it has its old bytes, whole, at any moment; no other file is touched.
pub fn keep_file<R: Files + Alloc>(rt: &R, kept: &str, bytes: &[u8]) -> io::Result<()> {
    if kept.len() > NAME {
        return Err(io::Error::from(ErrorKind::InvalidFilename));
    }
    replace(rt, kept, bytes)?;
    folder_out(rt, folder_of(kept))
}
