// Checkpoints: 16 bytes of mark, version and place, then the image.
ghost use Rattle.std.specs.Prelude.{◌≡◌, [], ◌^◌, ◌≤◌, ◌<◌, length};
ghost use Rattle.definition.specs.Verdict.{the_bounds};
ghost use Rattle.definition.specs.Checkpoint.{checkpoint, place_in, read_checkpoint, write_checkpoint, buffer_after};
ghost use Rattle.examiner.specs.Standing.{Fair};

use crate::BOUNDS;
use crate::running::judge;
use definition::{Bounds, Fault, Kind, Place};

// How many bytes stand before the image: the mark "BVC", the version, and the place.
pub const HEAD: usize = 16;

// ---- writing

// The 16 bytes before the image: BVC, version 1, phase, path, mask and count.
fn head_of(p: Place) -> [u8; 16]
    requires { p.count < 2 ^ 32 }
    ensures { result ≡ checkpoint p [] }
{
    let [path_1, path_2] = p.path.to_be_bytes();
    let [mask_1, mask_2, mask_3, mask_4] = p.mask.to_be_bytes();
    let [count_1, count_2, count_3, count_4] = (p.count as u32).to_be_bytes();
    [
        b'B', b'V', b'C', 0, 1, p.phase, path_1, path_2, mask_1, mask_2, mask_3, mask_4, count_1,
        count_2, count_3, count_4,
    ]
}

// A checkpoint of an image at that place, to the front of the buffer: how many bytes it has; or the first fault, of the image, of the place, or
// that there is no room.
pub fn keep(image: &[u8], p: Place, buffer: &mut [u8]) -> Result<usize, Fault>
    ensures value { result ≡ write_checkpoint the_bounds image.now p (length buffer.old) }
    ensures left_behind { buffer.new ≡ buffer_after the_bounds image.now p buffer.old }
{
    judge(image, BOUNDS, p)?;
    let long = HEAD + image.len();
    if buffer.len() < long {
        return Err(Fault::new(Kind::BufferShort, 0, 0));
    }
    buffer[..HEAD].copy_from_slice(&head_of(p));
    buffer[HEAD..long].copy_from_slice(image);
    Ok(long)
}

// ---- reading

// The place fields of a checkpoint.
// Kept: ints reads the numbers, by the definition's be16 and be32, as it does for every image.
fn place_in(bytes: &[u8]) -> Place
    requires { 16 ≤ length bytes.now }
    ensures { result ≡ place_in bytes.now }
{
    Place {
        phase: bytes[5],
        path: ints::two(bytes, 6) as u16,
        mask: ints::four(bytes, 8) as u32,
        count: ints::four(bytes, 12) as u64,
    }
}

// Any bytes: the place that a checkpoint holds, if its image is accepted and the place fits it, or the first fault.
pub fn restore(bytes: &[u8], b: Bounds) -> Result<Place, Fault>
    requires { Fair b }
    ensures { result ≡ read_checkpoint b bytes.now }
{
    if bytes.len() < HEAD || !reader::marked(bytes, b'C') {
        return Err(Fault::new(Kind::CheckpointHead, 0, 0));
    }
    if ints::two(bytes, 3) != 1 {
        return Err(Fault::new(Kind::CheckpointVersion, 3, 3));
    }
    let place = place_in(bytes);
    judge(&bytes[HEAD..], b, place)?;
    Ok(place)
}
