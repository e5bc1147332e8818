// The paths of an image, beside those that its answer has.
ghost use Rattle.std.specs.Prelude.{ℕ, ◌<◌};
ghost use Rattle.paths.specs.Gathering.{Asked};

use crate::answer::{Answer, Differs};
use definition::Location;

// How many paths of an image the list writes out, at most.
const MOST_PATHS: usize = 130;

// A location.
fn same_location(location: Location, answer: &mut Answer) -> Result<(), Differs> {
    answer.expect(u64::from(location.start))?;
    answer.expect(u64::from(location.end))?;
    answer.expect(u64::from(location.line))?;
    answer.expect(u64::from(location.column))
}

// One path: how many pieces it has, the pieces, and the location of its return.
fn same_path(image: &[u8], top: usize, wanted: usize, answer: &mut Answer) -> Result<(), Differs>
    requires { Asked image.now top wanted }
{
    let mut pieces = [0u16; 512];
    let path = paths::enumerate(image, top, wanted, &mut pieces);
    answer.expect(path.pieces as u64)?;
    for piece in pieces.iter().take(path.pieces) {
        answer.expect(u64::from(*piece))?;
    }
    same_location(path.location, answer)
}

// How many paths there are, how many of them the list has, and these.
pub fn same_counted(
    image: &[u8],
    top: usize,
    count: usize,
    answer: &mut Answer,
) -> Result<(), Differs>
    requires { (wanted : ℕ) → wanted < count → Asked image.now top wanted }
{
    let written = count.min(MOST_PATHS);
    answer.expect(count as u64)?;
    answer.expect(written as u64)?;
    for wanted in 0..written {
        same_path(image, top, wanted, answer)?;
    }
    Ok(())
}
