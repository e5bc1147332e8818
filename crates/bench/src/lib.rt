// What bench/ measures beside the Rust and crates/exports has not, exported for Rust to link: the reader, acceptance, and the assignments of an
// image's first path.
#![tactic(auto)]

ghost use Rattle.std.specs.Prelude.{◌<◌, ◌≤◌, length};
ghost use Rattle.survey.specs.Sights.{Sees};

use definition::{Fault, Refusal};
use formula::Area;
use survey::Sight;

// A refusal's number and place; for an image that is accepted 0, and what was asked for.
#[repr(C)]
#[derive(Clone, Copy)]
pub struct Told {
    pub number: u64,
    pub value: u64,
}

// What is told of an answer.
impl From<Result<u64, Fault>> for Told {
    fn from(answer: Result<u64, Fault>) -> Told {
        match answer {
            Ok(value) => Told { number: 0, value },
            Err(fault) => {
                let refusal = Refusal::from(fault);
                Told {
                    number: refusal.number as u64,
                    value: refusal.place as u64,
                }
            }
        }
    }
}

// Reads an image: the count of its top statements.
#[unsafe(no_mangle)]
pub extern "C" fn bench_read(image: &[u8]) -> Told {
    reader::read(image).map(|head| head.count as u64).into()
}

// Accepts an image: how many paths it has.
#[unsafe(no_mangle)]
pub extern "C" fn bench_survey(image: &[u8]) -> Told {
    survey::accept(image).map(|sight| sight.paths as u64).into()
}

// How many of the masks from 0 to the last one satisfy the formula in that phase.
fn satisfying(code: &[u32], phase: u8, sigs: usize, last: u32) -> u64
    requires { length code.now ≤ 2049 }
{
    // Kept: no `filter` and `count`, since this loop is what is timed.
    let mut sum: u64 = 0;
    for mask in 0..=last {
        if evaluation::evaluate(code, phase, sigs, mask) {
            sum += 1;
        }
    }
    sum
}

// The same of the first path of an image that is accepted.
fn first_satisfying(image: &[u8], sight: Sight, phase: u8, last: u32) -> Result<u64, Fault>
    requires { Sees image.now sight × (0 < sight.paths) }
{
    let mut area = Area::new();
    let facts = survey::load(image, sight, 0, &mut area)?;
    Ok(satisfying(&area.code[0..facts.words], phase, facts.sigs, last))
}

// Accepts an image, makes the formula of its first path and tries the masks from 0 to the last one in that phase: how many satisfy it; 0 where
// it has no path.
fn assignments(image: &[u8], phase: u8, last: u32) -> Result<u64, Fault> {
    let sight = survey::accept(image)?;
    if 0 < sight.paths {
        return first_satisfying(image, sight, phase, last);
    }
    Ok(0)
}

// The same, as it is exported.
#[unsafe(no_mangle)]
pub extern "C" fn bench_assignments(image: &[u8], phase: u8, last: u32) -> Told {
    assignments(image, phase, last).into()
}
