// The formulas of an image's paths, beside what its answer has of them: atoms, whether a checksig stands on the path, and the truth at 64 masks
// in both phases; or where literal arithmetic leaves 64 bits.
ghost use Rattle.std.specs.Prelude.{◌<◌, ◌≤◌, length};
ghost use Rattle.survey.specs.Sights.{Sees};

use crate::answer::{Answer, Differs};
use definition::{Kind, Refusal};
use formula::Area;
use survey::Sight;
use trials::Facts;

// How many words a formula has at most.
const MOST_WORDS: usize = 2049;

// The truths at these masks as a number, whose lowest bit is that at the first.
fn truths(code: &[u32], phase: u8, sigs: usize, masks: &[[u8; 4]]) -> u32
    requires { length code.now ≤ 2049 }
{
    let mut bits = 0;
    for mask in masks.iter().rev() {
        let truth = evaluation::evaluate(code, phase, sigs, u32::from_be_bytes(*mask));
        bits = (bits << 1) | truth as u32;
    }
    bits
}

// A formula of which so much is known: its atoms, whether a checksig stands on the path, and, of phase 0, security, and of phase 1, liveness, the truths at
// the last 32 of the 64 masks, then those at the first.
fn same_formula(area: &Area, facts: Facts, answer: &mut Answer) -> Result<(), Differs> {
    answer.expect(facts.sigs as u64)?;
    answer.expect(facts.frees as u64)?;
    answer.expect(facts.signed as u64)?;
    let masks = answer.masks()?;
    // Kept: they are no more than that by what `load` tells, of which the proof would be longer than the `min`.
    let code = &area.code[0..facts.words.min(MOST_WORDS)];
    for phase in 0..2 {
        answer.expect(u64::from(truths(code, phase, facts.sigs, &masks[32..64])))?;
        answer.expect(u64::from(truths(code, phase, facts.sigs, &masks[0..32])))?;
    }
    Ok(())
}

// A path of an image that is accepted.
fn same_path(image: &[u8], sight: Sight, wanted: usize, answer: &mut Answer) -> Result<(), Differs>
    requires { Sees image.now sight × (wanted < sight.paths) }
{
    let mut area = Area::new();
    match survey::load(image, sight, wanted, &mut area) {
        Ok(facts) => same_formula(&area, facts, answer),
        Err(_) => Err(answer.differs()),
    }
}

// 0, and every path of an image that is accepted.
fn same_sound(image: &[u8], sight: Sight, answer: &mut Answer) -> Result<(), Differs>
    requires { Sees image.now sight }
{
    answer.expect(0)?;
    for wanted in 0..sight.paths {
        same_path(image, sight, wanted, answer)?;
    }
    Ok(())
}

// The formulas of an image that was read; 10 and the place where a path overflows, or nothing where there are too many paths, whose formulas are not recorded.
pub fn same_formulas(image: &[u8], answer: &mut Answer) -> Result<(), Differs> {
    match survey::accept(image) {
        Ok(sight) => same_sound(image, sight, answer),
        Err(fault) if fault.kind == Kind::TooManyPaths => Ok(()),
        Err(fault) => answer.expect_refusal(Refusal::from(fault)),
    }
}
