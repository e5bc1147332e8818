// One path of an image, by its number: its facts, and whether it can be satisfied. The search is the slices' own loop over one path,
// trials::run_path.
ghost use Rattle.std.specs.Prelude.{◌≡◌, ◌≤◌, length, Ok};
ghost use Rattle.definition.specs.Accepted.{path_of};
ghost use Rattle.definition.specs.Verdict.{queried};
ghost use Rattle.definition.specs.Verdict.{satisfiable as satisfiable_in};
ghost use Rattle.trials.specs.Facts.{compiled_by, Within};
ghost use Rattle.survey.specs.Sights.{Loads};
ghost use Rattle.examiner.specs.Standing.{Fair};

use crate::running::limit_in;
use definition::{Bounds, Fault, Kind, Place, Refusal, Satisfiable};
use formula::Area;
use trials::{Facts, Leg};

// A path of an image: the words of its formula to the front of the area, and its facts; or the first fault.
pub fn route(image: &[u8], path: usize, area: &mut Area) -> Result<Facts, Fault>
    ensures { Loads (path_of path image.now) result area.new }
{
    let sight = survey::accept(image)?;
    if sight.paths <= path {
        return Err(Fault::new(Kind::NoSuchPath, 0, 0));
    }
    survey::load(image, sight, path, area)
}

// Whether a path with these words and facts can be satisfied in that phase: by which mask first.
fn query(code: &[u32], facts: Facts, b: Bounds, phase: u8) -> Satisfiable
    requires { Fair b × Within facts × (length code.now ≤ 2049) }
    ensures { Ok result ≡ queried b phase (Ok (compiled_by code.now facts)) }
{
    let Some(limit) = limit_in(facts, b, phase) else {
        return Satisfiable::OverBound;
    };
    let first = Place {
        phase,
        path: 0,
        mask: 0,
        count: 0,
    };
    match trials::run_path(code, facts, limit, 1, first, limit as u64) {
        Leg::Ended(end) => Satisfiable::Mask(end.place.mask),
        // with a budget of all its masks the path is ended or left
        Leg::Open(_) | Leg::On(_, _) => Satisfiable::Never,
    }
}

// The same of a path of an image, by its number; or the refusal.
pub fn satisfiable(image: &[u8], b: Bounds, phase: u8, path: usize) -> Result<Satisfiable, Refusal>
    requires { Fair b }
    ensures { result ≡ satisfiable_in b phase image.now path }
{
    let mut area = Area::new();
    let facts = route(image, path, &mut area)?;
    Ok(query(&area.code[..facts.words], facts, b, phase))
}
