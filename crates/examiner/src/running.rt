// Whether a place fits an image, the first place, and the slice: the loop over the paths from a place on. The loop over one path's masks is
// trials::run_path, and nothing else here tries an assignment.
ghost use Rattle.std.specs.Prelude.{◌≡◌, List, ℕ, ◌<◌, length, Ok};
ghost use Rattle.definition.specs.Accepted.{Compiled, accepted};
ghost use Rattle.definition.specs.Verdict.{finish};
ghost use Rattle.definition.specs.Place.{start, slice};
ghost use Rattle.trials.specs.Facts.{compiled_by, Within};
ghost use Rattle.trials.specs.Weights.{tried_on};
ghost use Rattle.survey.specs.Sights.{Sighted};
ghost use Rattle.examiner.specs.Answers.{judge_of, stood_of};
ghost use Rattle.examiner.specs.Standing.{Fair, Judged, Onward};

use definition::{Bounds, Fault, Kind, Outcome, Place, Verdict};
use formula::Area;
use survey::{MOST_PATHS, Sight};
use trials::{AtomCounts, Facts, Leg};

// Where a slice stands after it, and the end if it is come to.
#[derive(Clone, Copy, Debug, PartialEq, Eq)]
pub struct Stood {
    pub place: Place,
    pub end: Option<Outcome>,
}

// Any bytes and any place: what is known of an image that is accepted and that the place fits, or the first fault.
pub fn judge(image: &[u8], b: Bounds, p: Place) -> Result<Sight, Fault>
    requires { Fair b }
    ensures { result ≡ judge_of b image.now p }
{
    let mut table = [AtomCounts::NONE; MOST_PATHS];
    let sight = survey::survey(image, &mut table)?;
    if !trials::place_fits(&table[..sight.paths], b, p) {
        return Err(Fault::new(Kind::CheckpointPlace, 5, 5));
    }
    Ok(sight)
}

// The first place of an examination of n paths.
pub fn first_place(n: usize) -> Place
    ensures { (ps : List Compiled) → n ≡ length ps → result ≡ start ps }
{
    Place {
        phase: if n == 0 { 1 } else { 0 },
        path: 0,
        mask: 0,
        count: 0,
    }
}

// Kept: image and sight are two parameters here and below; a struct of both, with what is known of them, would be taken apart at each call of survey
// and paths.

// The verdict where every path is exhausted.
fn finish_verdict(image: &[u8], sight: Sight) -> Verdict
    requires { Sighted image.now sight }
    ensures { (ps : List Compiled) → accepted image.now ≡ Ok ps → result ≡ finish ps }
{
    if sight.paths == 0 {
        return Verdict::Ok;
    }
    let mut pieces = [0u16; 512];
    let first = paths::enumerate(image, sight.top, 0, &mut pieces);
    Verdict::DeadPath {
        location: first.location,
    }
}

// How many assignments a phase has on a path, if it is not over its bound.
pub fn limit_in(facts: Facts, b: Bounds, phase: u8) -> Option<u32>
    requires { Fair b × Within facts }
    ensures { (code : List ℕ) → result ≡ tried_on b phase (compiled_by code facts) }
{
    let atoms = trials::atoms_in(facts, phase);
    if trials::bound_of(b, phase) < atoms {
        return None;
    }
    Some(trials::limit_of(atoms))
}

// From a place on a path: the end, or as far as the budget or the path goes. (A path of an accepted image has no fault; one that had would be
// answered with "not yet".)
fn leg(image: &[u8], sight: Sight, b: Bounds, p: Place, budget: u64, area: &mut Area) -> Leg
    requires { Fair b × Judged b image.now sight p × (p.path < sight.paths) }
    ensures { (ps : List Compiled) → accepted image.now ≡ Ok ps → Onward b ps budget p result }
{
    let Ok(facts) = survey::load(image, sight, p.path as usize, area) else {
        return Leg::Open(p);
    };
    let Some(limit) = limit_in(facts, b, p.phase) else {
        return Leg::Ended(trials::outcome_of(trials::over_verdict(facts, p), p, p.count));
    };
    trials::run_path(
        &area.code[..facts.words],
        facts,
        limit,
        sight.paths,
        p,
        budget,
    )
}

// A slice: path by path, at most `budget` assignments from that place on.
pub fn run(image: &[u8], sight: Sight, b: Bounds, from: Place, budget: u64) -> Stood
    requires { Fair b × Judged b image.now sight from }
    ensures { (ps : List Compiled) → accepted image.now ≡ Ok ps → result ≡ stood_of (slice b ps budget from) }
{
    let mut area = Area::new();
    let mut p = from;
    let mut left = budget;
    while (p.path as usize) < sight.paths {
        match leg(image, sight, b, p, left, &mut area) {
            Leg::Ended(end) => {
                return Stood {
                    place: end.place,
                    end: Some(end),
                };
            }
            Leg::Open(place) => return Stood { place, end: None },
            Leg::On(next, rest) => {
                p = next;
                left = rest;
            }
        }
    }
    let end = trials::outcome_of(finish_verdict(image, sight), p, p.count);
    Stood {
        place: p,
        end: Some(end),
    }
}
