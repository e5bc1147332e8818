// The examiner: the public entries. Each of them judges its own input and answers from document 01's table; none asks
// anything of its caller, and each contract says the whole answer by one equation with a definition (definition's specs/, and specs/ here for
// the answers that hold an examination). That there is no second answer is proofs/One.antt. What they call stands in running.rt (places and
// slices), asking.rt (one path) and keeping.rt (checkpoints). docs/STEPS.md says where a slice tries an assignment.
// The laws stand in proofs/*.antt; the proof of a function stands in proofs/NAME/; where there is none the checker finds it.
#![tactic(auto)]

mod asking;
mod keeping;
mod numbers;
mod running;

ghost use Rattle.std.specs.Prelude.{◌≡◌, length};
ghost use Rattle.definition.specs.Accepted.{count_paths, path_free_atoms};
ghost use Rattle.definition.specs.Verdict.{the_bounds, check_necessity};
ghost use Rattle.definition.specs.Verdict.{satisfiable as satisfiable_in};
ghost use Rattle.definition.specs.Place.{started, sliced};
ghost use Rattle.definition.specs.Checkpoint.{read_checkpoint, checkpoint_image, write_checkpoint, buffer_after};
ghost use Rattle.examiner.specs.Answers.{opened_of, sliced_of, written_of};

use asking::{route, satisfiable};
use definition::{Bounds, Outcome, PathAtoms, Place, Refusal, Satisfiable};
use formula::Area;
use keeping::{HEAD, keep, restore};
pub use numbers::Numbers;
use running::{Stood, first_place, judge, run};

// An examination: the place at which it stands.
#[derive(Clone, Copy, Debug, PartialEq, Eq)]
pub struct Examination {
    pub place: Place,
}

// What a slice hands back: the examination at its new place, and what is said of it: the end, "not yet", or the refusal.
#[derive(Clone, Copy, Debug, PartialEq, Eq)]
pub struct Sliced {
    pub examination: Examination,
    pub said: Result<Option<Outcome>, Refusal>,
}

// What writing a checkpoint hands back: the examination as it was, and how many bytes the checkpoint has, or the refusal.
#[derive(Clone, Copy, Debug, PartialEq, Eq)]
pub struct Written {
    pub examination: Examination,
    pub said: Result<usize, Refusal>,
}

// A budget that no total reaches.
const UNSTOPPED: u64 = u64::MAX;

// How many Free atoms the security search takes on, and how many atoms of both kinds the liveness search.
const BOUNDS: Bounds = Bounds { free: 20, all: 22 };

// ---- an image

// How many paths an image has.
pub fn count_paths(image: &[u8]) -> Result<usize, Refusal>
    ensures { result ≡ count_paths image.now }
{
    let sight = survey::accept(image)?;
    Ok(sight.paths)
}

// How many Sig and Free atoms a path has.
pub fn path_free_atoms(image: &[u8], path: usize) -> Result<PathAtoms, Refusal>
    ensures { result ≡ path_free_atoms image.now path }
{
    let mut area = Area::new();
    let facts = route(image, path, &mut area)?;
    Ok(PathAtoms {
        sigs: facts.sigs,
        frees: facts.frees,
    })
}

// Whether a path can be satisfied with every Sig atom false: by which mask first.
pub fn satisfiable_without_signatures(image: &[u8], path: usize) -> Result<Satisfiable, Refusal>
    ensures { result ≡ satisfiable_in the_bounds 0 image.now path }
{
    satisfiable(image, BOUNDS, 0, path)
}

// Whether a path can be satisfied: by which mask first.
pub fn satisfiable_at_all(image: &[u8], path: usize) -> Result<Satisfiable, Refusal>
    ensures { result ≡ satisfiable_in the_bounds 1 image.now path }
{
    satisfiable(image, BOUNDS, 1, path)
}

// ---- an examination

// An examination of an image, at its first place.
pub fn start(image: &[u8]) -> Result<Examination, Refusal>
    ensures { result ≡ opened_of (started image.now) }
{
    let sight = survey::accept(image)?;
    Ok(Examination {
        place: first_place(sight.paths),
    })
}

// The unstopped run: the first place, and one slice. It is not stopped by its budget, so there is an end; "not yet" is never said, and would be
// answered as a refusal with number 0.
pub fn check_necessity(image: &[u8]) -> Result<Outcome, Refusal>
    ensures { result ≡ check_necessity the_bounds image.now }
{
    let sight = survey::accept(image)?;
    let stood = run(image, sight, BOUNDS, first_place(sight.paths), UNSTOPPED);
    stood.end.ok_or(Refusal {
        number: 0,
        place: 0,
    })
}

impl Examination {
    // At most `budget` assignments, from the examination's place on.
    pub fn slice(mut self, image: &[u8], budget: u64) -> Sliced
        ensures { result ≡ sliced_of self (sliced the_bounds image.now budget self.place) }
    {
        match judge(image, BOUNDS, self.place) {
            Err(fault) => Sliced {
                examination: self,
                said: Err(Refusal::from(fault)),
            },
            Ok(sight) => {
                let Stood { place, end } = run(image, sight, BOUNDS, self.place, budget);
                self.place = place;
                Sliced {
                    examination: self,
                    said: Ok(end),
                }
            }
        }
    }

    // The examination's checkpoint, to the front of the buffer.
    pub fn write_checkpoint(self, image: &[u8], buffer: &mut [u8]) -> Written
        ensures value { result ≡ written_of self (write_checkpoint the_bounds image.now self.place (length buffer.old)) }
        ensures left_behind { buffer.new ≡ buffer_after the_bounds image.now self.place buffer.old }
    {
        let said = keep(image, self.place, buffer).map_err(Refusal::from);
        Written {
            examination: self,
            said,
        }
    }
}

// ---- a checkpoint

// The examination of which the bytes are a checkpoint.
pub fn read_checkpoint(bytes: &[u8]) -> Result<Examination, Refusal>
    ensures { result ≡ opened_of (read_checkpoint the_bounds bytes.now) }
{
    let place = restore(bytes, BOUNDS)?;
    Ok(Examination { place })
}

// The image of which the bytes are a checkpoint: a part of them, not a copy; empty exactly where `read_checkpoint` refuses.
pub fn checkpoint_image(bytes: &[u8]) -> &[u8]
    ensures { result.now ≡ checkpoint_image the_bounds bytes.now }
{
    match restore(bytes, BOUNDS) {
        Err(_) => &bytes[..0],
        Ok(_) => &bytes[HEAD..],
    }
}
