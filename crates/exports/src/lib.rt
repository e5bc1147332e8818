// The library for C and Rust: each public entry of the examiner under a C name. An answer is of plain numbers; a place or a verdict within it is a struct
// of its own, of plain numbers too. A refusal has its number and place and zeros in every other field but a lent examination; what is not refused has
// number 0 and place 0. The contracts say each answer by one equation with the paper's values (specs/Flat.antt); proofs/One.antt says that nothing is
// asked and that there is no second answer. The same declarations stand in bindings/c/bayekosh.h and bindings/rust/src/raw.rs.
#![tactic(auto)]

ghost use Rattle.std.specs.Prelude.{◌≡◌, length};
ghost use Rattle.definition.specs.Accepted.{count_paths, path_free_atoms};
ghost use Rattle.definition.specs.Verdict.{the_bounds, check_necessity};
ghost use Rattle.definition.specs.Verdict.{satisfiable as satisfiable_in};
ghost use Rattle.definition.specs.Place.{started, sliced};
ghost use Rattle.definition.specs.Checkpoint.{read_checkpoint, checkpoint_image, write_checkpoint, buffer_after};
ghost use Rattle.definition.specs.Values.{refused_values, checked_values, counted_values, numbered_values, satisfiable_values};
ghost use Rattle.examiner.specs.Answers.{examination_at, opened_of, sliced_of, written_of};
ghost use Rattle.examiner.specs.Values.{values_of, opened_values, written_values};
ghost use Rattle.exports.specs.Flat.{standing_at, place_at, checked_flat, counted_flat, numbered_flat, satisfiable_flat};
ghost use Rattle.exports.specs.Flat.{opened_flat, sliced_flat, written_flat, part_flat};

use definition::{Outcome, PathAtoms, Place, Refusal, Satisfiable};
use examiner::{Examination, Numbers, Sliced, Written};

// ---- the answers
// Kept: a number, a place and a found or ended of 0, 1 or 2 in each of them, as they are the C interface; so the answer of a slice holds all of
// `CheckedAnswer`, and a location is four fields.

// Where an examination stands. It is handed over and handed back by value.
#[repr(C)]
#[derive(Clone, Copy, Default)]
pub struct Standing {
    pub phase: u8,
    pub path: u16,
    pub mask: u32,
    pub count: u64,
}

// How many paths an image has.
#[repr(C)]
#[derive(Clone, Copy, Default)]
pub struct CountedAnswer {
    pub number: u32,
    pub place: usize,
    pub paths: usize,
}

// The Sig and Free atoms of a path.
#[repr(C)]
#[derive(Clone, Copy, Default)]
pub struct NumberedAnswer {
    pub number: u32,
    pub place: usize,
    pub sigs: usize,
    pub frees: usize,
}

// Whether a path can be satisfied: found is 0 for none, 1 for the mask, 2 for a path over its bound.
#[repr(C)]
#[derive(Clone, Copy, Default)]
pub struct SatisfiableAnswer {
    pub number: u32,
    pub place: usize,
    pub found: u32,
    pub mask: u32,
}

// An examination to begin with, or to go on with.
#[repr(C)]
#[derive(Clone, Copy, Default)]
pub struct OpenedAnswer {
    pub number: u32,
    pub place: usize,
    pub examination: Standing,
}

// The verdict of the unstopped run.
#[repr(C)]
#[derive(Clone, Copy, Default)]
pub struct CheckedAnswer {
    pub number: u32,
    pub place: usize,
    pub verdict: u32,
    pub reason: u32,
    pub path: u32,
    pub start: u32,
    pub end: u32,
    pub line: u32,
    pub column: u32,
    pub mask: u32,
    pub total: u64,
}

// What a slice says: ended is 1 where it came to the end, which the verdict's fields then tell; and the examination at its new place.
#[repr(C)]
#[derive(Clone, Copy, Default)]
pub struct SlicedAnswer {
    pub ended: u32,
    pub said: CheckedAnswer,
    pub examination: Standing,
}

// How many bytes of a checkpoint were written, and the examination as it was.
#[repr(C)]
#[derive(Clone, Copy, Default)]
pub struct WrittenAnswer {
    pub number: u32,
    pub place: usize,
    pub length: usize,
    pub examination: Standing,
}

// A part of the bytes that were handed over: the image of a checkpoint. Empty, at offset 0, where they are none.
#[repr(C)]
#[derive(Clone, Copy)]
pub struct ImagePart {
    pub offset: usize,
    pub length: usize,
}

// ---- from the examiner's answers, and to them

// The examination that stands there.
impl From<Standing> for Examination {
    ghost from_gives = { λ s e. e ≡ examination_at (place_at s) };

    fn from(standing: Standing) -> Examination {
        let place = Place {
            phase: standing.phase,
            path: standing.path,
            mask: standing.mask,
            count: standing.count,
        };
        Examination { place }
    }
}

// Where an examination stands.
impl From<Examination> for Standing {
    ghost from_gives = { λ e s. s ≡ standing_at e.place };

    fn from(examination: Examination) -> Standing {
        let place = examination.place;
        Standing {
            phase: place.phase,
            path: place.path,
            mask: place.mask,
            count: place.count,
        }
    }
}

// The answer of a count.
impl From<Result<usize, Refusal>> for CountedAnswer {
    ghost from_gives = { λ r a. a ≡ counted_flat (counted_values r) };

    #[tactic(auto, unfolding(definition::specs::Values::counted_values))]
    fn from(answer: Result<usize, Refusal>) -> CountedAnswer {
        match answer {
            Err(refusal) => CountedAnswer {
                number: refusal.number,
                place: refusal.place,
                ..CountedAnswer::default()
            },
            Ok(paths) => CountedAnswer {
                paths,
                ..CountedAnswer::default()
            },
        }
    }
}

// The answer of a numbering.
impl From<Result<PathAtoms, Refusal>> for NumberedAnswer {
    ghost from_gives = { λ r a. a ≡ numbered_flat (numbered_values r) };

    #[tactic(auto, unfolding(definition::specs::Values::numbered_values))]
    fn from(answer: Result<PathAtoms, Refusal>) -> NumberedAnswer {
        match answer {
            Err(refusal) => NumberedAnswer {
                number: refusal.number,
                place: refusal.place,
                ..NumberedAnswer::default()
            },
            Ok(PathAtoms { sigs, frees }) => NumberedAnswer {
                sigs,
                frees,
                ..NumberedAnswer::default()
            },
        }
    }
}

// The answer of a query.
impl From<Result<Satisfiable, Refusal>> for SatisfiableAnswer {
    ghost from_gives = { λ r a. a ≡ satisfiable_flat (satisfiable_values r) };

    #[tactic(auto, unfolding(definition::specs::Values::satisfiable_values))]
    fn from(answer: Result<Satisfiable, Refusal>) -> SatisfiableAnswer {
        match answer {
            Err(refusal) => SatisfiableAnswer {
                number: refusal.number,
                place: refusal.place,
                ..SatisfiableAnswer::default()
            },
            Ok(Satisfiable::Never) => SatisfiableAnswer::default(),
            Ok(Satisfiable::Mask(mask)) => SatisfiableAnswer {
                found: 1,
                mask,
                ..SatisfiableAnswer::default()
            },
            Ok(Satisfiable::OverBound) => SatisfiableAnswer {
                found: 2,
                ..SatisfiableAnswer::default()
            },
        }
    }
}

// The answer of a start or of a checkpoint that is read.
impl From<Result<Examination, Refusal>> for OpenedAnswer {
    ghost from_gives = { λ r a. a ≡ opened_flat (opened_values r) };

    fn from(answer: Result<Examination, Refusal>) -> OpenedAnswer {
        match answer {
            Err(refusal) => OpenedAnswer {
                number: refusal.number,
                place: refusal.place,
                ..OpenedAnswer::default()
            },
            Ok(examination) => OpenedAnswer {
                examination: Standing::from(examination),
                ..OpenedAnswer::default()
            },
        }
    }
}

// A refusal.
impl From<Refusal> for CheckedAnswer {
    ghost from_gives = { λ r a. a ≡ checked_flat (refused_values r) };

    fn from(refusal: Refusal) -> CheckedAnswer {
        CheckedAnswer {
            number: refusal.number,
            place: refusal.place,
            ..CheckedAnswer::default()
        }
    }
}

// An end.
impl From<Numbers> for CheckedAnswer {
    ghost from_gives = { λ n a. a ≡ checked_flat (values_of n) };

    fn from(numbers: Numbers) -> CheckedAnswer {
        let location = numbers.location;
        CheckedAnswer {
            number: 0,
            place: 0,
            verdict: numbers.verdict,
            reason: numbers.reason,
            path: numbers.path,
            start: location.start,
            end: location.end,
            line: location.line,
            column: location.column,
            mask: numbers.mask,
            total: numbers.total,
        }
    }
}

// The answer of the unstopped run.
impl From<Result<Outcome, Refusal>> for CheckedAnswer {
    ghost from_gives = { λ r a. a ≡ checked_flat (checked_values r) };

    #[tactic(auto, unfolding(definition::specs::Values::checked_values))]
    fn from(answer: Result<Outcome, Refusal>) -> CheckedAnswer {
        match answer {
            Err(refusal) => CheckedAnswer::from(refusal),
            Ok(outcome) => CheckedAnswer::from(Numbers::from(outcome)),
        }
    }
}

// The answer of a slice.
impl From<Sliced> for SlicedAnswer {
    ghost from_gives = { λ r a. a ≡ sliced_flat r };

    #[tactic(auto, unfolding(definition::specs::Values::said_values))]
    fn from(answer: Sliced) -> SlicedAnswer {
        let examination = Standing::from(answer.examination);
        let (ended, said) = match answer.said {
            Err(refusal) => (0, CheckedAnswer::from(refusal)),
            Ok(None) => (0, CheckedAnswer::default()),
            Ok(Some(outcome)) => (1, CheckedAnswer::from(Numbers::from(outcome))),
        };
        SlicedAnswer {
            ended,
            said,
            examination,
        }
    }
}

// The answer of a checkpoint that is written.
impl From<Written> for WrittenAnswer {
    ghost from_gives = { λ r a. a ≡ written_flat (written_values r) };

    fn from(answer: Written) -> WrittenAnswer {
        let examination = Standing::from(answer.examination);
        match answer.said {
            Err(refusal) => WrittenAnswer {
                number: refusal.number,
                place: refusal.place,
                length: 0,
                examination,
            },
            Ok(length) => WrittenAnswer {
                number: 0,
                place: 0,
                length,
                examination,
            },
        }
    }
}

// ---- an image

// How many paths an image has: examiner::count_paths.
#[unsafe(no_mangle)]
pub extern "C" fn bayekosh_count_paths(image: &[u8]) -> CountedAnswer
    ensures { result ≡ counted_flat (counted_values (count_paths image.now)) }
{
    CountedAnswer::from(examiner::count_paths(image))
}

// How many Sig and Free atoms a path has: examiner::path_free_atoms.
#[unsafe(no_mangle)]
pub extern "C" fn bayekosh_path_free_atoms(image: &[u8], path: usize) -> NumberedAnswer
    ensures { result ≡ numbered_flat (numbered_values (path_free_atoms image.now path)) }
{
    NumberedAnswer::from(examiner::path_free_atoms(image, path))
}

// Whether a path can be satisfied with every Sig atom false: examiner::satisfiable_without_signatures.
#[unsafe(no_mangle)]
pub extern "C" fn bayekosh_satisfiable_without_signatures(
    image: &[u8],
    path: usize,
) -> SatisfiableAnswer
    ensures { result ≡ satisfiable_flat (satisfiable_values (satisfiable_in the_bounds 0 image.now path)) }
{
    SatisfiableAnswer::from(examiner::satisfiable_without_signatures(image, path))
}

// Whether a path can be satisfied: examiner::satisfiable_at_all.
#[unsafe(no_mangle)]
pub extern "C" fn bayekosh_satisfiable_at_all(image: &[u8], path: usize) -> SatisfiableAnswer
    ensures { result ≡ satisfiable_flat (satisfiable_values (satisfiable_in the_bounds 1 image.now path)) }
{
    SatisfiableAnswer::from(examiner::satisfiable_at_all(image, path))
}

// ---- an examination

// An examination of an image, at its first place: examiner::start.
#[unsafe(no_mangle)]
pub extern "C" fn bayekosh_start(image: &[u8]) -> OpenedAnswer
    ensures { result ≡ opened_flat (opened_values (opened_of (started image.now))) }
{
    OpenedAnswer::from(examiner::start(image))
}

// At most `budget` assignments, from the examination's place on: Examination::slice.
#[unsafe(no_mangle)]
pub extern "C" fn bayekosh_slice(examination: Standing, image: &[u8], budget: u64) -> SlicedAnswer
    ensures { result ≡ sliced_flat (sliced_of (examination_at (place_at examination)) (sliced the_bounds image.now budget (place_at examination))) }
{
    SlicedAnswer::from(Examination::from(examination).slice(image, budget))
}

// The unstopped run: examiner::check_necessity.
#[unsafe(no_mangle)]
pub extern "C" fn bayekosh_check_necessity(image: &[u8]) -> CheckedAnswer
    ensures { result ≡ checked_flat (checked_values (check_necessity the_bounds image.now)) }
{
    CheckedAnswer::from(examiner::check_necessity(image))
}

// The examination's checkpoint, to the front of the buffer: Examination::write_checkpoint.
#[unsafe(no_mangle)]
pub extern "C" fn bayekosh_write_checkpoint(
    examination: Standing,
    image: &[u8],
    buffer: &mut [u8],
) -> WrittenAnswer
    ensures value { result ≡ written_flat (written_values (written_of (examination_at (place_at examination)) (write_checkpoint the_bounds image.now (place_at examination) (length buffer.old)))) }
    ensures left_behind { buffer.new ≡ buffer_after the_bounds image.now (place_at examination) buffer.old }
{
    WrittenAnswer::from(Examination::from(examination).write_checkpoint(image, buffer))
}

// ---- a checkpoint

// The examination of which the bytes are a checkpoint: examiner::read_checkpoint.
#[unsafe(no_mangle)]
pub extern "C" fn bayekosh_read_checkpoint(bytes: &[u8]) -> OpenedAnswer
    ensures { result ≡ opened_flat (opened_values (opened_of (read_checkpoint the_bounds bytes.now))) }
{
    OpenedAnswer::from(examiner::read_checkpoint(bytes))
}

// The image of which the bytes are a checkpoint, as its offset and its length in them: examiner::checkpoint_image. An image that is accepted is never
// empty, so an empty part is a refusal.
#[unsafe(no_mangle)]
pub extern "C" fn bayekosh_checkpoint_image(bytes: &[u8]) -> ImagePart
    ensures { result ≡ part_flat (checkpoint_image the_bounds bytes.now) }
{
    let part = examiner::checkpoint_image(bytes);
    if part.is_empty() {
        return ImagePart {
            offset: 0,
            length: 0,
        };
    }
    ImagePart {
        offset: 16,
        length: part.len(),
    }
}
