// Acceptance: any bytes to what is known of an image that is accepted, or to its fault (numbers 1 to 10); and one path of it at a time, its
// formula's words into an area of the caller's. `survey` and `accept` ask nothing of their input. What an accepted image is, is said in
// definition's specs/Accepted.antt, what the code tells of it in specs/. The laws stand in proofs/: of one path in Loading.antt, of every
// path in Compiling.antt, of an accepted image, for callers, in Sighting.antt. The proof of a function stands in proofs/NAME/; where there
// is none the checker finds it.
#![tactic(auto)]

ghost use Rattle.std.specs.Prelude.{◌≡◌, List, ◌∷◌, ◌≤◌, ◌<◌, length, drop, Ok};
ghost use Rattle.definition.specs.Tree.{Contract};
ghost use Rattle.definition.specs.Reading.{read};
ghost use Rattle.definition.specs.Paths.{Path, paths_b};
ghost use Rattle.definition.specs.Paths.{pieces as pieces_of};
ghost use Rattle.definition.specs.Formula.{no_atoms, path_formula};
ghost use Rattle.definition.specs.Accepted.{compiled, compile};
ghost use Rattle.formula.specs.Areas.{Pieced, PathHolds};
ghost use Rattle.survey.specs.Sights.{Sees, Loads, Compiles, Stored, sight_of};

use definition::{Fault, Kind, Location};
use formula::Area;
use trials::{AtomCounts, Facts};

// What is known of an image: its mode, how many statements its top list has, how many paths there are.
// Kept: no image in it, and no ghost field for what `Sees` says of the two: an answer is said by one equation with `sight_of`.
#[derive(Clone, Copy, Debug, PartialEq, Eq)]
pub struct Sight {
    pub mode: u8,
    pub top: usize,
    pub paths: usize,
}

// How many paths an image may have.
pub const MOST_PATHS: usize = 128;

// A path with these pieces and its return's location: the words of its formula to the front of the area, and its facts; or its fault, literal
// arithmetic that leaves 64 bits.
fn load_pieces(
    image: &[u8],
    mode: u8,
    pieces: &[u16],
    location: Location,
    area: &mut Area,
) -> Result<Facts, Fault>
    requires { PathHolds image.now pieces.now }
    ensures { (p : Path) → Pieced image.now pieces.now (pieces_of p) → p.location ≡ location → Loads (compiled p (path_formula mode (pieces_of p) no_atoms)) result area.new }
{
    let formed = formula::path_formula(image, mode, pieces, area);
    let n = formed.map_err(|o| Fault::new(Kind::Overflows, o.at, o.at))?;
    Ok(Facts {
        words: n.words,
        sigs: n.sigs,
        frees: n.frees,
        signed: formula::path_has_checksig(image, pieces),
        location,
    })
}

// One path of an image: the words of its formula to the front of the area, and its facts; or its fault.
pub fn load(image: &[u8], sight: Sight, wanted: usize, area: &mut Area) -> Result<Facts, Fault>
    requires { Sees image.now sight × (wanted < sight.paths) }
    ensures { (c : Contract) → read image.now ≡ Ok c → (p : Path) (ps : List Path) → drop wanted (paths_b c.block 8) ≡ p ∷ ps → Loads (compiled p (path_formula c.mode (pieces_of p) no_atoms)) result area.new }
{
    let mut pieces = [0u16; 512];
    let g = paths::enumerate(image, sight.top, wanted, &mut pieces);
    load_pieces(image, sight.mode, &pieces[0..g.pieces], g.location, area)
}

// Every path of an image, one by one: its counts of atoms to the front of the table.
fn survey_paths(image: &[u8], sight: Sight, table: &mut [AtomCounts; 128]) -> Result<Sight, Fault>
    requires { Sees image.now sight × (sight.paths ≤ 128) }
    ensures { (c : Contract) → read image.now ≡ Ok c → Compiles (compile c.mode (paths_b c.block 8)) sight result table.old table.new }
{
    let mut area = Area::new();
    for i in 0..sight.paths {
        let facts = load(image, sight, i, &mut area)?;
        table[i] = facts.counts();
    }
    Ok(sight)
}

// Any bytes: what is known of an image that is accepted, and its paths' counts of atoms to the front of the table; or its fault.
pub fn survey(image: &[u8], table: &mut [AtomCounts; 128]) -> Result<Sight, Fault>
    ensures value { result ≡ sight_of image.now }
    ensures stored { Stored image.now table.old table.new }
{
    let head = reader::read(image)?;
    let sight = Sight {
        mode: head.mode,
        top: head.count,
        paths: paths::count_paths(image, head.count),
    };
    if MOST_PATHS < sight.paths {
        return Err(Fault::new(Kind::TooManyPaths, 0, 0));
    }
    survey_paths(image, sight, table)
}

// Any bytes: what is known of an image that is accepted, or its fault.
pub fn accept(image: &[u8]) -> Result<Sight, Fault>
    ensures { result ≡ sight_of image.now }
{
    let mut table = [AtomCounts::NONE; 128];
    survey(image, &mut table)
}
