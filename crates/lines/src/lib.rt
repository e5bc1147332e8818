// The desk program's lines, written into a lent buffer: what `desk` and `keep` print, and what `replay` compares. specs/Lines.antt says what they are,
// from document 01; the laws stand in proofs/*.antt, the proof of a function in proofs/NAME/.
#![tactic(auto)]

ghost use Rattle.std.specs.Prelude.{◌≡◌, List, ◌++◌, ◌+◌, ◌≤◌, length};
ghost use Rattle.definition.specs.Accepted.{Compiled, accepted, count_paths, path_free_atoms};
ghost use Rattle.text.specs.Text.{Wrote, decimal_of};
ghost use Rattle.examiner.specs.Values.{values_of};
ghost use Rattle.lines.specs.Lines.{path_line, path_lines, verdict_text, location_text, total_text, verdict_line, refused_line, end_lines, report_of};
ghost use Rattle.lines.specs.Parts.{numbered_line};

use definition::{Location, Outcome, PathAtoms, Refusal};
use examiner::Numbers;
use text::{copy_out, push_decimal, push_piece};

// Room for the lines of any image: 128 paths, and the verdict.
pub const ROOM: usize = 16384;

// Room for the line of a refusal.
const REFUSED_ROOM: usize = 53;

// What is written.
type Text = text::Text<ROOM>;

// A word and the number after it.
fn field<const N: usize>(text: &mut text::Text<N>, word: &[u8], n: u64)
    requires { length text.old.items + length word.now + 20 ≤ N }
    ensures wrote { text.new.items ≡ text.old.items ++ (word.now ++ decimal_of n) }
    ensures upper_bound { length text.new.items ≤ length text.old.items + length word.now + 20 }
{
    push_piece(text, word);
    push_decimal(text, n);
}

// The line of one path.
#[tactic(auto, unfolding(crate::specs::Lines::path_line))]
fn path_line(text: &mut Text, path: usize, atoms: PathAtoms)
    requires { length text.old.items + 78 ≤ ROOM }
    ensures wrote { text.new.items ≡ text.old.items ++ path_line path atoms.sigs atoms.frees }
    ensures upper_bound { length text.new.items ≤ length text.old.items + 78 }
{
    field(text, b"path ", path as u64);
    field(text, b" sigs ", atoms.sigs as u64);
    field(text, b" free ", atoms.frees as u64);
    push_piece(text, b"\n");
}

// The line of a path of an image; nothing if there is no such path.
fn numbered_line(text: &mut Text, image: &[u8], path: usize)
    requires { length text.old.items + 78 ≤ ROOM }
    ensures wrote { text.new.items ≡ text.old.items ++ numbered_line path (path_free_atoms image.now path) }
    ensures upper_bound { length text.new.items ≤ length text.old.items + 78 }
{
    if let Ok(atoms) = examiner::path_free_atoms(image, path) {
        path_line(text, path, atoms);
    }
}

// The lines of the paths of an image, of which there are so many.
#[tactic(auto, using(crate::proofs::Laws::counted_few, crate::proofs::Laws::more_reached))]
fn path_lines(text: &mut Text, image: &[u8], count: usize)
    requires image_value { count_paths image.now ≡ Ok count }
    requires in_bounds { length text.old.items + 9984 ≤ ROOM }
    ensures wrote { (ps : List Compiled) → accepted image.now ≡ Ok ps → text.new.items ≡ text.old.items ++ path_lines 0 ps }
    ensures upper_bound { length text.new.items ≤ length text.old.items + 9984 }
{
    for path in 0..count {
        numbered_line(text, image, path);
    }
}

// A location's numbers.
fn location_fields(text: &mut Text, location: Location)
    requires { length text.old.items + 106 ≤ ROOM }
    ensures wrote { text.new.items ≡ text.old.items ++ location_text location }
    ensures upper_bound { length text.new.items ≤ length text.old.items + 106 }
{
    field(text, b" start ", u64::from(location.start));
    field(text, b" end ", u64::from(location.end));
    field(text, b" line ", u64::from(location.line));
    field(text, b" column ", u64::from(location.column));
}

// A verdict's number, its reason and its path.
fn verdict_fields(text: &mut Text, numbers: Numbers)
    requires { length text.old.items + 82 ≤ ROOM }
    ensures wrote { text.new.items ≡ text.old.items ++ verdict_text (values_of numbers) }
    ensures upper_bound { length text.new.items ≤ length text.old.items + 82 }
{
    field(text, b"verdict ", u64::from(numbers.verdict));
    field(text, b" reason ", u64::from(numbers.reason));
    field(text, b" path ", u64::from(numbers.path));
}

// A verdict's mask and total.
fn total_fields(text: &mut Text, numbers: Numbers)
    requires { length text.old.items + 53 ≤ ROOM }
    ensures wrote { text.new.items ≡ text.old.items ++ total_text (values_of numbers) }
    ensures upper_bound { length text.new.items ≤ length text.old.items + 53 }
{
    field(text, b" mask ", u64::from(numbers.mask));
    field(text, b" tried ", numbers.total);
}

// The line of a verdict.
#[tactic(auto, unfolding(crate::specs::Lines::values_line))]
fn verdict_line(text: &mut Text, outcome: Outcome)
    requires { length text.old.items + 242 ≤ ROOM }
    ensures { text.new.items ≡ text.old.items ++ verdict_line outcome }
{
    let numbers = Numbers::from(outcome);
    verdict_fields(text, numbers);
    location_fields(text, numbers.location);
    total_fields(text, numbers);
    push_piece(text, b"\n");
}

// The line of a refusal.
#[tactic(auto, unfolding(crate::specs::Lines::refused_line))]
fn refused_line(refusal: Refusal) -> text::Text<REFUSED_ROOM>
    ensures { result.items ≡ refused_line refusal }
{
    let mut text = text::Text::new();
    field(&mut text, b"refused ", u64::from(refusal.number));
    field(&mut text, b" at ", refusal.place as u64);
    push_piece(&mut text, b"\n");
    text
}

// The lines of an image of so many paths whose examination came to this end.
fn end_lines(image: &[u8], count: usize, outcome: Outcome, out: &mut [u8; ROOM]) -> usize
    requires { count_paths image.now ≡ Ok count }
    ensures { Wrote out.old 0 (end_lines image.now outcome) out.new result }
{
    let mut text = Text::new();
    path_lines(&mut text, image, count);
    verdict_line(&mut text, outcome);
    copy_out(text.as_slice(), out)
}

// The lines of an image whose examination came to this end: how many bytes they are, from the front of the buffer on.
#[tactic(auto, using(crate::proofs::Laws::end_refused))]
pub fn ended(image: &[u8], outcome: Outcome, out: &mut [u8; ROOM]) -> usize
    ensures wrote { Wrote out.old 0 (end_lines image.now outcome) out.new result }
    ensures upper_bound { result ≤ length out.new }
{
    match examiner::count_paths(image) {
        Err(refusal) => copy_out(refused_line(refusal).as_slice(), out),
        Ok(count) => end_lines(image, count, outcome, out),
    }
}

// The lines of an image: how many bytes they are, from the front of the buffer on.
#[tactic(auto, using(crate::proofs::Laws::report_refused, crate::proofs::Laws::report_told))]
pub fn report(image: &[u8], out: &mut [u8; ROOM]) -> usize
    ensures wrote { Wrote out.old 0 (report_of image.now) out.new result }
    ensures upper_bound { result ≤ length out.new }
{
    match examiner::check_necessity(image) {
        Err(refusal) => copy_out(refused_line(refusal).as_slice(), out),
        Ok(outcome) => ended(image, outcome, out),
    }
}
