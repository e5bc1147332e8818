// Runs the reader, the walk of paths, acceptance and the formulas on the recorded list, and compares what they answer with what the list
// has: of a refusal its number and place, not the fault's kind and field; of an image that is read the head's mode and count, how many
// paths there are, of the first 130 every piece and the return's location, and of each path's formula the atoms and its truth at 64 masks in
// both phases. README.md says what the list is. One line on standard output counts the rows that are the same and those that are not;
// standard error tells which row differs, and at which number of its answer.
#![tactic(auto)]

mod answer;
mod formulas;
mod walk;

ghost use Rattle.paths.specs.Walking.{Accepted};

use answer::{Answer, Differs};
use definition::{Head, Refusal};
use formulas::same_formulas;
use std::io;
use streams::rows::score_file;
use walk::same_counted;

// An image that is read: the number 0, the head's mode and count, the paths and their formulas.
fn same_accepted(image: &[u8], head: Head, answer: &mut Answer) -> Result<(), Differs>
    requires { Accepted image.now head.count }
{
    answer.expect(0)?;
    answer.expect(u64::from(head.mode))?;
    answer.expect(head.count as u64)?;
    let count = paths::count_paths(image, head.count);
    same_counted(image, head.count, count, answer)?;
    same_formulas(image, answer)
}

// What the image is, beside its answer.
fn same_answer(image: &[u8], answer: &mut Answer) -> Result<(), Differs> {
    match reader::read(image) {
        Ok(head) => same_accepted(image, head, answer),
        Err(fault) => answer.expect_refusal(Refusal::from(fault)),
    }
}

// The whole answer to an image is what the list has.
fn same_row(image: &[u8], bytes: &[u8]) -> Result<(), Differs> {
    let mut answer = Answer::new(bytes);
    same_answer(image, &mut answer)?;
    answer.end()
}

// Prints the score.
fn main(rt: HostRuntime) -> io::Result<()> {
    let score = score_file(&rt, "recorded", same_row);
    println!(rt; "{score}")
}
