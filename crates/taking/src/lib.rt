// An examination to begin with: a new one, or one that was kept. What is kept is taken up only for the image that it is of: the image in the checkpoint is
// compared with the image given. specs/Taking.antt says what comes back; the checker finds the proofs of both functions.
#![tactic(auto)]

ghost use Rattle.std.specs.Prelude.{◌≡◌};
ghost use Rattle.definition.specs.Place.{started};
ghost use Rattle.examiner.specs.Answers.{opened_of};
ghost use Rattle.taking.specs.declared.NotTaken.{NotTaken};
ghost use Rattle.taking.specs.Taking.{begun, TakesUp};

use definition::Refusal;
use examiner::Examination;

// Why there is nothing to go on with: the image or what was kept is refused, or it is a checkpoint of another image.
#[derive(Clone, Copy, Debug, PartialEq, Eq)]
pub enum NotTaken {
    Refused(Refusal),
    OtherImage,
}

impl From<Refusal> for NotTaken {
    ghost from_gives = { λ r n. n ≡ NotTaken.Refused r };

    fn from(refusal: Refusal) -> NotTaken {
        NotTaken::Refused(refusal)
    }
}

// A new examination of an image.
pub fn begin(image: &[u8]) -> Result<Examination, NotTaken>
    ensures { result ≡ begun (opened_of (started image.now)) }
{
    Ok(examiner::start(image)?)
}

// The examination whose checkpoint the bytes are, if it is one of this image.
pub fn take_up(bytes: &[u8], image: &[u8]) -> Result<Examination, NotTaken>
    ensures { TakesUp bytes.now image.now result }
{
    let examination = examiner::read_checkpoint(bytes)?;
    if examiner::checkpoint_image(bytes) != image {
        return Err(NotTaken::OtherImage);
    }
    Ok(examination)
}
