// The numbers of an end, as document 01 lists them: "the verdict, its reason, path, return location, mask and total".
ghost use Rattle.std.specs.Prelude.{◌≡◌};
ghost use Rattle.definition.specs.Values.{outcome_values};
ghost use Rattle.examiner.specs.Values.{values_of};

use definition::{Location, Outcome, Reason, Verdict};

// The numbers of a verdict, and how many assignments were tried.
#[derive(Clone, Copy, Debug, PartialEq, Eq)]
pub struct Numbers {
    pub verdict: u32,
    pub reason: u32,
    pub path: u32,
    pub location: Location,
    pub mask: u32,
    pub total: u64,
}

impl Numbers {
    // Where there is no end: zeros.
    pub const NONE: Numbers = Numbers {
        verdict: 0,
        reason: 0,
        path: 0,
        location: Location {
            start: 0,
            end: 0,
            line: 0,
            column: 0,
        },
        mask: 0,
        total: 0,
    };
}

// The numbers of an end.
impl From<Outcome> for Numbers {
    ghost from_gives = { λ o n. values_of n ≡ outcome_values o };

    #[tactic(auto, unfolding(definition::specs::Values::verdict_values))]
    fn from(outcome: Outcome) -> Numbers {
        let total = outcome.total;
        match outcome.verdict {
            Verdict::Ok => Numbers {
                total,
                ..Numbers::NONE
            },
            Verdict::NoSigRequired {
                reason,
                path,
                location,
                mask,
            } => Numbers {
                verdict: 1,
                reason: reason.number(),
                path: u32::from(path),
                location,
                mask,
                total,
            },
            Verdict::UselessSig {
                path,
                location,
                mask,
            } => Numbers {
                verdict: 2,
                reason: Reason::Satisfied.number(),
                path: u32::from(path),
                location,
                mask,
                total,
            },
            Verdict::DeadPath { location } => Numbers {
                verdict: 3,
                location,
                total,
                ..Numbers::NONE
            },
        }
    }
}
