// Least figures, tables and lookups, as C and Rust see them. Serves document 01, "How bits arrive and leave", "Least
// figures", and "Looking up a rate in a table".
// Kept: a kind with figures beside it, and a struct for each answer, as the C interface has them.
ghost use Rattle.std.specs.Prelude.{◌≡◌};
ghost use Rattle.judgement.specs.Outcome.{answer_by};
ghost use Rattle.recording.specs.Given.{bucket_of};
ghost use Rattle.answers.specs.Figures.{bucket_answer};

use judgement::Refusal;
use recording::Bucket;
use rules::{KIND_GIVEN, KIND_REFUSED};

// Buffer and start fullness, or refused.
#[repr(C)]
#[derive(Clone, Copy, Debug, Default, PartialEq, Eq)]
pub struct PlannerBucket {
    pub kind: u64,
    pub number: u64,
    pub place: u64,
    pub buffer: u64,
    pub fullness: u64,
}

// A bucket as a struct, which does not say its rate.
impl From<Result<Bucket, Refusal>> for PlannerBucket {
    ghost from_gives = { λ found answer. answer ≡ bucket_answer (answer_by bucket_of found) };

    fn from(found: Result<Bucket, Refusal>) -> PlannerBucket {
        match found {
            Ok(bucket) => PlannerBucket {
                kind: KIND_GIVEN,
                buffer: bucket.buffer,
                fullness: bucket.fullness,
                ..PlannerBucket::default()
            },
            Err(refusal) => PlannerBucket {
                kind: KIND_REFUSED,
                number: u64::from(refusal.number()),
                place: refusal.place() as u64,
                ..PlannerBucket::default()
            },
        }
    }
}
