// Judgements and verdicts, as C and Rust see them. Serves document 01, "How bits arrive and leave".
// Kept: a kind with figures beside it, and a struct for each answer, as the C interface has them.
ghost use Rattle.std.specs.Prelude.{◌≡◌};
ghost use Rattle.judgement.specs.Outcome.{judgement_of};
ghost use Rattle.schedule.specs.Outcome.{answer_of};
ghost use Rattle.answers.specs.Recordings.{judgement_answer, verdict_answer};

use judgement::{Judgement, Refusal};
use rules::{KIND_GIVEN, KIND_HOLDS, KIND_LATE, KIND_REFUSED};
use schedule::Verdict;

// Passed, or refused.
#[repr(C)]
#[derive(Clone, Copy, Debug, Default, PartialEq, Eq)]
pub struct PlannerJudgement {
    pub kind: u64,
    pub number: u64,
    pub place: u64,
}

// Holds, or late with the first late picture and its units, or refused.
#[repr(C)]
#[derive(Clone, Copy, Debug, Default, PartialEq, Eq)]
pub struct PlannerVerdict {
    pub kind: u64,
    pub number: u64,
    pub place: u64,
    pub picture: u64,
    pub units: u64,
}

// A judgement as a struct.
impl From<Judgement> for PlannerJudgement {
    ghost from_gives = { λ judged answer. answer ≡ judgement_answer (judgement_of judged) };

    fn from(judged: Judgement) -> PlannerJudgement {
        match judged {
            Ok(()) => PlannerJudgement {
                kind: KIND_GIVEN,
                ..PlannerJudgement::default()
            },
            Err(refusal) => PlannerJudgement {
                kind: KIND_REFUSED,
                number: u64::from(refusal.number()),
                place: refusal.place() as u64,
            },
        }
    }
}

// A verdict as a struct.
impl From<Result<Verdict, Refusal>> for PlannerVerdict {
    ghost from_gives = { λ verdict answer. answer ≡ verdict_answer (answer_of verdict) };

    fn from(verdict: Result<Verdict, Refusal>) -> PlannerVerdict {
        match verdict {
            Ok(Verdict::Holds) => PlannerVerdict {
                kind: KIND_HOLDS,
                ..PlannerVerdict::default()
            },
            Ok(Verdict::Late(picture, units)) => PlannerVerdict {
                kind: KIND_LATE,
                picture: picture as u64,
                units,
                ..PlannerVerdict::default()
            },
            Err(refusal) => PlannerVerdict {
                kind: KIND_REFUSED,
                number: u64::from(refusal.number()),
                place: refusal.place() as u64,
                ..PlannerVerdict::default()
            },
        }
    }
}
