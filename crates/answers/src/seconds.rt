// Seconds and panel readings, as C and Rust see them. Serves document 01, "Looking up a rate in a table".
// Kept: a kind with figures beside it, and a struct for each answer, as the C interface has them.
ghost use Rattle.std.specs.Prelude.{◌≡◌};
ghost use Rattle.panel.specs.Outcome.{timed_of, reading_of};
ghost use Rattle.answers.specs.Seconds.{seconds_answer, reading_answer};

use judgement::Refusal;
use panel::{Reading, Seconds};
use rules::{KIND_GIVEN, KIND_OVER, KIND_REFUSED, KIND_WITHIN};

// Wait and fill time, or refused.
#[repr(C)]
#[derive(Clone, Copy, Debug, Default, PartialEq)]
pub struct PlannerSeconds {
    pub kind: u64,
    pub number: u64,
    pub place: u64,
    pub wait: f64,
    pub fill: f64,
}

// Within the limit, which is then 0; over it; or refused.
#[repr(C)]
#[derive(Clone, Copy, Debug, Default, PartialEq)]
pub struct PlannerPanelReading {
    pub kind: u64,
    pub number: u64,
    pub place: u64,
    pub wait: f64,
    pub limit: f64,
}

// The seconds of a bucket as a struct.
impl From<Result<Seconds, Refusal>> for PlannerSeconds {
    ghost from_gives = { λ timed answer. answer ≡ seconds_answer (timed_of timed) };

    fn from(timed: Result<Seconds, Refusal>) -> PlannerSeconds {
        match timed {
            Ok(Seconds { wait, fill }) => PlannerSeconds {
                kind: KIND_GIVEN,
                wait,
                fill,
                ..PlannerSeconds::default()
            },
            Err(refusal) => PlannerSeconds {
                kind: KIND_REFUSED,
                number: u64::from(refusal.number()),
                place: refusal.place() as u64,
                ..PlannerSeconds::default()
            },
        }
    }
}

// A panel reading as a struct.
impl From<Result<Reading, Refusal>> for PlannerPanelReading {
    ghost from_gives = { λ reading answer. answer ≡ reading_answer (reading_of reading) };

    fn from(reading: Result<Reading, Refusal>) -> PlannerPanelReading {
        match reading {
            Ok(Reading::Within(wait)) => PlannerPanelReading {
                kind: KIND_WITHIN,
                wait,
                ..PlannerPanelReading::default()
            },
            Ok(Reading::Over(wait, limit)) => PlannerPanelReading {
                kind: KIND_OVER,
                wait,
                limit,
                ..PlannerPanelReading::default()
            },
            Err(refusal) => PlannerPanelReading {
                kind: KIND_REFUSED,
                number: u64::from(refusal.number()),
                place: refusal.place() as u64,
                ..PlannerPanelReading::default()
            },
        }
    }
}
