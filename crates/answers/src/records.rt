// Parameter records, as C and Rust see them. Serves document 01, "HRD parameter bits".
// Kept: a kind with figures beside it, and a struct for each answer, as the C interface has them.
ghost use Rattle.std.specs.Prelude.{◌≡◌};
ghost use Rattle.judgement.specs.Outcome.{answer_by};
ghost use Rattle.params_read.specs.Outcome.{params_read_of};
ghost use Rattle.row_verdict.specs.Outcome.{params_row_of};
ghost use Rattle.answers.specs.Records.{position_answer, read_answer, length_answer, row_answer};

use judgement::Refusal;
use params::Params;
use params_read::ParamsRead;
use row_verdict::Row;
use rules::{KIND_GIVEN, KIND_REFUSED};

// A record and the next bit position, or refused, with the record all zero.
#[repr(C)]
#[derive(Clone, Copy, Debug, Default, PartialEq, Eq)]
pub struct PlannerParamsRead {
    pub kind: u64,
    pub number: u64,
    pub place: u64,
    pub next: u64,
    pub params: Params,
}

// The next bit position, or refused.
#[repr(C)]
#[derive(Clone, Copy, Debug, Default, PartialEq, Eq)]
pub struct PlannerPosition {
    pub kind: u64,
    pub number: u64,
    pub place: u64,
    pub next: u64,
}

// How many bits a record takes, or refused.
#[repr(C)]
#[derive(Clone, Copy, Debug, Default, PartialEq, Eq)]
pub struct PlannerLength {
    pub kind: u64,
    pub number: u64,
    pub place: u64,
    pub bits: u64,
}

// Rate and size of a row of a record, or refused.
#[repr(C)]
#[derive(Clone, Copy, Debug, Default, PartialEq, Eq)]
pub struct PlannerRow {
    pub kind: u64,
    pub number: u64,
    pub place: u64,
    pub rate: u64,
    pub size: u64,
}

// What reading a record gave as a struct.
impl From<Result<ParamsRead, Refusal>> for PlannerParamsRead {
    ghost from_gives = { λ found answer. read_answer answer (params_read_of found) };

    fn from(found: Result<ParamsRead, Refusal>) -> PlannerParamsRead {
        match found {
            Ok(read) => PlannerParamsRead {
                kind: KIND_GIVEN,
                number: 0,
                place: 0,
                next: read.next,
                params: read.params,
            },
            Err(refusal) => PlannerParamsRead {
                kind: KIND_REFUSED,
                number: u64::from(refusal.number()),
                place: refusal.place() as u64,
                ..PlannerParamsRead::default()
            },
        }
    }
}

// The next bit position as a struct.
impl From<Result<u64, Refusal>> for PlannerPosition {
    ghost from_gives = { λ next answer. answer ≡ position_answer (answer_by (λ p. p) next) };

    fn from(next: Result<u64, Refusal>) -> PlannerPosition {
        match next {
            Ok(next) => PlannerPosition {
                kind: KIND_GIVEN,
                next,
                ..PlannerPosition::default()
            },
            Err(refusal) => PlannerPosition {
                kind: KIND_REFUSED,
                number: u64::from(refusal.number()),
                place: refusal.place() as u64,
                ..PlannerPosition::default()
            },
        }
    }
}

// How many bits a record takes as a struct.
impl From<Result<u64, Refusal>> for PlannerLength {
    ghost from_gives = { λ length answer. answer ≡ length_answer (answer_by (λ n. n) length) };

    fn from(length: Result<u64, Refusal>) -> PlannerLength {
        match length {
            Ok(bits) => PlannerLength {
                kind: KIND_GIVEN,
                bits,
                ..PlannerLength::default()
            },
            Err(refusal) => PlannerLength {
                kind: KIND_REFUSED,
                number: u64::from(refusal.number()),
                place: refusal.place() as u64,
                ..PlannerLength::default()
            },
        }
    }
}

// Rate and size of a row as a struct.
impl From<Result<Row, Refusal>> for PlannerRow {
    ghost from_gives = { λ row answer. answer ≡ row_answer (params_row_of row) };

    fn from(row: Result<Row, Refusal>) -> PlannerRow {
        match row {
            Ok(Row { rate, size }) => PlannerRow {
                kind: KIND_GIVEN,
                rate,
                size,
                ..PlannerRow::default()
            },
            Err(refusal) => PlannerRow {
                kind: KIND_REFUSED,
                number: u64::from(refusal.number()),
                place: refusal.place() as u64,
                ..PlannerRow::default()
            },
        }
    }
}
