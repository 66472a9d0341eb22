// Sheets and their text, as C and Rust see them. Serves document 01, "The sheet and the printed table".
// Kept: a kind with figures beside it, and a struct for each answer, as the C interface has them.
ghost use Rattle.std.specs.Prelude.{◌≡◌};
ghost use Rattle.sheet.specs.Outcome.{opened_of};
ghost use Rattle.print.specs.Outcome.{printed_of};
ghost use Rattle.answers.specs.Sheets.{sheet_answer, text_answer};

use judgement::Refusal;
use print::Output;
use rules::{KIND_GIVEN, KIND_LINE, KIND_REFUSED, KIND_TABLE};
use sheet::Head;

// How many pictures and rates a sheet has, and its clock, or refused.
#[repr(C)]
#[derive(Clone, Copy, Debug, Default, PartialEq, Eq)]
pub struct PlannerSheet {
    pub kind: u64,
    pub number: u64,
    pub place: u64,
    pub pictures: u64,
    pub rates: u64,
    pub ts: u64,
    pub nu: u64,
}

// How many bytes were printed: of the sheet's table, or of the line of its refusal, with that refusal's number and
// place; or refused.
#[repr(C)]
#[derive(Clone, Copy, Debug, Default, PartialEq, Eq)]
pub struct PlannerText {
    pub kind: u64,
    pub number: u64,
    pub place: u64,
    pub length: u64,
    pub sheet_number: u64,
    pub sheet_place: u64,
}

// What an opened sheet says as a struct.
impl From<Result<Head, Refusal>> for PlannerSheet {
    ghost from_gives = { λ opened answer. answer ≡ sheet_answer (opened_of opened) };

    fn from(opened: Result<Head, Refusal>) -> PlannerSheet {
        match opened {
            Ok(head) => PlannerSheet {
                kind: KIND_GIVEN,
                pictures: head.pictures as u64,
                rates: head.rates as u64,
                ts: head.ts,
                nu: head.nu,
                ..PlannerSheet::default()
            },
            Err(refusal) => PlannerSheet {
                kind: KIND_REFUSED,
                number: u64::from(refusal.number()),
                place: refusal.place() as u64,
                ..PlannerSheet::default()
            },
        }
    }
}

// What was printed as a struct.
impl From<Result<Output, Refusal>> for PlannerText {
    ghost from_gives = { λ printed answer. answer ≡ text_answer (printed_of printed) };

    fn from(printed: Result<Output, Refusal>) -> PlannerText {
        match printed {
            Ok(
                Output {
                    end,
                    judged: Ok(()),
                },
            ) => PlannerText {
                kind: KIND_TABLE,
                length: end as u64,
                ..PlannerText::default()
            },
            Ok(
                Output {
                    end,
                    judged: Err(refusal),
                },
            ) => PlannerText {
                kind: KIND_LINE,
                length: end as u64,
                sheet_number: u64::from(refusal.number()),
                sheet_place: refusal.place() as u64,
                ..PlannerText::default()
            },
            Err(refusal) => PlannerText {
                kind: KIND_REFUSED,
                number: u64::from(refusal.number()),
                place: refusal.place() as u64,
                ..PlannerText::default()
            },
        }
    }
}
