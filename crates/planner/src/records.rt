// Parameter records, each answer a plain struct. Serves document 01, "HRD parameter bits".
ghost use Rattle.model.specs.Recording.{recording};
ghost use Rattle.planner.specs.Records.{ExportedRecord, ExportedLength, ExportedParamsRow, ExportedRead, ExportedWrite, ExportedRow};

use answers::recordings::{PlannerJudgement, PlannerVerdict};
use answers::records::{PlannerLength, PlannerParamsRead, PlannerPosition, PlannerRow};
use params::Params;
use recording::Recording;

// Judges a parameter record.
pub fn planner_judge_params(params: Params) -> PlannerJudgement
    ensures { ExportedRecord params result }
{
    PlannerJudgement::from(params::judge_params(params))
}

// How many bits a parameter record takes.
pub fn planner_params_length(params: Params) -> PlannerLength
    ensures { ExportedLength params result }
{
    PlannerLength::from(params_write::length_of(params))
}

// Rate and size of a row of a parameter record.
pub fn planner_params_row(params: Params, row: usize) -> PlannerRow
    ensures { ExportedParamsRow params row result }
{
    PlannerRow::from(row_verdict::params_row(params, row))
}

// Reads a parameter record at a bit position.
pub fn planner_read_params(bytes: &[u8], start: u64) -> PlannerParamsRead
    ensures { ExportedRead bytes.now start result }
{
    PlannerParamsRead::from(params_read::read_params(bytes, start))
}

// Writes a parameter record at a bit position.
pub fn planner_write_params(params: Params, bytes: &mut [u8], start: u64) -> PlannerPosition
    ensures { ExportedWrite params bytes.old start result bytes.new }
{
    PlannerPosition::from(params_write::write_params(params, bytes, start))
}

// The verdict of a start fullness and a row of a parameter record.
pub fn planner_row_verdict(
    sizes: &[u64],
    ticks: &[u64],
    ts: u64,
    nu: u64,
    params: Params,
    row: usize,
    fullness: u64,
) -> PlannerVerdict
    ensures { ExportedRow (recording sizes.now ticks.now ts nu) params row fullness result }
{
    let recording = Recording {
        sizes,
        ticks,
        ts,
        nu,
    };
    PlannerVerdict::from(row_verdict::row_verdict(recording, params, row, fullness))
}
