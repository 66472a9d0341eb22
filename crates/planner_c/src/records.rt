// Parameter records, exported. Serves document 01, "HRD parameter bits".
ghost use Rattle.model.specs.Recording.{recording};
ghost use Rattle.planner.specs.Records.{ExportedRecord, ExportedLength, ExportedParamsRow, ExportedRead, ExportedWrite, ExportedRow};

use answers::recordings::{PlannerJudgement, PlannerVerdict};
use answers::records::{PlannerLength, PlannerParamsRead, PlannerPosition, PlannerRow};
use params::Params;

// Judges a parameter record.
#[unsafe(no_mangle)]
pub extern "C" fn planner_judge_params(params: Params) -> PlannerJudgement
    ensures { ExportedRecord params result }
{
    planner::records::planner_judge_params(params)
}

// How many bits a parameter record takes.
#[unsafe(no_mangle)]
pub extern "C" fn planner_params_length(params: Params) -> PlannerLength
    ensures { ExportedLength params result }
{
    planner::records::planner_params_length(params)
}

// Rate and size of a row of a parameter record.
#[unsafe(no_mangle)]
pub extern "C" fn planner_params_row(params: Params, row: usize) -> PlannerRow
    ensures { ExportedParamsRow params row result }
{
    planner::records::planner_params_row(params, row)
}

// Reads a parameter record at a bit position.
#[unsafe(no_mangle)]
pub extern "C" fn planner_read_params(bytes: &[u8], start: u64) -> PlannerParamsRead
    ensures { ExportedRead bytes.now start result }
{
    planner::records::planner_read_params(bytes, start)
}

// Writes a parameter record at a bit position.
#[unsafe(no_mangle)]
pub extern "C" fn planner_write_params(
    params: Params,
    bytes: &mut [u8],
    start: u64,
) -> PlannerPosition
    ensures { ExportedWrite params bytes.old start result bytes.new }
{
    planner::records::planner_write_params(params, bytes, start)
}

// The verdict of a start fullness and a row of a parameter record.
#[unsafe(no_mangle)]
pub extern "C" fn planner_row_verdict(
    sizes: &[u64],
    ticks: &[u64],
    ts: u64,
    nu: u64,
    params: Params,
    row: usize,
    fullness: u64,
) -> PlannerVerdict
    ensures { ExportedRow (recording sizes.now ticks.now ts nu) params row fullness result }
{
    planner::records::planner_row_verdict(sizes, ticks, ts, nu, params, row, fullness)
}
