// Recordings, verdicts and schedules, exported. Serves document 01, "How bits arrive and leave".
ghost use Rattle.model.specs.Recording.{recording};
ghost use Rattle.model.specs.Arrival.{bucket};
ghost use Rattle.planner.specs.Recordings.{ExportedJudge, ExportedVerdict, ExportedSchedule};

use answers::recordings::{PlannerJudgement, PlannerVerdict};

// Judges a recording and its clock.
#[unsafe(no_mangle)]
pub extern "C" fn planner_judge(sizes: &[u64], ticks: &[u64], ts: u64, nu: u64) -> PlannerJudgement
    ensures { ExportedJudge (recording sizes.now ticks.now ts nu) result }
{
    planner::recordings::planner_judge(sizes, ticks, ts, nu)
}

// The verdict of R, B and F.
#[unsafe(no_mangle)]
pub extern "C" fn planner_verdict(
    sizes: &[u64],
    ticks: &[u64],
    ts: u64,
    nu: u64,
    rate: u64,
    buffer: u64,
    fullness: u64,
) -> PlannerVerdict
    ensures { ExportedVerdict (recording sizes.now ticks.now ts nu) (bucket rate buffer fullness) result }
{
    planner::recordings::planner_verdict(sizes, ticks, ts, nu, rate, buffer, fullness)
}

// Writes the schedule to two lent lists from entry `at` on, late or not, and answers the verdict.
#[unsafe(no_mangle)]
pub extern "C" fn planner_schedule(
    sizes: &[u64],
    ticks: &[u64],
    ts: u64,
    nu: u64,
    rate: u64,
    buffer: u64,
    fullness: u64,
    at: usize,
    starts: &mut [u64],
    ends: &mut [u64],
) -> PlannerVerdict
    ensures { ExportedSchedule (recording sizes.now ticks.now ts nu) (bucket rate buffer fullness) at starts.old ends.old result starts.new ends.new }
{
    planner::recordings::planner_schedule(
        sizes, ticks, ts, nu, rate, buffer, fullness, at, starts, ends,
    )
}
