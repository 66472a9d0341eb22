// Recordings, verdicts and schedules, each answer a plain struct. Serves document 01, "How bits arrive and leave".
ghost use Rattle.model.specs.Recording.{recording};
ghost use Rattle.model.specs.Arrival.{bucket};
ghost use Rattle.planner.specs.Recordings.{ExportedJudge, ExportedVerdict, ExportedSchedule};

use answers::recordings::{PlannerJudgement, PlannerVerdict};
use recording::{Bucket, Recording};

// Judges a recording and its clock.
pub fn planner_judge(sizes: &[u64], ticks: &[u64], ts: u64, nu: u64) -> PlannerJudgement
    ensures { ExportedJudge (recording sizes.now ticks.now ts nu) result }
{
    PlannerJudgement::from(judging::judge(Recording {
        sizes,
        ticks,
        ts,
        nu,
    }))
}

// The verdict of R, B and F.
pub fn planner_verdict(
    sizes: &[u64],
    ticks: &[u64],
    ts: u64,
    nu: u64,
    rate: u64,
    buffer: u64,
    fullness: u64,
) -> PlannerVerdict
    ensures { ExportedVerdict (recording sizes.now ticks.now ts nu) (bucket rate buffer fullness) result }
{
    let recording = Recording {
        sizes,
        ticks,
        ts,
        nu,
    };
    let bucket = Bucket {
        rate,
        buffer,
        fullness,
    };
    PlannerVerdict::from(schedule::bucket_verdict(recording, bucket))
}

// Writes the schedule to two lent lists from entry `at` on, late or not, and answers the verdict.
pub fn planner_schedule(
    sizes: &[u64],
    ticks: &[u64],
    ts: u64,
    nu: u64,
    rate: u64,
    buffer: u64,
    fullness: u64,
    at: usize,
    starts: &mut [u64],
    ends: &mut [u64],
) -> PlannerVerdict
    ensures { ExportedSchedule (recording sizes.now ticks.now ts nu) (bucket rate buffer fullness) at starts.old ends.old result starts.new ends.new }
{
    let recording = Recording {
        sizes,
        ticks,
        ts,
        nu,
    };
    let bucket = Bucket {
        rate,
        buffer,
        fullness,
    };
    PlannerVerdict::from(schedule::schedule(recording, bucket, at, starts, ends))
}
