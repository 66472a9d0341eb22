// Arrival schedules and the verdict on a bucket. Serves document 01, "How bits arrive and leave".

#![tactic(auto)]

ghost use Rattle.std.specs.Prelude.{◌≡◌, IfOk};
ghost use Rattle.terms.specs.Answers.{lowest};
ghost use Rattle.model.specs.Faults.{verdict_faults};
ghost use Rattle.judgement.specs.Outcome.{judgement_of};
ghost use Rattle.recording.specs.Given.{recording_of, bucket_of};
ghost use Rattle.arrivals.specs.Seen.{seen_of};
ghost use Rattle.schedule.specs.Outcome.{verdict_of};
ghost use Rattle.schedule.specs.Promises.{VerdictPromise, SchedulePromise};

use arrivals::Late;
use judgement::Refusal;
use recording::judged::{Judged, JudgedBucket};
use recording::{Bucket, Recording};

// The recording holds; or the first late picture and its units.
// Kept, in place of an Option: document 01 names both verdicts, and Ok(None) for the one that holds would read as no answer.
#[derive(Clone, Copy, Debug, PartialEq, Eq)]
pub enum Verdict {
    Holds,
    Late(usize, u64),
}

// The first late picture, or none, as a verdict.
impl From<Option<Late>> for Verdict {
    ghost from_gives = { λ late v. verdict_of v ≡ seen_of late };

    fn from(late: Option<Late>) -> Verdict {
        match late {
            None => Verdict::Holds,
            Some(late) => Verdict::Late(late.picture, late.units),
        }
    }
}

// The recording, judged with its clock, a rate and a bucket: refusals 1 to 7.
fn judge<'a>(
    recording: Recording<'a>,
    bucket: Bucket,
) -> Result<(Judged<'a>, JudgedBucket), Refusal>
    ensures judges { judgement_of result ≡ lowest (verdict_faults (recording_of recording.entry) (bucket_of bucket)) }
    ensures same { IfOk result (λ judged. (recording_of judged.0.recording ≡ recording_of recording.entry) × (judged.1.bucket ≡ bucket)) }
{
    Ok((judging::judged(recording)?, judging::judged_bucket(bucket)?))
}

// The verdict of R, B and F: refusals 1 to 7.
pub fn bucket_verdict(recording: Recording, bucket: Bucket) -> Result<Verdict, Refusal>
    ensures { VerdictPromise (recording_of recording.entry) (bucket_of bucket) result }
{
    let (judged, judged_bucket) = judge(recording, bucket)?;
    // Nobody asked for the schedule, so it is stored nowhere.
    let late = arrivals::run(judged, judged_bucket, &mut [], &mut []);
    Ok(Verdict::from(late))
}

// Writes the schedule to two lent lists from entry `at` on, late or not, and answers the verdict: refusals 1 to 8.
// Kept: two lists, as the C interface lends them.
pub fn schedule(
    recording: Recording,
    bucket: Bucket,
    at: usize,
    starts: &mut [u64],
    ends: &mut [u64],
) -> Result<Verdict, Refusal>
    ensures { SchedulePromise (recording_of recording.entry) (bucket_of bucket) at starts.old ends.old result starts.new ends.new }
{
    let (judged, judged_bucket) = judge(recording, bucket)?;
    judgement::judge_rooms(starts.len(), ends.len(), at, recording.sizes.len())?;
    let late = arrivals::run(judged, judged_bucket, &mut starts[at..], &mut ends[at..]);
    Ok(Verdict::from(late))
}
