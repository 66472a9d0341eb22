// Judging a recording and its clock, a rate, a list of rates, and a bucket at its rate. Serves document 01, "A recording and its
// units" and "When the planner says no", refusals 1 to 7.

#![tactic(auto)]

ghost use Rattle.std.specs.Prelude.{◌≡◌, ◌-◌, ◌≤◌, ◌||◌, leb, ltb, length, IfOk, OnOk};
ghost use Rattle.rules.specs.Limits.{span_max, rate_max, bucket_max};
ghost use Rattle.rules.specs.Refusals as refusal;
ghost use Rattle.terms.specs.Answers.{lowest, first_fault};
ghost use Rattle.model.specs.Faults.{RatesWithin, bad_clock, bad_size, bad_tick, bad_rate, bad_bucket, rate_check, rate_list_check, rates_faults, seconds_faults};
ghost use Rattle.model.specs.Outcomes.{judge_outcome};
ghost use Rattle.judgement.specs.Outcome.{judgement_of};
ghost use Rattle.recording.specs.Given.{recording_of, bucket_of};
ghost use Rattle.judging.specs.Promises.{JudgePromise};

use judgement::{Judgement, Refusal, refuse_if};
use recording::judged::{Judged, JudgedBucket};
use recording::{Bucket, Recording};
use rules::{BUCKET_MAX, NU_MAX, PICTURES_MAX, RATE_MAX, ROWS_MAX, SIZE_MAX, SPAN_MAX, TS_MAX};

// Whether TS or NU is out of range. Kept: two numbers, of a recording or of a table.
pub fn is_bad_clock(ts: u64, nu: u64) -> bool
    ensures { result ≡ bad_clock ts nu }
{
    numbers::is_outside(1, TS_MAX, ts) || numbers::is_outside(1, NU_MAX, nu)
}

// Whether a rate is out of range.
fn is_bad_rate(rate: u64) -> bool
    ensures { result ≡ bad_rate rate }
{
    numbers::is_outside(1, RATE_MAX, rate)
}

// Whether B or F is out of range.
pub fn is_bad_bucket(buffer: u64, fullness: u64) -> bool
    ensures { result ≡ bad_bucket buffer fullness }
{
    numbers::is_outside(1, BUCKET_MAX, buffer) || numbers::is_outside(1, buffer, fullness)
}

// Judges the sizes, each by itself: refusal 4.
fn judge_sizes(sizes: &[u64]) -> Judgement
    ensures { judgement_of result ≡ first_fault refusal.size (bad_size sizes.now) (length sizes.now) }
{
    match sizes
        .iter()
        .position(|size| numbers::is_outside(1, SIZE_MAX, *size))
    {
        Some(i) => Err(Refusal::Size(i)),
        None => Ok(()),
    }
}

// Whether a tick is not above the one before or lies too far from the first.
fn is_bad_tick(first: u64, before: u64, tick: u64) -> bool
    requires { first ≤ before }
    ensures { result ≡ (leb tick before || ltb span_max (tick - first)) }
{
    tick <= before || SPAN_MAX < tick - first
}

// Judges the ticks, each by the one before and the first: refusal 5.
// Kept beside judge_rate_list, two loops that lean on the entry before: one function over a closure would have to name the definition
// that the closure computes, and say what it may be asked.
fn judge_ticks(ticks: &[u64]) -> Judgement
    ensures { judgement_of result ≡ first_fault refusal.tick (bad_tick ticks.now) (length ticks.now) }
{
    for i in 1..ticks.len() {
        if is_bad_tick(ticks[0], ticks[i - 1], ticks[i]) {
            return Err(Refusal::Tick(i));
        }
    }
    Ok(())
}

// Judges a recording and its clock: refusals 1 to 5.
pub fn judge(recording: Recording) -> Judgement
    ensures { JudgePromise (recording_of recording.entry) result }
{
    let pictures = recording.sizes.len();
    refuse_if(
        numbers::is_outside(1, PICTURES_MAX as u64, pictures as u64),
        Refusal::Pictures,
    )?;
    refuse_if(recording.ticks.len() != pictures, Refusal::Lengths)?;
    refuse_if(is_bad_clock(recording.ts, recording.nu), Refusal::Clock)?;
    judge_sizes(recording.sizes)?;
    judge_ticks(recording.ticks)
}

// The recording, judged: refusals 1 to 5.
pub fn judged<'a>(recording: Recording<'a>) -> Result<Judged<'a>, Refusal>
    ensures judges { judgement_of result ≡ judge_outcome (recording_of recording.entry) }
    ensures same { IfOk result (λ judged. recording_of judged.recording ≡ recording_of recording.entry) }
{
    judge(recording)?;
    Ok(Judged { recording })
}

// Judges one rate: refusal 6.
pub fn judge_rate(rate: u64) -> Judgement
    ensures judges { judgement_of result ≡ rate_check rate }
    ensures within { OnOk result (rate ≤ rate_max) }
{
    refuse_if(is_bad_rate(rate), Refusal::Rate(0))
}

// Judges the rates of a list, not their number: refusal 6.
pub fn judge_rate_list(rates: &[u64]) -> Judgement
    ensures { judgement_of result ≡ rate_list_check rates.now }
{
    let mut before = 0;
    for (i, &rate) in rates.iter().enumerate() {
        if is_bad_rate(rate) || rate <= before {
            return Err(Refusal::Rate(i));
        }
        before = rate;
    }
    Ok(())
}

// Judges a list of rates, their number first: refusal 6.
pub fn judge_rates(rates: &[u64]) -> Judgement
    ensures judges { judgement_of result ≡ lowest (rates_faults rates.now) }
    ensures within { OnOk result (RatesWithin rates.now) }
{
    refuse_if(
        numbers::is_outside(1, ROWS_MAX as u64, rates.len() as u64),
        Refusal::Rate(0),
    )?;
    judge_rate_list(rates)
}

// Judges a bucket at its rate: refusals 6 and 7.
pub fn judge_bucket(bucket: Bucket) -> Judgement
    ensures judges { judgement_of result ≡ lowest (seconds_faults (bucket_of bucket)) }
    ensures within { OnOk result ((bucket.rate ≤ rate_max) × (bucket.buffer ≤ bucket_max) × (bucket.fullness ≤ bucket.buffer)) }
{
    judge_rate(bucket.rate)?;
    refuse_if(
        is_bad_bucket(bucket.buffer, bucket.fullness),
        Refusal::Bucket(0),
    )
}

// The bucket, judged at its rate: refusals 6 and 7.
pub fn judged_bucket(bucket: Bucket) -> Result<JudgedBucket, Refusal>
    ensures judges { judgement_of result ≡ lowest (seconds_faults (bucket_of bucket)) }
    ensures same { IfOk result (λ judged. judged.bucket ≡ bucket) }
{
    judge_bucket(bucket)?;
    Ok(JudgedBucket { bucket })
}
