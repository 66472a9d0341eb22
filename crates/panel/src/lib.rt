// A bucket at its rate as seconds, and the driver's panel. Serves document 01, "Looking up a rate in a table".

#![tactic(auto)]

ghost use Rattle.std.specs.Prelude.{◌≡◌, ◌≤◌, ◌^◌};
ghost use Rattle.model.specs.Panel.{quotient as quotient_of, bad_limit};
ghost use Rattle.recording.specs.Given.{bucket_of};
ghost use Rattle.panel.specs.Promises.{SecondsPromise, PanelPromise};

use judgement::{Refusal, refuse_if};
use recording::Bucket;

// The wait F/R and the fill time B/R of one bucket, in seconds.
#[derive(Clone, Copy, Debug, PartialEq)]
pub struct Seconds {
    pub wait: f64,
    pub fill: f64,
}

// Within the driver's limit, carrying the wait; or over it, carrying wait and limit.
#[derive(Clone, Copy, Debug, PartialEq)]
pub enum Reading {
    Within(f64),
    Over(f64, f64),
}

// x / r, both held exactly.
fn quotient(x: u64, r: u64) -> f64
    requires { (x ≤ 2 ^ 53) × (r ≤ 2 ^ 53) }
    ensures { result ≡ quotient_of x r }
{
    x as f64 / r as f64
}

// Whether a limit is not a finite number above 0.
fn is_bad_limit(limit: f64) -> bool
    ensures { result ≡ bad_limit limit }
{
    !(0.0 < limit && limit < f64::INFINITY)
}

// The wait and the fill time of a bucket: refusals 6 and 7.
pub fn seconds_of(bucket: Bucket) -> Result<Seconds, Refusal>
    ensures { SecondsPromise (bucket_of bucket) result }
{
    judging::judge_bucket(bucket)?;
    Ok(Seconds {
        wait: quotient(bucket.fullness, bucket.rate),
        fill: quotient(bucket.buffer, bucket.rate),
    })
}

// The panel reading of a bucket against the driver's limit: refusals 6, 7 and 13.
pub fn panel(bucket: Bucket, limit: f64) -> Result<Reading, Refusal>
    ensures { PanelPromise (bucket_of bucket) limit result }
{
    judging::judge_bucket(bucket)?;
    refuse_if(is_bad_limit(limit), Refusal::Limit)?;
    let wait = quotient(bucket.fullness, bucket.rate);
    Ok(if wait <= limit {
        Reading::Within(wait)
    } else {
        Reading::Over(wait, limit)
    })
}
