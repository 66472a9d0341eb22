// What the pictures of a recording that was judged need at a rate, and the least figures that follow. Serves document 01, "How bits
// arrive and leave", "Least figures".

#![tactic(auto)]

ghost use Rattle.std.specs.Prelude.{◌≡◌, ◌+◌, ◌≤◌};
ghost use Rattle.rules.specs.Limits.{rate_max};
ghost use Rattle.rules.specs.Width.{Word};
ghost use Rattle.model.specs.Recording.{pictures};
ghost use Rattle.model.specs.Least.{least_bucket};
ghost use Rattle.model.specs.Needs.{needs_step, needs_below};
ghost use Rattle.recording.specs.Given.{recording_of, bucket_of};
ghost use Rattle.needs.specs.Outcome.{needs_of};

use recording::judged::Judged;
use recording::{Bucket, Recording};

// What the pictures so far need, in units of 1/(R x TS) second: all their bits, and the largest need of a span that ends at
// the last one, of any span, and of a span that begins at picture 0.
#[derive(Clone, Copy, Debug, Default, PartialEq, Eq)]
pub struct Needs {
    pub total: u64,
    pub level: u64,
    pub buffer: u64,
    pub fullness: u64,
}

// One picture more: its bits, and the ticks since the last and since the first picture, all in units.
pub fn step(m: Needs, bits: u64, last: u64, first: u64) -> Needs
    requires { Word (m.total + bits) × Word (m.level + bits) }
    ensures { needs_of result ≡ needs_step (needs_of m) bits last first }
{
    let total = m.total + bits;
    let level = m.level.saturating_sub(last) + bits;
    Needs {
        total,
        level,
        buffer: m.buffer.max(level),
        fullness: m.fullness.max(total.saturating_sub(first)),
    }
}

// What a whole recording needs at a rate, in one pass.
fn measure(judged: Judged, rate: u64) -> Needs
    requires { rate ≤ rate_max }
    ensures { needs_of result ≡ needs_below (recording_of judged.entry.recording) rate (pictures (recording_of judged.entry.recording)) }
{
    let Recording {
        sizes,
        ticks,
        ts,
        nu,
    } = judged.recording;
    let fall = rate * nu;
    let first = ticks[0];
    let mut last = first;
    let mut m = Needs::default();
    for (&size, &tick) in sizes.iter().zip(ticks) {
        m = step(m, ts * size, fall * (tick - last), fall * (tick - first));
        last = tick;
    }
    m
}

// The least figures of a recording that was judged, at a rate that was judged. Kept: the rate a number, whose one bound judge_rate gives.
pub fn least_at(judged: Judged, rate: u64) -> Bucket
    requires { rate ≤ rate_max }
    ensures { bucket_of result ≡ least_bucket (recording_of judged.entry.recording) rate }
{
    let m = measure(judged, rate);
    let ts = judged.recording.ts;
    Bucket {
        rate,
        buffer: numbers::round_up(m.buffer, ts),
        fullness: numbers::round_up(m.fullness, ts),
    }
}
