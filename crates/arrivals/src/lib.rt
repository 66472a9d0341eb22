// The arrivals of a recording that was judged, picture by picture. Serves document 01, "How bits arrive and leave".

#![tactic(auto)]

ghost use Rattle.std.specs.Prelude.{◌≡◌, ◌+◌, ◌-◌, max, set};
ghost use Rattle.rules.specs.Width.{Word};
ghost use Rattle.terms.specs.Numbers.{filled};
ghost use Rattle.model.specs.Recording.{pictures};
ghost use Rattle.model.specs.Arrival.{arrival_start, arrival_end, then, verdict_of};
ghost use Rattle.recording.specs.Given.{recording_of, bucket_of};
ghost use Rattle.arrivals.specs.Seen.{seen_of};

use recording::Recording;
use recording::judged::{Judged, JudgedBucket};

// When a picture arrives, in units of 1/(R x TS) second, and by how many units its end is after its removal.
#[derive(Clone, Copy)]
struct Arrival {
    start: u64,
    end: u64,
    late: u64,
}

// A late picture and its units.
#[derive(Clone, Copy, Debug, PartialEq, Eq)]
pub struct Late {
    pub picture: usize,
    pub units: u64,
}

// A picture of so many bits that is due at `due`, where the line is free from `free` on and the buffer holds `hold`.
fn arrive(free: u64, due: u64, hold: u64, bits: u64) -> Arrival
    requires { Word (max free (due - hold) + bits) }
    ensures { (result.start ≡ max free (due - hold)) × (result.end ≡ max free (due - hold) + bits) × (result.late ≡ max free (due - hold) + bits - due) }
{
    let start = free.max(due.saturating_sub(hold));
    let end = start + bits;
    Arrival {
        start,
        end,
        late: end.saturating_sub(due),
    }
}

// What is seen once picture i is late by so many units too.
fn noted(seen: Option<Late>, i: usize, units: u64) -> Option<Late>
    ensures { seen_of result ≡ then (seen_of seen) i units }
{
    match seen {
        None if 0 < units => Some(Late { picture: i, units }),
        _ => seen,
    }
}

// Stores x in entry i of a list that reaches so far.
fn store(list: &mut [u64], i: usize, x: u64)
    ensures { list.new ≡ set list.old i x }
{
    if i < list.len() {
        list[i] = x;
    }
}

// The first late picture of a bucket, if any, recording and bucket having been judged. Starts and ends are stored in the first entries
// of two lists, as far as these reach.
pub fn run(
    judged: Judged,
    judged_bucket: JudgedBucket,
    starts: &mut [u64],
    ends: &mut [u64],
) -> Option<Late>
    ensures verdict { seen_of result ≡ verdict_of (recording_of judged.entry.recording) (bucket_of judged_bucket.bucket) }
    ensures starts_filled { starts.new ≡ filled starts.old (arrival_start (recording_of judged.entry.recording) (bucket_of judged_bucket.bucket)) (pictures (recording_of judged.entry.recording)) }
    ensures ends_filled { ends.new ≡ filled ends.old (arrival_end (recording_of judged.entry.recording) (bucket_of judged_bucket.bucket)) (pictures (recording_of judged.entry.recording)) }
{
    let Recording {
        sizes,
        ticks,
        ts,
        nu,
    } = judged.recording;
    let bucket = judged_bucket.bucket;
    let lead = ts * bucket.fullness;
    let hold = ts * bucket.buffer;
    let fall = bucket.rate * nu;
    let first = ticks[0];
    let mut free = 0;
    let mut seen = None;
    // Kept: ticks[i] in place of a zip, as i numbers the picture and the entries stored.
    for (i, &size) in sizes.iter().enumerate() {
        let a = arrive(free, lead + fall * (ticks[i] - first), hold, ts * size);
        store(starts, i, a.start);
        store(ends, i, a.end);
        seen = noted(seen, i, a.late);
        free = a.end;
    }
    seen
}
