// The least figures of a recording at one rate, and the table of them over several rates. Serves document 01, "How bits arrive
// and leave", "Least figures".

#![tactic(auto)]

ghost use Rattle.std.specs.Prelude.{◌≡◌, map, ◌≤◌, length};
ghost use Rattle.terms.specs.Numbers.{written};
ghost use Rattle.model.specs.Least.{least_buffer, least_fullness};
ghost use Rattle.model.specs.Faults.{RatesWithin};
ghost use Rattle.recording.specs.Given.{recording_of};
ghost use Rattle.least.specs.Promises.{LeastPromise, TablePromise};

use judgement::{Judgement, Refusal};
use recording::judged::Judged;
use recording::{Bucket, Recording};

// The least figures of a recording at one rate: refusals 1 to 6.
pub fn least(recording: Recording, rate: u64) -> Result<Bucket, Refusal>
    ensures { LeastPromise (recording_of recording.entry) rate result }
{
    let judged = judging::judged(recording)?;
    judging::judge_rate(rate)?;
    Ok(needs::least_at(judged, rate))
}

// Writes the least figures at every rate, all of them judged, to the first entries of two lists with room for them.
fn fill(judged: Judged, rates: &[u64], buffers: &mut [u64], fullnesses: &mut [u64])
    requires { RatesWithin rates.now × (length rates.now ≤ length buffers.old) × (length rates.now ≤ length fullnesses.old) }
    ensures { (buffers.new ≡ written buffers.old 0 (map (least_buffer (recording_of judged.entry.recording)) rates.now)) × (fullnesses.new ≡ written fullnesses.old 0 (map (least_fullness (recording_of judged.entry.recording)) rates.now)) }
{
    // Kept: stores by index, as a zip with `iter_mut` says nothing of what the lists end as.
    for (i, &rate) in rates.iter().enumerate() {
        let bucket = needs::least_at(judged, rate);
        buffers[i] = bucket.buffer;
        fullnesses[i] = bucket.fullness;
    }
}

// Writes the least figures at every rate of a list to two lent lists from entry `at` on: refusals 1 to 6 and 8.
// Kept: two lists, as the C interface lends them.
pub fn table(
    recording: Recording,
    rates: &[u64],
    at: usize,
    buffers: &mut [u64],
    fullnesses: &mut [u64],
) -> Judgement
    ensures { TablePromise (recording_of recording.entry) rates.now at buffers.old fullnesses.old result buffers.new fullnesses.new }
{
    let judged = judging::judged(recording)?;
    judging::judge_rates(rates)?;
    judgement::judge_rooms(buffers.len(), fullnesses.len(), at, rates.len())?;
    fill(judged, rates, &mut buffers[at..], &mut fullnesses[at..]);
    Ok(())
}
