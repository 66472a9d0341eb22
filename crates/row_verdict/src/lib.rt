// A row of a parameter record: its rate and size, and the verdict of a start fullness and the row. Serves document 01, "HRD parameter
// bits".

#![tactic(auto)]

ghost use Rattle.std.specs.Prelude.{◌≡◌, ◌+◌, ◌*◌, ◌^◌, ◌<◌, OnOk};
ghost use Rattle.rules.specs.Limits.{cpb_cnt_max};
ghost use Rattle.rules.specs.Width.{word_bits, Word};
ghost use Rattle.recording.specs.Given.{recording_of};
ghost use Rattle.row_verdict.specs.Promises.{ParamsRowPromise, RowPromise};

use judgement::{Refusal, refuse_if};
use params::Params;
use recording::{Bucket, Recording};
use rules::{RATE_SHIFT, SIZE_SHIFT};
use schedule::Verdict;

// Rate and size of a row.
#[derive(Clone, Copy, Debug, PartialEq, Eq)]
pub struct Row {
    pub rate: u64,
    pub size: u64,
}

// (value + 1) x 2^(shift + scale) for the value of a row: its rate or its size.
fn scaled(value: u64, shift: u64, scale: u64) -> u64
    requires { (shift + scale < word_bits) × Word ((value + 1) * 2 ^ (shift + scale)) }
    ensures { result ≡ (value + 1) * 2 ^ (shift + scale) }
{
    (value + 1) * (1 << (shift + scale))
}

// Rate and size of a row: the record judged first, then the row number.
pub fn params_row(params: Params, row: usize) -> Result<Row, Refusal>
    ensures figures { ParamsRowPromise params row result }
    ensures among { OnOk result (row < cpb_cnt_max) }
{
    params::judge_params(params)?;
    if params.cpb_cnt <= row {
        return Err(Refusal::Rate(0));
    }
    let rate = params.bit_rate_value_minus1[row];
    let size = params.cpb_size_value_minus1[row];
    Ok(Row {
        rate: scaled(rate, RATE_SHIFT, params.bit_rate_scale),
        size: scaled(size, SIZE_SHIFT, params.cpb_size_scale),
    })
}

// The verdict of a start fullness and a row: the record judged first, then the row number, then the lowest of the rest.
pub fn row_verdict(
    recording: Recording,
    params: Params,
    row: usize,
    fullness: u64,
) -> Result<Verdict, Refusal>
    ensures { RowPromise (recording_of recording.entry) params row fullness result }
{
    let Row { rate, size } = params_row(params, row)?;
    let bucket = Bucket {
        rate,
        buffer: size,
        fullness,
    };
    let verdict = schedule::bucket_verdict(recording, bucket)?;
    refuse_if(params.cbr_flag[row] == 1, Refusal::Constant(row))?;
    Ok(verdict)
}
