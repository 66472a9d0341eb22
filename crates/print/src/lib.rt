// The text that is printed of a sheet. Serves document 01, "The sheet and the printed table".

#![tactic(auto)]

ghost use Rattle.std.specs.Prelude.{◌≡◌, ◌≤◌, length, IfOk, OnErr};
ghost use Rattle.rules.specs.Limits.{text_max};
ghost use Rattle.terms.specs.Answers.{passed, first};
ghost use Rattle.model.specs.Faults.{rate_count_check, rate_list_check};
ghost use Rattle.model.specs.Outcomes.{judge_outcome};
ghost use Rattle.layout.specs.Sheet.{least_text, sheet_text, sheet_faults};
ghost use Rattle.judgement.specs.Outcome.{judgement_of};
ghost use Rattle.recording.specs.Given.{recording_of};
ghost use Rattle.text.specs.Put.{Put};
ghost use Rattle.print.specs.Promises.{PrintPromise};

use judgement::{Judgement, Refusal};
use recording::Recording;
use rules::{ROWS_MAX, SHEET_PICTURES_MAX, TEXT_MAX};

// What is printed of a sheet: where it ends, and how the sheet was judged, passed with its table or refused with the line of that.
#[derive(Clone, Copy, Debug, PartialEq, Eq)]
pub struct Output {
    pub end: usize,
    pub judged: Judgement,
}

// Puts the table of a recording and rates that were judged at the front of an array with room for every text.
fn put_least(recording: Recording, rates: &[u64], text: &mut [u8; TEXT_MAX]) -> usize
    requires { (judge_outcome (recording_of recording) ≡ passed) × (rate_count_check rates.now ≡ passed) × (rate_list_check rates.now ≡ passed) }
    ensures { Put text.old 0 (least_text (recording_of recording.entry) rates.now) text.new result }
{
    let m = rates.len();
    // Kept: arrays with room for every table, as there is no heap.
    let mut buffers = [0u64; ROWS_MAX];
    let mut fullnesses = [0u64; ROWS_MAX];
    least::table(recording, rates, 0, &mut buffers, &mut fullnesses).unwrap();
    text::put_table(rates, &buffers[..m], &fullnesses[..m], text)
}

// Puts the table of a sheet that opens at the front of an array with room for every text.
fn put_table(bytes: &[u8], text: &mut [u8; TEXT_MAX]) -> Result<usize, Refusal>
    ensures judges { judgement_of result ≡ first (sheet_faults bytes.now) }
    ensures puts { IfOk result (λ end. Put text.old 0 (sheet_text bytes.now) text.new end) }
    ensures keeps { OnErr result (text.new ≡ text.old) }
{
    // Kept: arrays with room for every sheet, each with a count beside it, as there is no heap.
    let mut sizes = [0u64; SHEET_PICTURES_MAX];
    let mut ticks = [0u64; SHEET_PICTURES_MAX];
    let mut rates = [0u64; ROWS_MAX];
    let head = sheet::open_sheet(bytes, &mut sizes, &mut ticks, &mut rates)?;
    let n = head.pictures;
    let m = head.rates;
    let recording = Recording {
        sizes: &sizes[..n],
        ticks: &ticks[..n],
        ts: head.ts,
        nu: head.nu,
    };
    Ok(put_least(recording, &rates[..m], text))
}

// Puts what a sheet prints, its table or its refusal line, at the front of an array with room for every text.
fn put_sheet(bytes: &[u8], text: &mut [u8; TEXT_MAX]) -> Output
    ensures { Put text.old 0 (sheet_text bytes.now) text.new result.end × (judgement_of result.judged ≡ first (sheet_faults bytes.now)) }
{
    match put_table(bytes, text) {
        Ok(end) => Output {
            end,
            judged: Ok(()),
        },
        Err(refusal) => Output {
            end: text::put_refusal(refusal.number(), refusal.place(), text),
            judged: Err(refusal),
        },
    }
}

// Prints what a sheet comes to, its table or its refusal line, to the front of a lent list of bytes. Refusal 8.
pub fn print_sheet(bytes: &[u8], text: &mut [u8]) -> Result<Output, Refusal>
    ensures { PrintPromise bytes.now text.old result text.new }
{
    // Kept: an array with room for every text, as there is no heap.
    let mut whole = [0u8; TEXT_MAX];
    let output = put_sheet(bytes, &mut whole);
    let end = output.end;
    judgement::judge_room(text.len(), 0, end)?;
    text::put_bytes(&whole[..end], text, 0);
    Ok(output)
}
