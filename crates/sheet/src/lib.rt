// Opening a sheet's bytes. Serves document 01, "The sheet and the printed table".

#![tactic(auto)]

ghost use Rattle.std.specs.Prelude.{◌≡◌, ◌≤◌, length, IfOk};
ghost use Rattle.rules.specs.Limits.{header_bytes, sheet_pictures_max, rows_max};
ghost use Rattle.terms.specs.Answers.{lowest, first, answer_with};
ghost use Rattle.layout.specs.Sheet.{misplaced, picture_count, rate_count, header_faults, list_faults, head_of as words_of};
ghost use Rattle.judgement.specs.Outcome.{judgement_of};
ghost use Rattle.sheet.specs.Outcome.{HeadFits, head_of, opened_of};
ghost use Rattle.sheet.specs.Promises.{OpenPromise};

use judgement::{Judgement, Refusal, refuse_if};
use recording::Recording;
use rules::{HEADER_BYTES, ROWS_MAX, SHEET_PICTURES_MAX};

// What an opened sheet says beside its lists: how many pictures and rates, and the clock.
#[derive(Clone, Copy, Debug, PartialEq, Eq)]
pub struct Head {
    pub pictures: usize,
    pub rates: usize,
    pub ts: u64,
    pub nu: u64,
}

// Whether an offset or the length is not as the counts have it.
fn is_misplaced(bytes: &[u8], pictures: usize, rates: usize) -> bool
    requires { (header_bytes ≤ length bytes.now) × (pictures ≡ picture_count bytes.now) × (rates ≡ rate_count bytes.now) × (pictures ≤ sheet_pictures_max) × (rates ≤ rows_max) }
    ensures { result ≡ misplaced bytes.now }
{
    words::word_at(bytes, 4) as usize != HEADER_BYTES
        || words::word_at(bytes, 8) as usize != HEADER_BYTES + 4 * pictures
        || words::word_at(bytes, 16) as usize != HEADER_BYTES + 8 * pictures
        || bytes.len() != HEADER_BYTES + 8 * pictures + 4 * rates
}

// Judges a sheet's header and length.
fn judge_header(bytes: &[u8]) -> Result<Head, Refusal>
    ensures judges { opened_of result ≡ answer_with (first (header_faults bytes.now)) (words_of bytes.now) }
    ensures fits { IfOk result (λ head. HeadFits bytes.now head) }
{
    refuse_if(bytes.len() < HEADER_BYTES, Refusal::Sheet)?;
    let n = words::word_at(bytes, 0);
    refuse_if(
        numbers::is_outside(1, SHEET_PICTURES_MAX as u64, n),
        Refusal::Pictures,
    )?;
    let m = words::word_at(bytes, 12);
    refuse_if(numbers::is_outside(1, ROWS_MAX as u64, m), Refusal::Rate(0))?;
    refuse_if(is_misplaced(bytes, n as usize, m as usize), Refusal::Sheet)?;
    Ok(Head {
        pictures: n as usize,
        rates: m as usize,
        ts: words::word_at(bytes, 20),
        nu: words::word_at(bytes, 24),
    })
}

// Judges the lists and the clock of a sheet whose header and length were judged.
#[tactic(auto, using(crate::proofs::OpenLaws::read))]
fn judge_lists(bytes: &[u8], head: Head) -> Judgement
    requires { (head_of head ≡ words_of bytes.now) × HeadFits bytes.now head }
    ensures { judgement_of result ≡ lowest (list_faults bytes.now) }
{
    let n = head.pictures;
    let m = head.rates;
    // Kept: arrays with room for every sheet, each with a count beside it, as there is no heap.
    let mut sizes = [0u64; SHEET_PICTURES_MAX];
    words::read_words(bytes, HEADER_BYTES, n, &mut sizes);
    let mut ticks = [0u64; SHEET_PICTURES_MAX];
    words::read_words(bytes, HEADER_BYTES + 4 * n, n, &mut ticks);
    let mut rates = [0u64; ROWS_MAX];
    words::read_words(bytes, HEADER_BYTES + 8 * n, m, &mut rates);
    judging::judge(Recording {
        sizes: &sizes[..n],
        ticks: &ticks[..n],
        ts: head.ts,
        nu: head.nu,
    })?;
    judging::judge_rate_list(&rates[..m])
}

// Opens a sheet: writes its sizes, ticks and rates to the first entries of three lent lists. Refusals 12, 1, 6, 3, 4, 5, 8.
// Kept: three lists, as the C interface lends them.
pub fn open_sheet(
    bytes: &[u8],
    sizes: &mut [u64],
    ticks: &mut [u64],
    rates: &mut [u64],
) -> Result<Head, Refusal>
    ensures { OpenPromise bytes.now sizes.old ticks.old rates.old result sizes.new ticks.new rates.new }
{
    let head = judge_header(bytes)?;
    judge_lists(bytes, head)?;
    let n = head.pictures;
    let m = head.rates;
    judgement::judge_rooms(sizes.len(), ticks.len(), 0, n)?;
    judgement::judge_room(rates.len(), 0, m)?;
    words::read_words(bytes, HEADER_BYTES, n, sizes);
    words::read_words(bytes, HEADER_BYTES + 4 * n, n, ticks);
    words::read_words(bytes, HEADER_BYTES + 8 * n, m, rates);
    Ok(head)
}
