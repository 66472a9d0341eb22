// A bucket for any rate, looked up in a table that is handed in. Serves document 01, "Looking up a rate in a table".

#![tactic(auto)]

ghost use Rattle.std.specs.Prelude.{◌≡◌, ◌*◌, ◌≤◌, ◌<◌, length};
ghost use Rattle.rules.specs.Refusals as refusal;
ghost use Rattle.rules.specs.Limits.{rate_max, bucket_max};
ghost use Rattle.terms.specs.Numbers.{round_up};
ghost use Rattle.terms.specs.Answers.{first_fault, lowest};
ghost use Rattle.model.specs.Lookup.{axis, blend as blend_of, figure_at};
ghost use Rattle.model.specs.Faults.{bad_row, table_lengths_check, table_clock_check, lookup_faults};
ghost use Rattle.judgement.specs.Outcome.{judgement_of};
ghost use Rattle.lookup.specs.Given.{table_of};
ghost use Rattle.lookup.specs.Ready.{AxisReady, ColumnReady, LastAt};
ghost use Rattle.lookup.specs.Promises.{LookupPromise};

use judgement::{Judgement, Refusal, refuse_if};
use recording::Bucket;
use rules::SPAN_MAX;

// Rates, buffers and start fullnesses of the rows, side by side, as the C interface lends them; the clock, TS and NU; and the span.
#[derive(Clone, Copy)]
pub struct Table<'a> {
    pub rates: &'a [u64],
    pub buffers: &'a [u64],
    pub fullnesses: &'a [u64],
    pub ts: u64,
    pub nu: u64,
    pub span: u64,
}

// What a figure is looked up by: the rates of a table that was judged, its clock and its span.
#[derive(Clone, Copy)]
struct Axis<'a> {
    rates: &'a [u64],
    ts: u64,
    nu: u64,
    span: u64,
    ghost ready: { AxisReady (axis rates.now ts nu span) },
}

// Between row a and row b, interpolated straight and rounded up. All is computed in 64 bits, which it fits.
fn blend(ra: u64, rb: u64, xa: u64, xb: u64, r: u64) -> u64
    requires { (ra < rb) × (rb ≤ rate_max) × (1 ≤ ra) × (ra ≤ r) × (r ≤ rb) × (xa ≤ bucket_max) × (xb ≤ bucket_max) }
    ensures { result ≡ blend_of ra rb xa xb r }
{
    numbers::round_up(xa * (rb - r) + xb * (r - ra), rb - ra)
}

impl Axis<'_> {
    // The last row whose rate is at most `rate`.
    fn row_at(self, rate: u64) -> Option<usize>
        ensures { LastAt self.entry.rates.now rate result }
    {
        self.rates.iter().rposition(|row| *row <= rate)
    }

    // By how much a figure grows p bits per second below the first row.
    fn growth(self, p: u64) -> u64
        requires { p < rate_max }
        ensures { (result ≡ round_up (p * self.entry.nu * self.entry.span) self.entry.ts) × (result ≤ p * self.entry.nu * self.entry.span) }
    {
        numbers::round_up(p * self.nu * self.span, self.ts)
    }

    // The figure X at a rate, from the last row at or below it, X being the buffers or the fullnesses of the table.
    fn figure(self, xs: &[u64], rate: u64, row: Option<usize>) -> u64
        requires { ColumnReady (length self.rates.now) xs.now × LastAt self.rates.now rate row × (1 ≤ rate) }
        ensures { result ≡ figure_at (axis self.entry.rates.now self.entry.ts self.entry.nu self.entry.span) xs.now rate }
    {
        let rates = self.rates;
        match row {
            None => xs[0] + self.growth(rates[0] - rate),
            Some(a) if rates[a] == rate => xs[a],
            Some(a) if a + 1 == rates.len() => xs[a],
            Some(a) => blend(rates[a], rates[a + 1], xs[a], xs[a + 1], rate),
        }
    }
}

// Judges the number of buffers and of fullnesses by that of the rates: refusal 2.
fn judge_lengths(table: Table) -> Judgement
    ensures { judgement_of result ≡ table_lengths_check (table_of table.entry) }
{
    let rows = table.rates.len();
    refuse_if(
        table.buffers.len() != rows || table.fullnesses.len() != rows,
        Refusal::Lengths,
    )
}

// Judges TS, NU and the span: refusal 3.
fn judge_span(table: Table) -> Judgement
    ensures { judgement_of result ≡ table_clock_check (table_of table.entry) }
{
    refuse_if(
        judging::is_bad_clock(table.ts, table.nu) || SPAN_MAX < table.span,
        Refusal::Clock,
    )
}

// Judges the buffers and fullnesses of as many rows as both lists have: refusal 7. Kept, a loop of its own, as judging's judge_ticks is.
fn judge_rows(buffers: &[u64], fullnesses: &[u64]) -> Judgement
    requires { length fullnesses.now ≡ length buffers.now }
    ensures { judgement_of result ≡ first_fault refusal.bucket (bad_row buffers.now fullnesses.now) (length buffers.now) }
{
    for i in 0..buffers.len() {
        if judging::is_bad_bucket(buffers[i], fullnesses[i]) {
            return Err(Refusal::Bucket(i));
        }
    }
    Ok(())
}

// Judges a table, its clock and span, and the rate asked: refusals 2, 3, 6 and 7.
fn judge(table: Table, rate: u64) -> Judgement
    ensures { judgement_of result ≡ lowest (lookup_faults (table_of table.entry) rate) }
{
    judge_lengths(table)?;
    judge_span(table)?;
    judging::judge_rates(table.rates)?;
    judging::judge_rate(rate)?;
    judge_rows(table.buffers, table.fullnesses)
}

// Buffer and start fullness for any rate: refusals 2, 3, 6 and 7.
pub fn look_up(table: Table, rate: u64) -> Result<Bucket, Refusal>
    ensures { LookupPromise (table_of table.entry) rate result }
{
    judge(table, rate)?;
    let Table {
        rates,
        buffers,
        fullnesses,
        ts,
        nu,
        span,
    } = table;
    let axis = Axis {
        rates,
        ts,
        nu,
        span,
    };
    let row = axis.row_at(rate);
    Ok(Bucket {
        rate,
        buffer: axis.figure(buffers, rate, row),
        fullness: axis.figure(fullnesses, rate, row),
    })
}
