// Reading a parameter record, field by field. Serves document 01, "HRD parameter bits".

#![tactic(auto)]

ghost use Rattle.std.specs.Prelude.{◌≡◌, [], ◌∷◌, ◌+◌, ◌-◌, ◌*◌, ◌≤◌, ◌<◌, length, get_or, take};
ghost use Rattle.rules.specs.Limits.{cpb_cnt_max, length_width};
ghost use Rattle.bits_read.specs.Outcome.{read_of};
ghost use Rattle.coding.specs.Codes.{bits_of, read_code};
ghost use Rattle.coding.specs.Fields.{fields_after_count, read_fields};
ghost use Rattle.coding.specs.Params.{params_with, rows_of};
ghost use Rattle.params.specs.Outcome.{params_of};
ghost use Rattle.params.specs.Steps.{code_of, width_of};
ghost use Rattle.params_read.specs.Outcome.{fields_read_of, refusal_of};
ghost use Rattle.params_read.specs.Steps.{field_step};
ghost use Rattle.params_read.specs.Promises.{ReadPromise};

use bits_read::{Code, CodeFault};
use judgement::Refusal;
use params::{Field, Params, VALUES_MAX};
use rules::CPB_CNT_MAX;
use std::array;

// A record that was read, and the position after it.
#[derive(Clone, Copy, Debug, PartialEq, Eq)]
pub struct ParamsRead {
    pub next: u64,
    pub params: Params,
}

// Why a field was not read: the bits end inside it, or it breaks its range or rule. Both carry its first bit, the second its row
// too, if it stands in one.
#[derive(Clone, Copy, Debug, PartialEq, Eq)]
enum FieldFault {
    Short(u64),
    Broken(u64, Option<usize>),
}

// A fault as a refusal: 9, or 10 at its row.
impl From<FieldFault> for Refusal {
    ghost from_gives = { λ fault r. r ≡ refusal_of fault };

    fn from(fault: FieldFault) -> Refusal {
        match fault {
            FieldFault::Short(_) => Refusal::Short,
            FieldFault::Broken(_, row) => Refusal::Field(row.unwrap_or(0)),
        }
    }
}

// Reads a code at position p.
fn read_code(bytes: &[u8], p: u64, code: params::Code) -> Result<Code, CodeFault>
    requires { width_of (code_of code) ≤ length_width }
    ensures { read_of result ≡ read_code (bits_of bytes.now) (code_of code) p }
{
    match code {
        params::Code::Unsigned(width) => bits_read::read_u(bytes, p, width),
        params::Code::ExpGolomb => bits_read::read_ue(bytes, p),
    }
}

// Reads one field at position p, after the same field of the row before.
fn read_field(bytes: &[u8], p: u64, field: Field, before: u64) -> Result<Code, FieldFault>
    requires { width_of (code_of field.code) ≤ length_width }
    ensures { result ≡ field_step (bits_of bytes.now) field before p }
{
    match read_code(bytes, p, field.code) {
        Ok(code) if params::keeps(field, before, code.value) => Ok(code),
        Ok(_) => Err(FieldFault::Broken(p, field.row)),
        Err(CodeFault::Ended(first)) => Err(FieldFault::Short(first)),
        Err(CodeFault::Broken(first)) => Err(FieldFault::Broken(first, field.row)),
    }
}

// Reads the fields after the count, of n rows, into a list whose first value is the count less 1, and gives the next position.
fn read_fields(bytes: &[u8], start: u64, n: usize, values: &mut [u64]) -> Result<u64, FieldFault>
    requires { (1 ≤ n) × (n ≤ cpb_cnt_max) × (3 + 3 * n + 4 ≤ length values.old) × (get_or values.old 0 0 ≡ n - 1) }
    ensures { fields_read_of result (take (3 + 3 * n + 4) values.new) ≡ read_fields (bits_of bytes.now) (fields_after_count n) ((n - 1) ∷ []) start }
{
    let mut p = start;
    for f in 1..3 + 3 * n + 4 {
        let before = values[params::row_before(f)];
        let code = read_field(bytes, p, params::field_at(n, f), before)?;
        values[f] = code.value;
        p = code.next;
    }
    Ok(p)
}

// Field number column of every row, from the values of n rows; zeros behind them.
fn rows_of(values: &[u64], n: usize, column: usize) -> [u64; CPB_CNT_MAX]
    requires { (column < 3) × (3 + 3 * n ≤ length values.now) }
    ensures { result ≡ rows_of values.now n column }
{
    array::from_fn(|row| {
        if row < n {
            values[3 + 3 * row + column]
        } else {
            0
        }
    })
}

// The record of n rows that has these values.
fn params_of(values: &[u64], n: usize) -> Params
    requires { (n ≤ cpb_cnt_max) × (3 + 3 * n + 4 ≤ length values.now) }
    ensures { params_of result ≡ params_with n values.now }
{
    let end = 3 + 3 * n;
    Params {
        cpb_cnt: n,
        bit_rate_scale: values[1],
        cpb_size_scale: values[2],
        bit_rate_value_minus1: rows_of(values, n, 0),
        cpb_size_value_minus1: rows_of(values, n, 1),
        cbr_flag: rows_of(values, n, 2),
        initial_cpb_removal_delay_length_minus1: values[end],
        cpb_removal_delay_length_minus1: values[end + 1],
        dpb_output_delay_length_minus1: values[end + 2],
        time_offset_length: values[end + 3],
    }
}

// Reads a record at a bit position: refusals 9 and 10, the first fault in bit order.
pub fn read_params(bytes: &[u8], start: u64) -> Result<ParamsRead, Refusal>
    ensures { ReadPromise bytes.now start result }
{
    let count = read_field(bytes, start, params::field_at(1, 0), 0)?;
    // Kept: an array with room for every record, as there is no heap.
    let mut values = [0u64; VALUES_MAX];
    values[0] = count.value;
    let n = count.value as usize + 1;
    let next = read_fields(bytes, count.next, n, &mut values)?;
    Ok(ParamsRead {
        next,
        params: params_of(&values[..3 + 3 * n + 4], n),
    })
}
