// HRD parameter records: their fields, in the order of H.264 E.1.2, their values, and judging them. Serves document 01, "HRD
// parameter bits".

#![tactic(auto)]

ghost use Rattle.std.specs.Prelude.{◌≡◌, ◌+◌, ◌-◌, ◌*◌, ◌≤◌, ◌<◌, get_or, OnOk};
ghost use Rattle.rules.specs.Limits.{cpb_cnt_max};
ghost use Rattle.coding.specs.Fields as fields;
ghost use Rattle.coding.specs.Fields.{fields_of, cpb_cnt_minus1, place_of};
ghost use Rattle.coding.specs.Params.{values_of};
ghost use Rattle.params.specs.Outcome.{params_of};
ghost use Rattle.params.specs.Steps.{code_of, stand_of, field_of, row_field, kept_by};
ghost use Rattle.params.specs.Promises.{RecordPromise};

use judgement::{Judgement, Refusal};
use rules::{CPB_CNT_MAX, LENGTH_WIDTH, SCALE_WIDTH, VALUE_MAX};

// Most values of a record: three before the rows, three for each row, four after them.
pub const VALUES_MAX: usize = 3 + 3 * CPB_CNT_MAX + 4;

// A parameter record: its count of rows and that many rows, by the standard's names. cbr_flag is 0 or 1.
// Kept: arrays with their count beside them, as the C interface has them.
#[repr(C)]
#[derive(Clone, Copy, Debug, Default, PartialEq, Eq)]
pub struct Params {
    pub cpb_cnt: usize,
    pub bit_rate_scale: u64,
    pub cpb_size_scale: u64,
    pub bit_rate_value_minus1: [u64; CPB_CNT_MAX],
    pub cpb_size_value_minus1: [u64; CPB_CNT_MAX],
    pub cbr_flag: [u64; CPB_CNT_MAX],
    pub initial_cpb_removal_delay_length_minus1: u64,
    pub cpb_removal_delay_length_minus1: u64,
    pub dpb_output_delay_length_minus1: u64,
    pub time_offset_length: u64,
}

// How a field is coded: u(n), or ue(v).
#[derive(Clone, Copy, Debug, PartialEq, Eq)]
pub enum Code {
    Unsigned(u64),
    ExpGolomb,
}

// What a field's value keeps after the same field of the row before.
#[derive(Clone, Copy, Debug, PartialEq, Eq)]
pub enum Rule {
    Free,
    Rises,
    DoesNotRise,
}

// A field: its code, its largest value, its rule, and its row if it stands in one.
#[derive(Clone, Copy, Debug, PartialEq, Eq)]
pub struct Field {
    pub code: Code,
    pub most: u64,
    pub rule: Rule,
    pub row: Option<usize>,
}

impl Field {
    // A field that stands in no row.
    fn alone(code: Code, most: u64) -> Field
        ensures { field_of result ≡ fields.field (code_of code) most fields.free fields.alone }
    {
        Field {
            code,
            most,
            rule: Rule::Free,
            row: None,
        }
    }

    // The place of a fault in the field: its row, or 0.
    pub fn place(self) -> usize
        ensures { result ≡ place_of (stand_of self.row) }
    {
        self.row.unwrap_or(0)
    }
}

// Field number f of a record with n rows. Kept: fields and columns by number, with the bounds beside them, as the definitions count them
// (get_or (fields_of n) f, row_field).
pub fn field_at(n: usize, f: usize) -> Field
    requires { (n ≤ cpb_cnt_max) × (f < 3 + 3 * n + 4) }
    ensures { field_of result ≡ get_or (fields_of n) f cpb_cnt_minus1 }
{
    match f {
        0 => Field::alone(Code::ExpGolomb, CPB_CNT_MAX as u64 - 1),
        1 | 2 => Field::alone(Code::Unsigned(SCALE_WIDTH), (1 << SCALE_WIDTH) - 1),
        _ if f < 3 + 3 * n => row_field((f - 3) / 3, (f - 3) % 3),
        _ => Field::alone(Code::Unsigned(LENGTH_WIDTH), (1 << LENGTH_WIDTH) - 1),
    }
}

// Field number column of a row.
fn row_field(row: usize, column: usize) -> Field
    requires { (row < cpb_cnt_max) × (column < 3) }
    ensures { field_of result ≡ row_field row column }
{
    let (code, most, rule) = match column {
        0 => (Code::ExpGolomb, VALUE_MAX, Rule::Rises),
        1 => (Code::ExpGolomb, VALUE_MAX, Rule::DoesNotRise),
        _ => (Code::Unsigned(1), 1, Rule::Free),
    };
    Field {
        code,
        most,
        rule: if row == 0 { Rule::Free } else { rule },
        row: Some(row),
    }
}

// Whether a value keeps its field's range and its rule after the same field of the row before.
pub fn keeps(field: Field, before: u64, v: u64) -> bool
    ensures { result ≡ kept_by (field_of field) before v }
{
    v <= field.most
        && match field.rule {
            Rule::Free => true,
            Rule::Rises => before < v,
            Rule::DoesNotRise => v <= before,
        }
}

// The place of the same field in the row before, of field number f.
pub fn row_before(f: usize) -> usize
    ensures { result ≡ f - 3 }
{
    f.saturating_sub(3)
}

// Value number f of a record, in the order of the fields.
pub fn value_at(params: &Params, f: usize) -> u64
    requires { (1 ≤ (params_of params.now).cpb_cnt) × ((params_of params.now).cpb_cnt ≤ cpb_cnt_max) × (f < 3 + 3 * (params_of params.now).cpb_cnt + 4) }
    ensures { result ≡ get_or (values_of (params_of params.now)) f 0 }
{
    let end = 3 + 3 * params.cpb_cnt;
    match f {
        0 => params.cpb_cnt as u64 - 1,
        1 => params.bit_rate_scale,
        2 => params.cpb_size_scale,
        _ if f < end => {
            let row = (f - 3) / 3;
            match (f - 3) % 3 {
                0 => params.bit_rate_value_minus1[row],
                1 => params.cpb_size_value_minus1[row],
                _ => params.cbr_flag[row],
            }
        }
        _ => match f - end {
            0 => params.initial_cpb_removal_delay_length_minus1,
            1 => params.cpb_removal_delay_length_minus1,
            2 => params.dpb_output_delay_length_minus1,
            _ => params.time_offset_length,
        },
    }
}

// Judges a record: every fault is 10, the first in bit order at its row or 0.
pub fn judge_params(params: Params) -> Judgement
    ensures judges { RecordPromise params result }
    ensures counted { OnOk result ((1 ≤ params.cpb_cnt) × (params.cpb_cnt ≤ cpb_cnt_max)) }
{
    let n = params.cpb_cnt;
    if n == 0 || CPB_CNT_MAX < n {
        return Err(Refusal::Field(0));
    }
    for f in 0..3 + 3 * n + 4 {
        let field = field_at(n, f);
        let before = value_at(&params, row_before(f));
        if !keeps(field, before, value_at(&params, f)) {
            return Err(Refusal::Field(field.place()));
        }
    }
    Ok(())
}
