// Writing a parameter record, field by field, and how many bits that takes. Serves document 01, "HRD parameter bits".

#![tactic(auto)]

ghost use Rattle.std.specs.Prelude.{◌≡◌, ◌+◌, ◌*◌, ◌^◌, ◌≤◌, ◌<◌, length, get_or, IfOk};
ghost use Rattle.rules.specs.Limits.{cpb_cnt_max, length_width, value_max};
ghost use Rattle.terms.specs.Answers.{passed};
ghost use Rattle.coding.specs.Codes.{code_bits, put_bits};
ghost use Rattle.coding.specs.Fields.{cpb_cnt_minus1, fields_of};
ghost use Rattle.coding.specs.Params.{values_of, params_judged, params_bits};
ghost use Rattle.judgement.specs.Outcome.{judgement_of};
ghost use Rattle.params.specs.Outcome.{params_of};
ghost use Rattle.params.specs.Steps.{code_of, width_of, field_of};
ghost use Rattle.params_write.specs.Promises.{LengthPromise, WritePromise};

use judgement::Refusal;
use params::{Code, Field, Params};

// A parameter record that was judged.
#[derive(Clone, Copy)]
struct Judged {
    params: Params,
    ghost judged: { params_judged (params_of params) ≡ passed },
    ghost counted: { (1 ≤ params.cpb_cnt) × (params.cpb_cnt ≤ cpb_cnt_max) },
}

// A field and a value within its range.
#[derive(Clone, Copy)]
struct Valued {
    field: Field,
    value: u64,
    ghost in_range: { (value ≤ field.most) × (field.most ≤ value_max) × (width_of (code_of field.code) ≤ length_width) },
}

// The record, judged: refusal 10.
fn judge(params: Params) -> Result<Judged, Refusal>
    ensures judges { judgement_of result ≡ params_judged (params_of params) }
    ensures same { IfOk result (λ judged. judged.params ≡ params) }
{
    params::judge_params(params)?;
    Ok(Judged { params })
}

impl Valued {
    // How many bits the value takes in its field.
    fn length(self) -> u64
        ensures { (result ≡ length (code_bits (code_of self.field.code) self.value)) × (result < 64) }
    {
        match self.field.code {
            Code::Unsigned(width) => width,
            Code::ExpGolomb => bits_write::length_ue(self.value),
        }
    }

    // Writes the value in its field's code at position p and gives the next position.
    fn write(self, bytes: &mut [u8], p: u64) -> u64
        requires { (p + length (code_bits (code_of self.field.code) self.value) ≤ 8 * length bytes.old) × (p + length (code_bits (code_of self.field.code) self.value) ≤ 2 ^ 32) }
        ensures { (result ≡ p + length (code_bits (code_of self.field.code) self.value)) × (bytes.new ≡ put_bits bytes.old p (code_bits (code_of self.field.code) self.value)) }
    {
        match self.field.code {
            Code::Unsigned(width) => bits_write::write_u(bytes, p, width, self.value),
            Code::ExpGolomb => bits_write::write_ue(bytes, p, self.value),
        }
        p + self.length()
    }
}

impl Judged {
    // How many fields the record has.
    fn field_count(&self) -> usize
        ensures { result ≡ 3 + 3 * self.now.params.cpb_cnt + 4 }
    {
        3 + 3 * self.params.cpb_cnt + 4
    }

    // Field number f of the record, and its value.
    fn field(&self, f: usize) -> Valued
        requires { f < 3 + 3 * self.now.params.cpb_cnt + 4 }
        ensures { (field_of result.field ≡ get_or (fields_of self.now.params.cpb_cnt) f cpb_cnt_minus1) × (result.value ≡ get_or (values_of (params_of self.now.params)) f 0) }
    {
        Valued {
            field: params::field_at(self.params.cpb_cnt, f),
            value: params::value_at(&self.params, f),
        }
    }

    // How many bits the record takes.
    fn length(&self) -> u64
        ensures { result ≡ length (params_bits (params_of self.now.params)) }
    {
        (0..self.field_count())
            .map(|f| self.field(f).length())
            .sum()
    }

    // Writes the record at a position with room for it, and gives the next position.
    fn write(&self, bytes: &mut [u8], start: u64) -> u64
        requires { (start + length (params_bits (params_of self.now.params)) ≤ 8 * length bytes.old) × (start + length (params_bits (params_of self.now.params)) ≤ 2 ^ 32) }
        ensures { (result ≡ start + length (params_bits (params_of self.now.params))) × (bytes.new ≡ put_bits bytes.old start (params_bits (params_of self.now.params))) }
    {
        let mut p = start;
        for f in 0..self.field_count() {
            p = self.field(f).write(bytes, p);
        }
        p
    }
}

// How many bits a record takes: refusal 10 of the record.
pub fn length_of(params: Params) -> Result<u64, Refusal>
    ensures { LengthPromise params result }
{
    Ok(judge(params)?.length())
}

// Writes a record at a bit position: refusal 10 of the record, then 8. Only the record's own bits change.
pub fn write_params(params: Params, bytes: &mut [u8], start: u64) -> Result<u64, Refusal>
    ensures { WritePromise params bytes.old start result bytes.new }
{
    let judged = judge(params)?;
    let bits = judged.length();
    let end = bits_read::end_of(bytes);
    if end < start || end - start < bits {
        return Err(Refusal::Room);
    }
    Ok(judged.write(bytes, start))
}
