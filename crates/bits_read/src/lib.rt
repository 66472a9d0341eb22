// Bits of a lent byte list, most significant first: reading one code, u(n) or ue(v). Serves document 01, "HRD parameter bits".
// Kept: a list and a position, of which the promises speak (read_code, by bits_of); a reader of both would hold the same two.

#![tactic(auto)]

ghost use Rattle.std.specs.Prelude.{◌≡◌, ◌+◌, ◌*◌, ◌^◌, ◌≤◌, ◌<◌, min, length};
ghost use Rattle.rules.specs.Limits.{bytes_max};
ghost use Rattle.rules.specs.Width.{word_bits};
ghost use Rattle.coding.specs.Codes.{bit_at, bits_of, unsigned as unsigned_of, zeros_from, read_code, u, ue};
ghost use Rattle.bits_read.specs.Outcome.{read_of};

use rules::{BYTES_MAX, ZEROS_MAX};

// A code that was read: its value, and the position after it.
#[derive(Clone, Copy, Debug, PartialEq, Eq)]
pub struct Code {
    pub value: u64,
    pub next: u64,
}

// Why no code was read: the bits end inside it, or it breaks the rule. Both carry its first bit.
#[derive(Clone, Copy, Debug, PartialEq, Eq)]
pub enum CodeFault {
    Ended(u64),
    Broken(u64),
}

// The position after the last bit that counts.
pub fn end_of(bytes: &[u8]) -> u64
    ensures { (result ≡ 8 * min (length bytes.now) bytes_max) × (result ≤ 8 * length bytes.now) × (result ≤ 2 ^ 32) }
{
    8 * bytes.len().min(BYTES_MAX) as u64
}

// The bit at a position.
fn bit_at(bytes: &[u8], p: u64) -> u64
    requires { p < 8 * length bytes.now }
    ensures { (result ≡ bit_at bytes.now p) × (result < 2) }
{
    let i = (p / 8) as usize;
    (u64::from(bytes[i]) >> (7 - p % 8)) % 2
}

// The value of w bits from position p on.
#[tactic(auto, unfolding(coding::specs::Codes::unsigned))]
fn unsigned(bytes: &[u8], p: u64, w: u64) -> u64
    requires { (w ≤ word_bits) × (p + w ≤ 8 * length bytes.now) × (p ≤ 2 ^ 32) }
    ensures { (result ≡ unsigned_of (bits_of bytes.now) p w) × (result < 2 ^ w) }
{
    let mut v = 0;
    for i in 0..w {
        v = 2 * v + bit_at(bytes, p + i);
    }
    v
}

// Reads u(w) at position p.
pub fn read_u(bytes: &[u8], p: u64, w: u64) -> Result<Code, CodeFault>
    requires { w ≤ word_bits }
    ensures { read_of result ≡ read_code (bits_of bytes.now) (u w) p }
{
    let end = end_of(bytes);
    if end < p || end - p < w {
        return Err(CodeFault::Ended(p));
    }
    Ok(Code {
        value: unsigned(bytes, p, w),
        next: p + w,
    })
}

// How many zeros stand at the start of n bits from position p on.
fn zeros(bytes: &[u8], p: u64, n: u64) -> u64
    requires { (p + n ≤ 8 * length bytes.now) × (p + n ≤ 2 ^ 32) }
    ensures { (result ≡ zeros_from (bits_of bytes.now) p n) × (result ≤ n) }
{
    (0..n).find(|&i| bit_at(bytes, p + i) != 0).unwrap_or(n)
}

// Reads ue(v) at position p.
pub fn read_ue(bytes: &[u8], p: u64) -> Result<Code, CodeFault>
    ensures { read_of result ≡ read_code (bits_of bytes.now) ue p }
{
    let end = end_of(bytes);
    if end < p {
        return Err(CodeFault::Ended(p));
    }
    let z = zeros(bytes, p, (end - p).min(ZEROS_MAX));
    if z == ZEROS_MAX {
        return Err(CodeFault::Broken(p));
    }
    let from = p + z + 1;
    let next = from + z;
    if end < next {
        return Err(CodeFault::Ended(p));
    }
    Ok(Code {
        value: (1 << z) - 1 + unsigned(bytes, from, z),
        next,
    })
}
