// Bits of a lent byte list, most significant first: writing one code, u(n) or ue(v). Serves document 01, "HRD parameter bits".
// Kept: a list and a position, of which the promises speak (put_bits); and plain values v, as a type for the one bound of ue(v) would be made
// for a call and opened behind it.

#![tactic(auto)]

ghost use Rattle.std.specs.Prelude.{◌≡◌, ◌+◌, ◌*◌, ◌^◌, ◌≤◌, ◌<◌, length};
ghost use Rattle.rules.specs.Limits.{value_max, zeros_max};
ghost use Rattle.rules.specs.Width.{word_bits};
ghost use Rattle.coding.specs.Codes.{ue, code_bits, unsigned_bits, zeros_of, put_bit, put_bits};

// Stores the bit b at position p.
fn put_bit(bytes: &mut [u8], p: u64, b: u64)
    requires { (p < 8 * length bytes.old) × (b < 2) }
    ensures { bytes.new ≡ put_bit bytes.old p b }
{
    let i = (p / 8) as usize;
    let byte = u64::from(bytes[i]);
    let unit: u64 = 1 << (7 - p % 8);
    bytes[i] = (byte + b * unit - byte / unit % 2 * unit) as u8;
}

// Writes the w lowest bits of v at position p.
pub fn write_u(bytes: &mut [u8], p: u64, w: u64, v: u64)
    requires { (w ≤ word_bits) × (p + w ≤ 8 * length bytes.old) × (p + w ≤ 2 ^ 32) }
    ensures { bytes.new ≡ put_bits bytes.old p (unsigned_bits w v) }
{
    for i in 0..w {
        put_bit(bytes, p + i, (v >> (w - 1 - i)) % 2);
    }
}

// How many zeros the code of v begins with.
fn zeros_of(v: u64) -> u64
    requires { v ≤ value_max }
    ensures { (result ≡ zeros_of v zeros_max) × (result < zeros_max) }
{
    u64::from((v + 1).ilog2())
}

// How many bits the code ue(v) has.
pub fn length_ue(v: u64) -> u64
    requires { v ≤ value_max }
    ensures { (result ≡ length (code_bits ue v)) × (result < 2 * zeros_max) }
{
    2 * zeros_of(v) + 1
}

// Writes ue(v) at position p.
pub fn write_ue(bytes: &mut [u8], p: u64, v: u64)
    requires { (v ≤ value_max) × (p + length (code_bits ue v) ≤ 8 * length bytes.old) × (p + length (code_bits ue v) ≤ 2 ^ 32) }
    ensures { bytes.new ≡ put_bits bytes.old p (code_bits ue v) }
{
    let z = zeros_of(v);
    write_u(bytes, p, z, 0);
    write_u(bytes, p + z, z + 1, v + 1);
}
