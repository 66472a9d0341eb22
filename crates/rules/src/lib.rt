// Every limit, every refusal number and every kind of answer of the planner, each as one constant. Nothing else in the code
// writes these numbers. Serves document 01, "A recording and its units", "HRD parameter bits" and "When the planner says no".
#![tactic(auto)]

ghost use Rattle.std.specs.Prelude.{◌≡◌};
ghost use Rattle.rules.specs.Kinds.{kinds};
ghost use Rattle.rules.specs.Limits.{limits};
ghost use Rattle.rules.specs.Refusals.{refusals};

pub const PICTURES_MAX: usize = 1 << 12;

pub const SHEET_PICTURES_MAX: usize = 1 << 12;

pub const SIZE_MAX: u64 = 1 << 24;

pub const SPAN_MAX: u64 = 1 << 16;

pub const TS_MAX: u64 = 1 << 17;

pub const NU_MAX: u64 = 1 << 16;

pub const RATE_MAX: u64 = 1 << 27;

pub const ROWS_MAX: usize = 32;

pub const BUCKET_MAX: u64 = 1 << 36;

pub const CPB_CNT_MAX: usize = 32;

pub const VALUE_MAX: u64 = (1 << 32) - 2;

pub const ZEROS_MAX: u64 = 32;

pub const SCALE_WIDTH: u64 = 4;

pub const LENGTH_WIDTH: u64 = 5;

pub const RATE_SHIFT: u64 = 6;

pub const SIZE_SHIFT: u64 = 4;

pub const BYTES_MAX: usize = 1 << 29;

pub const HEADER_BYTES: usize = 28;

pub const SHEET_BYTES_MAX: usize = HEADER_BYTES + 8 * SHEET_PICTURES_MAX + 4 * ROWS_MAX;

pub const TEXT_MAX: usize = 1 << 11;

// The constants are the limits that the definitions name, each at its place in the list.
pub fn all_limits() -> [u64; 20]
    ensures { result ≡ limits }
{
    [
        PICTURES_MAX as u64,
        SHEET_PICTURES_MAX as u64,
        SIZE_MAX,
        SPAN_MAX,
        TS_MAX,
        NU_MAX,
        RATE_MAX,
        ROWS_MAX as u64,
        BUCKET_MAX,
        CPB_CNT_MAX as u64,
        VALUE_MAX,
        ZEROS_MAX,
        SCALE_WIDTH,
        LENGTH_WIDTH,
        RATE_SHIFT,
        SIZE_SHIFT,
        BYTES_MAX as u64,
        HEADER_BYTES as u64,
        SHEET_BYTES_MAX as u64,
        TEXT_MAX as u64,
    ]
}

// Kept, refusal numbers and kinds: the C interface has numbers, and the definitions tie these lists (all_refusals, all_kinds).
pub const PICTURES: u8 = 1;

pub const LENGTHS: u8 = 2;

pub const CLOCK: u8 = 3;

pub const SIZE: u8 = 4;

pub const TICK: u8 = 5;

pub const RATE: u8 = 6;

pub const BUCKET: u8 = 7;

pub const ROOM: u8 = 8;

pub const SHORT: u8 = 9;

pub const FIELD: u8 = 10;

pub const CONSTANT: u8 = 11;

pub const SHEET: u8 = 12;

pub const LIMIT: u8 = 13;

// The constants are the refusal numbers that the definitions name, each at its place in the list.
pub fn all_refusals() -> [u8; 13]
    ensures { result ≡ refusals }
{
    [
        PICTURES, LENGTHS, CLOCK, SIZE, TICK, RATE, BUCKET, ROOM, SHORT, FIELD, CONSTANT, SHEET,
        LIMIT,
    ]
}

pub const KIND_REFUSED: u64 = 0;

pub const KIND_GIVEN: u64 = 1;

pub const KIND_HOLDS: u64 = 1;

pub const KIND_LATE: u64 = 2;

pub const KIND_WITHIN: u64 = 1;

pub const KIND_OVER: u64 = 2;

pub const KIND_TABLE: u64 = 1;

pub const KIND_LINE: u64 = 2;

// The constants are the kinds that the definitions name, each at its place in the list.
pub fn all_kinds() -> [u64; 8]
    ensures { result ≡ kinds }
{
    [
        KIND_REFUSED,
        KIND_GIVEN,
        KIND_HOLDS,
        KIND_LATE,
        KIND_WITHIN,
        KIND_OVER,
        KIND_TABLE,
        KIND_LINE,
    ]
}
