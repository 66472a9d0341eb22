// Text into a lent list of bytes: numbers in decimal, the line of a refusal, the lines of a table. Each function answers the
// entry behind what it put. Serves document 01, "The sheet and the printed table".
// Kept, in place of Display: what is promised is which bytes stand where in a lent list; and list and entry side by side, each function with
// room for its own bytes, as both definitions have them (Put, Room).

#![tactic(auto)]

ghost use Rattle.std.specs.Prelude.{◌≤◌, length};
ghost use Rattle.layout.specs.Text.{decimal, refusal_line, row_line, table_text};
ghost use Rattle.text.specs.Put.{Room, Put};

// Puts a list of bytes.
pub fn put_bytes(bytes: &[u8], text: &mut [u8], at: usize) -> usize
    requires { Room text.old at bytes.now }
    ensures { Put text.old at bytes.now text.new result }
{
    text[at..at + bytes.len()].copy_from_slice(bytes);
    at + bytes.len()
}

// Puts a number in decimal.
#[tactic(auto, using(crate::proofs::PutLaws::decimals))]
fn put_decimal(n: u64, text: &mut [u8], at: usize) -> usize
    requires { Room text.old at (decimal n) }
    ensures { Put text.old at (decimal n) text.new result }
{
    let end = if 10 <= n {
        put_decimal(n / 10, text, at)
    } else {
        at
    };
    text[end] = b'0' + (n % 10) as u8;
    end + 1
}

// Puts the line of a refusal. Kept: number and place, of which the line is made (refusal_line), for every number.
#[tactic(auto, unfolding(layout::specs::Text::letters))]
pub fn put_refusal(number: u8, place: usize, text: &mut [u8]) -> usize
    requires { Room text.old 0 (refusal_line number place) }
    ensures { Put text.old 0 (refusal_line number place) text.new result }
{
    let refused = put_bytes(b"refused ", text, 0);
    let numbered = put_decimal(u64::from(number), text, refused);
    let at = put_bytes(b" at ", text, numbered);
    let placed = put_decimal(place as u64, text, at);
    put_bytes(b"\n", text, placed)
}

// Puts the line of one rate. Kept: three numbers, as row_line has them.
#[tactic(auto, unfolding(layout::specs::Text::letters))]
fn put_row(rate: u64, buffer: u64, fullness: u64, text: &mut [u8], at: usize) -> usize
    requires { Room text.old at (row_line rate buffer fullness) }
    ensures { Put text.old at (row_line rate buffer fullness) text.new result }
{
    let rated = put_decimal(rate, text, at);
    let second = put_bytes(b" ", text, rated);
    let buffered = put_decimal(buffer, text, second);
    let third = put_bytes(b" ", text, buffered);
    let filled = put_decimal(fullness, text, third);
    put_bytes(b"\n", text, filled)
}

// Puts a whole table: the header line, and the line of each rate. Kept: three lists, as table_text has them.
#[tactic(auto, unfolding(layout::specs::Text::letters))]
pub fn put_table(rates: &[u64], buffers: &[u64], fullnesses: &[u64], text: &mut [u8]) -> usize
    requires { Room text.old 0 (table_text rates.now buffers.now fullnesses.now) × (length rates.now ≤ length buffers.now) × (length rates.now ≤ length fullnesses.now) }
    ensures { Put text.old 0 (table_text rates.now buffers.now fullnesses.now) text.new result }
{
    let mut end = put_bytes(b"rate buffer start\n", text, 0);
    for ((rate, buffer), fullness) in rates.iter().zip(buffers).zip(fullnesses) {
        end = put_row(*rate, *buffer, *fullness, text, end);
    }
    end
}
