// The program: reads a sheet from standard input and prints its table, or its refusal line. Serves document 01, "The sheet and
// the printed table".

#![tactic(auto)]

use rules::{SHEET_BYTES_MAX, TEXT_MAX};

const STDIN: i32 = 0;

const STDOUT: i32 = 1;

fn main() {
    // One byte more than the largest sheet is enough to refuse any longer input, an endless one too. Kept: arrays, as there is no heap.
    let mut bytes = [0u8; SHEET_BYTES_MAX + 1];
    let n = io::read_full(STDIN, &mut bytes);
    let mut text = [0u8; TEXT_MAX];
    if let Ok(output) = print::print_sheet(&bytes[..n], &mut text) {
        io::write_all(STDOUT, &text[..output.end]);
    }
}
