// The text of the sheet, 02, request 11: sixteen lines of a name and a number, and how the stream ended.
#![tactic(auto)]

ghost use Rattle.std.specs.Prelude.{◌≡◌, ◌+◌, ◌*◌, ◌^◌, ◌≤◌, ◌<◌, length};
ghost use Rattle.theory.specs.Bytes.{put};
ghost use Rattle.theory.specs.Items.{items_from};
ghost use Rattle.decimal.specs.Decimal.{line};
ghost use Rattle.tally.specs.Counts.{Below};
ghost use Rattle.tally.specs.Rows.{row_count};
ghost use Rattle.sheet.specs.Text.{name_at, end_line, number_line, figures, text_of, sheet_room};

use tally::LINES;

// Room that is enough for any sheet.
pub const SHEET_ROOM: usize = 512;

// The names of the lines.
const NAMES: [&str; LINES] = [
    "read", "accepted", "cut", "unknown", "length", "size", "features", "twice", "long", "0x100",
    "0x101", "0x102", "0x103", "0x104", "0x105", "bytes",
];

// The lines with a number, from the start of the buffer. Answers the place after them.
fn put_numbers(out: &mut [u8], counts: &[u64; LINES]) -> usize
    requires { length (items_from (number_line counts.now) row_count 0) ≤ length out.old }
    ensures { (out.new ≡ put 0 (items_from (number_line counts.now) row_count 0) out.old) × (result ≡ length (items_from (number_line counts.now) row_count 0)) }
{
    let mut at = 0;
    for (name, n) in NAMES.iter().zip(counts) {
        at = decimal::put_line(out, at, name.as_bytes(), *n);
    }
    at
}

// How the stream ended, from a place on. Answers the place after it.
fn put_end(out: &mut [u8], at: usize, whole: bool) -> usize
    requires { at + 10 ≤ length out.old }
    ensures { (out.new ≡ put at (end_line whole) out.old) × (result ≡ at + length (end_line whole)) }
{
    let text = if whole { "end whole\n" } else { "end torn\n" };
    wire::copy(out, at, text.as_bytes());
    at + text.len()
}

// The sheet, from the start of the buffer. Answers how long it is.
pub fn write(out: &mut [u8], counts: [u64; LINES], whole: bool) -> usize
    requires { Below (2 ^ 64) counts × (sheet_room ≤ length out.old) }
    ensures { (out.new ≡ put 0 (text_of (figures counts whole)) out.old) × (result ≡ length (text_of (figures counts whole))) }
{
    let at = put_numbers(out, &counts);
    put_end(out, at, whole)
}
