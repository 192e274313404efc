// Writers of headers and parts into a lent tail, SPEC 4.8 and 4.9, with the bytes that they need.
#![tactic(auto)]

ghost use Rattle.std.specs.Prelude.{◌≡◌, List, ◌++◌, ℕ, ◌+◌, ◌*◌, ◌≤◌, ◌<◌, length};
ghost use Rattle.theory.specs.Logic.{when◌then◌else◌};
ghost use Rattle.theory.specs.Bytes.{bytes_at, put};
ghost use Rattle.inventory.specs.Inventory.{values_size};
ghost use Rattle.inventory.specs.Header.{header_size, header_of};
ghost use Rattle.capture.specs.Capture.{Asked, headers_of, asks, parts_written, capture_of, CaptureFits};
ghost use Rattle.capture.specs.Runs.{largest_value, RunFits, run_of, Wrote};

use inventory::{HEADER_SIZE, INVENTORY, Row};
use parts::ListForm;

// The bytes of the largest value.
const LARGEST_VALUE: usize = 32;

// ---- headers ----

// The headers of a member's parts, at the front of what is lent.
pub fn write_headers(out: &mut [u8], queues: u8)
    requires { length (headers_of queues) ≤ length out.old }
    ensures { out.new ≡ put 0 (headers_of queues) out.old }
{
    let mut at = 0;
    for row in INVENTORY {
        if row.is_present(queues) {
            row.write_header(out, at);
            at += HEADER_SIZE;
        }
    }
}

pub fn headers_bytes(queues: u8) -> usize
    requires { queues < 5 }
    ensures { result ≡ length (headers_of queues) }
{
    HEADER_SIZE * (inventory::part_count(queues) as usize)
}

// ---- one part ----

// The part of this row, the header and the value. Returns the place after it. The value goes through an array of the largest
// size: where its own is a constant, the copies are then single moves.
fn write_part(out: &mut [u8], at: usize, values: &[u8], row: Row) -> usize
    requires { (row.size ≤ largest_value) × (row.offset + row.size ≤ length values.now) × (at + (header_size + row.size) ≤ length out.old) }
    ensures { Wrote (header_of row ++ bytes_at row.offset row.size values.now) at out.old out.new result }
{
    let from = row.offset as usize;
    let len = row.size as usize;
    let mut value = [0u8; LARGEST_VALUE];
    wire::copy(&mut value, 0, &values[from..from + len]);
    wire::copy(out, at + HEADER_SIZE, &value[0..len]);
    row.write_header(out, at);
    at + HEADER_SIZE + len
}

// ---- all parts ----

// The parts of `count` rows from `first` on, of which `row` is the first: all of one type and size, with selectors that are a
// step apart. Each value is where the one before it ends. No table is read in the loop, so that a selector is one store.
fn write_run(
    out: &mut [u8],
    at: usize,
    values: &[u8],
    first: usize,
    count: usize,
    row: Row,
    step: u32,
) -> usize
    requires { RunFits values.now first count row step at out.old }
    ensures { Wrote (run_of values.now first count) at out.old out.new result }
{
    let mut end = at;
    let mut next = row;
    for _ in 0..count {
        end = write_part(out, end, values, next);
        next.offset += next.size;
        next.selector += step;
    }
    end
}

// All parts of a member, at the front of what is lent, run by run: a run's first row, how many rows it has, and the step from
// one selector to the next. The rows are written out, since the compiler folds a table that is read at a constant.
pub fn write_all(out: &mut [u8], values: &[u8], queues: u8)
    requires { CaptureFits queues values.now out.old }
    ensures { out.new ≡ put 0 (capture_of queues values.now) out.old }
{
    let n = queues as usize;
    let mut at = write_run(out, 0, values, 0, 1, INVENTORY[0], 0);
    at = write_run(out, at, values, 1, 1, INVENTORY[1], 0);
    at = write_run(out, at, values, 2, 2, INVENTORY[2], 8);
    at = write_run(out, at, values, 4, 2, INVENTORY[4], 6);
    at = write_run(out, at, values, 6, 1, INVENTORY[6], 0);
    at = write_run(out, at, values, 7, n, INVENTORY[7], 1);
    write_run(out, at, values, 11, n, INVENTORY[11], 1);
}

// ---- the parts that a list asks for ----

// Whether the member has the part of this row, and the list asks for it.
fn is_asked(queues: u8, asked: &[u8], row: Row) -> bool
    ensures { result ≡ asks Asked queues asked.now row }
{
    row.is_present(queues)
        && parts::contains(ListForm::Headers, asked, row.part_type, row.selector as u64)
}

// Those parts in the order of the table, at the front of what is lent.
pub fn write_asked(out: &mut [u8], values: &[u8], queues: u8, asked: &[u8])
    requires { (length values.now ≡ values_size) × (length (parts_written Asked queues asked.now values.now) ≤ length out.old) }
    ensures { out.new ≡ put 0 (parts_written Asked queues asked.now values.now) out.old }
{
    let mut at = 0;
    for row in INVENTORY {
        if is_asked(queues, asked, row) {
            at = write_part(out, at, values, row);
        }
    }
}

// The bytes of this row's part, if it is asked for.
fn asked_size(queues: u8, asked: &[u8], row: Row) -> usize
    ensures { result ≡ (when asks Asked queues asked.now row then header_size + row.size else 0) }
{
    if !is_asked(queues, asked, row) {
        return 0;
    }
    HEADER_SIZE + row.size as usize
}

// The bytes of the parts that a list asks for, whatever the values are.
pub fn asked_bytes(queues: u8, asked: &[u8]) -> usize
    ensures { (values : List ℕ) → length values ≡ values_size → result ≡ length (parts_written Asked queues asked.now values) }
{
    let mut n = 0;
    for row in INVENTORY {
        n += asked_size(queues, asked, row);
    }
    n
}
