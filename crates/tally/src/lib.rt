// The numbers of the sheet, 02, request 11: what one capture adds to each. They stand in an array, in the sheet's order.
#![tactic(auto)]

ghost use Rattle.std.specs.Prelude.{◌≡◌, ◌≤◌, ◌^◌, length};
ghost use Rattle.parts.specs.declared.ListForm.TheVariants.{Parts};
ghost use Rattle.parts.specs.List.{parts_of};
ghost use Rattle.tally.specs.Rows.{cause_line, long_line, longest, adds_of, adds_long};
ghost use Rattle.tally.specs.Counts.{◌plus◌, Below};
ghost use Rattle.tally.specs.Steps.{part_adds, parts_add, contents_add, capture_adds};

use inventory::DEVICE_FEATURES;
use parts::ListForm;
use rules::Cause;

pub const LINES: usize = 16;

// A capture over this many bytes is long.
pub const LONGEST: usize = parts::LONGEST_LIST;

// Lines are numbers: they index the counts, and a part's line is computed of its type. An enum would be cast at each use.
pub const READ: usize = 0;

const ACCEPTED: usize = 1;

const LONG: usize = 8;

// The types of parts have a line each, from this one on.
const FIRST_TYPE: usize = 9;

const BYTES: usize = 15;

// The line that counts captures of a cause, or accepted ones.
fn cause_line(checked: Result<(), Cause>) -> usize
    ensures { result ≡ cause_line checked }
{
    let Err(cause) = checked else {
        return ACCEPTED;
    };
    match cause {
        Cause::Cut => 2,
        Cause::Unknown => 3,
        Cause::Length => 4,
        Cause::Size => 5,
        Cause::Features => 6,
        Cause::Twice => 7,
    }
}

// One part more in the line of its type, where a member with so many queues has got the part.
fn count_part(counts: &mut [u64; LINES], queues: u8, t: u16, selector: u64)
    requires { Below (2 ^ 63) counts.old }
    ensures { counts.new ≡ counts.old plus part_adds queues t selector }
{
    let Some(_) = inventory::place_of(queues, t, selector) else {
        return;
    };
    let line = FIRST_TYPE + (t - DEVICE_FEATURES) as usize;
    counts[line] += 1;
}

// The parts of a capture, each in the line of its type.
fn count_parts(counts: &mut [u64; LINES], queues: u8, capture: &[u8])
    requires { Below (2 ^ 62) counts.old × (length capture.now ≤ longest) }
    ensures { counts.new ≡ counts.old plus parts_add queues (parts_of Parts capture.now) }
{
    for part in parts::read(ListForm::Parts, capture) {
        let Ok(part) = part else {
            return;
        };
        count_part(counts, queues, part.part_type, part.selector);
    }
}

// What an accepted capture adds besides: its parts and its bytes.
fn with_contents(counts: [u64; LINES], queues: u8, capture: &[u8]) -> [u64; LINES]
    requires { Below (2 ^ 62) counts × (length capture.now ≤ longest) }
    ensures { result ≡ counts plus contents_add queues capture.now }
{
    let mut sums = counts;
    count_parts(&mut sums, queues, capture);
    sums[BYTES] += capture.len() as u64;
    sums
}

// One capture more, in `read` and in another line.
fn with_capture(counts: [u64; LINES], line: usize) -> [u64; LINES]
    requires { Below (2 ^ 63) counts × (line ≤ long_line) }
    ensures { result ≡ counts plus capture_adds line }
{
    let mut sums = counts;
    sums[READ] += 1;
    sums[line] += 1;
    sums
}

// The counts with one capture more.
pub fn count_capture(
    counts: [u64; LINES],
    queues: u8,
    features: &[u8],
    capture: &[u8],
) -> [u64; LINES]
    requires { Below (2 ^ 62) counts × (length capture.now ≤ longest) }
    ensures { result ≡ counts plus adds_of queues features.now capture.now }
{
    let line = cause_line(rules::check_list(queues, features, capture));
    if line == ACCEPTED {
        return with_capture(with_contents(counts, queues, capture), line);
    }
    with_capture(counts, line)
}

// The counts with one long capture more.
pub fn count_long(counts: [u64; LINES]) -> [u64; LINES]
    requires { Below (2 ^ 62) counts }
    ensures { result ≡ counts plus adds_long }
{
    with_capture(counts, LONG)
}
