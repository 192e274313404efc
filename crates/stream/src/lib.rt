// The captures of a stream, 02, request 11, counted. What stands behind the setup is taken in chunks that end anywhere: the
// numbers by value, the bytes of the item under way in a lent buffer.
#![tactic(auto)]

ghost use Rattle.std.specs.Prelude.{◌≡◌, ◌<◌, ◌≤◌, length};
ghost use Rattle.theory.specs.Bytes.{put};
ghost use Rattle.wire.specs.Le.{number};
ghost use Rattle.tally.specs.Counts.{◌plus◌};
ghost use Rattle.tally.specs.Rows.{longest, adds_of};
ghost use Rattle.sheet.specs.Text.{sheet_room};
ghost use Rattle.stream.specs.Stream.{length_size};
ghost use Rattle.stream.specs.Progress.{started, ended, stopped, finished_of, Counted, Ready, Run, Took};
ghost use Rattle.stream.specs.Steps.{progress, awaiting, opened, skipped};

use tally::{LINES, LONGEST, READ};

// Each capture stands behind its length, in four bytes.
const LENGTH_SIZE: usize = 4;

// As many captures are taken.
const MOST: u64 = 4294967295;

// What the stream is in the middle of: the length of a capture, a capture, a long capture, which is skipped. Or nothing
// more is taken.
#[derive(Clone, Copy)]
pub enum Item {
    Length,
    Capture,
    Skipped,
    Stopped,
}

// The item under way, how many of its bytes are held and how many are still to come, and the numbers of the sheet. The two
// numbers stand beside the item: the loop over a chunk asks how much is still to come of any item, which of four variants
// would take a match.
#[derive(Clone, Copy)]
pub struct Progress {
    pub item: Item,
    pub have: usize,
    pub left: usize,
    pub counts: [u64; LINES],
}

// ---- the end of an item ----

// An item of which no byte has come yet.
fn begin(item: Item, left: usize, counts: [u64; LINES]) -> Progress
    ensures { result ≡ progress item 0 left counts }
{
    Progress {
        item,
        have: 0,
        left,
        counts,
    }
}

// A capture has ended: a length comes next, or nothing more is taken.
fn await_length(counts: [u64; LINES]) -> Progress
    ensures { result ≡ awaiting counts }
{
    if counts[READ] < MOST {
        return begin(Item::Length, LENGTH_SIZE, counts);
    }
    begin(Item::Stopped, usize::MAX, counts)
}

// A capture has come whole.
fn close_capture(counts: [u64; LINES], queues: u8, features: &[u8], capture: &[u8]) -> Progress
    requires { Counted counts × (length capture.now ≤ longest) }
    ensures { result ≡ awaiting (counts plus adds_of queues features.now capture.now) }
{
    await_length(tally::count_capture(counts, queues, features, capture))
}

// A length has come whole; its four bytes are the first ones held.
fn open_capture(counts: [u64; LINES], queues: u8, features: &[u8], held: &[u8]) -> Progress
    requires { Counted counts × (length_size ≤ length held.now) }
    ensures { result ≡ opened queues features.now counts (number 0 length_size held.now) }
{
    let n = wire::read_u32(held, 0) as usize;
    if n == 0 {
        return close_capture(counts, queues, features, &[]);
    }
    if n <= LONGEST {
        return begin(Item::Capture, n, counts);
    }
    begin(Item::Skipped, n, counts)
}

// ---- a run: bytes of a chunk, no more than the item under way still takes ----

// Bytes of a length. One that lies whole in the chunk is not copied.
fn take_length(p: Progress, queues: u8, features: &[u8], buffer: &mut [u8], run: &[u8]) -> Progress
    requires { Ready p buffer.old × (p.item ≡ Item.Length) × Run p.left (length run.now) (length run.now) }
    ensures { Took queues features.now p buffer.old run.now result buffer.new }
{
    let n = run.len();
    if p.left <= n && p.have == 0 {
        return open_capture(p.counts, queues, features, run);
    }
    wire::copy(buffer, p.have, run);
    if n < p.left {
        return Progress {
            have: p.have + n,
            left: p.left - n,
            ..p
        };
    }
    open_capture(p.counts, queues, features, buffer)
}

// Bytes of a capture. One that lies whole in the chunk is not copied.
fn take_capture(p: Progress, queues: u8, features: &[u8], buffer: &mut [u8], run: &[u8]) -> Progress
    requires { Ready p buffer.old × (p.item ≡ Item.Capture) × Run p.left (length run.now) (length run.now) }
    ensures { Took queues features.now p buffer.old run.now result buffer.new }
{
    let n = run.len();
    if p.left <= n && p.have == 0 {
        return close_capture(p.counts, queues, features, run);
    }
    wire::copy(buffer, p.have, run);
    let end = p.have + n;
    if n < p.left {
        return Progress {
            have: end,
            left: p.left - n,
            ..p
        };
    }
    close_capture(p.counts, queues, features, &buffer[..end])
}

// So many bytes of a long capture.
fn skip_bytes(p: Progress, count: usize) -> Progress
    requires { Counted p.counts × (count ≤ p.left) }
    ensures { result ≡ skipped p count }
{
    if count < p.left {
        return begin(Item::Skipped, p.left - count, p.counts);
    }
    await_length(tally::count_long(p.counts))
}

// Bytes of the item under way.
fn take_run(p: Progress, queues: u8, features: &[u8], buffer: &mut [u8], run: &[u8]) -> Progress
    requires { Ready p buffer.old × Run p.left (length run.now) (length run.now) }
    ensures { Took queues features.now p buffer.old run.now result buffer.new }
{
    // A match: each item takes its bytes in a way of its own.
    match p.item {
        Item::Capture => take_capture(p, queues, features, buffer, run),
        Item::Length => take_length(p, queues, features, buffer, run),
        Item::Skipped => skip_bytes(p, run.len()),
        Item::Stopped => p,
    }
}

// ---- the captures ----

// Nothing is taken yet.
pub fn start() -> Progress
    ensures { result ≡ started }
{
    await_length([0u64; LINES])
}

// A chunk, wherever it ends. The buffer is the one of the chunks before it.
pub fn feed(p: Progress, queues: u8, features: &[u8], buffer: &mut [u8], chunk: &[u8]) -> Progress
    requires { Ready p buffer.old }
    ensures { Took queues features.now p buffer.old chunk.now result buffer.new }
{
    let mut s = p;
    let mut rest = chunk;
    while !rest.is_empty() {
        let (run, after) = rest.split_at(s.left.min(rest.len()));
        s = take_run(s, queues, features, buffer, run);
        rest = after;
    }
    s
}

// Whether the stream can end here.
fn is_whole(p: Progress) -> bool
    ensures { result ≡ ended p }
{
    matches!(p.item, Item::Length) && p.have == 0
}

// Whether nothing more is taken, whatever follows.
pub fn is_stopped(p: Progress) -> bool
    ensures { result ≡ stopped p }
{
    matches!(p.item, Item::Stopped)
}

// The stream has ended: its sheet, from the start of the buffer. Answers how long it is.
pub fn finish(p: Progress, out: &mut [u8]) -> usize
    requires { Counted p.counts × (sheet_room ≤ length out.old) }
    ensures { (out.new ≡ put 0 (finished_of p) out.old) × (result ≡ length (finished_of p)) }
{
    sheet::write(out, p.counts, is_whole(p))
}
