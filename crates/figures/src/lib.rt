// The sheet of a stream, 02, request 11: a setup of version 1, then captures. The stream is taken in chunks that end
// anywhere: the state by value, the bytes of what is under way in a lent buffer.
#![tactic(auto)]

ghost use Rattle.std.specs.Prelude.{◌≡◌, ◌≤◌, length};
ghost use Rattle.theory.specs.Bytes.{put};
ghost use Rattle.tally.specs.Rows.{longest};
ghost use Rattle.sheet.specs.Text.{sheet_room};
ghost use Rattle.figures.specs.Sheet.{refused_text};
ghost use Rattle.figures.specs.State.{waiting, counting, over, finished_of, CountedIn, Ready, Took, TookBehind};

use setups::FEATURES_SIZE;
use stream::Progress;

// A setup of version 1.
const SETUP_SIZE: usize = 19;

// What the stream is in the middle of: its setup, of which so many bytes are held; or its captures, under what the setup says.
// Or its setup is refused.
#[derive(Clone, Copy)]
pub enum State {
    Setup {
        have: usize,
    },
    Captures {
        queues: u8,
        features: [u8; FEATURES_SIZE],
        progress: Progress,
    },
    Refused,
}

// ---- a chunk ----

// Bytes of captures, under a setup with so many queues and these features.
fn take_captures(
    p: Progress,
    queues: u8,
    features: [u8; FEATURES_SIZE],
    buffer: &mut [u8],
    chunk: &[u8],
) -> State
    requires { Ready (counting queues features p) buffer.old }
    ensures { Took (counting queues features p) buffer.old chunk.now result buffer.new }
{
    let progress = stream::feed(p, queues, &features, buffer, chunk);
    State::Captures {
        queues,
        features,
        progress,
    }
}

// The setup has come whole, at the front of the buffer, and this follows it.
fn open_captures(buffer: &mut [u8], rest: &[u8]) -> State
    requires { length buffer.old ≡ longest }
    ensures { TookBehind buffer.old rest.now result buffer.new }
{
    match setups::read_version_1(&buffer[0..SETUP_SIZE]) {
        Ok(setup) => {
            let queues = setup.queues;
            let features = setup.features;
            take_captures(stream::start(), queues[0], features, buffer, rest)
        }
        Err(_) => State::Refused,
    }
}

// Bytes of the setup, of which so many are held, and what follows it.
fn take_setup(have: usize, buffer: &mut [u8], chunk: &[u8]) -> State
    requires { Ready (waiting have) buffer.old }
    ensures { Took (waiting have) buffer.old chunk.now result buffer.new }
{
    let left = SETUP_SIZE - have;
    if chunk.len() < left {
        wire::copy(buffer, have, chunk);
        return State::Setup {
            have: have + chunk.len(),
        };
    }
    let (last, rest) = chunk.split_at(left);
    wire::copy(buffer, have, last);
    open_captures(buffer, rest)
}

// ---- the stream ----

// Nothing is taken yet.
pub fn start() -> State
    ensures { result ≡ waiting 0 }
{
    State::Setup { have: 0 }
}

// A chunk, wherever it ends. The buffer is the one of the chunks before it.
pub fn feed(s: State, buffer: &mut [u8], chunk: &[u8]) -> State
    requires { Ready s buffer.old }
    ensures { Took s buffer.old chunk.now result buffer.new }
{
    match s {
        State::Setup { have } => take_setup(have, buffer, chunk),
        State::Captures {
            queues,
            features,
            progress,
        } => take_captures(progress, queues, features, buffer, chunk),
        State::Refused => State::Refused,
    }
}

// Whether nothing more is taken, whatever follows.
pub fn is_over(s: State) -> bool
    ensures { result ≡ over s }
{
    match s {
        State::Setup { .. } => false,
        State::Captures { progress, .. } => stream::is_stopped(progress),
        State::Refused => true,
    }
}

// That the setup is refused, from the start of the buffer. Answers how long that is.
fn write_refused(out: &mut [u8]) -> usize
    requires { sheet_room ≤ length out.old }
    ensures { (out.new ≡ put 0 refused_text out.old) × (result ≡ length refused_text) }
{
    let text = b"setup refused\n";
    wire::copy(out, 0, text);
    text.len()
}

// The stream has ended: its sheet, from the start of the buffer. Answers how long it is.
pub fn finish(s: State, out: &mut [u8]) -> usize
    requires { CountedIn s × (sheet_room ≤ length out.old) }
    ensures { (out.new ≡ put 0 (finished_of s) out.old) × (result ≡ length (finished_of s)) × (result ≤ sheet_room) }
{
    match s {
        State::Captures { progress, .. } => stream::finish(progress, out),
        State::Setup { .. } | State::Refused => write_refused(out),
    }
}
