// The yearly sheet, 02, request 11: reads a stream from standard input, and prints its sheet.
#![tactic(auto)]

ghost use Rattle.std.specs.Io.{ReadsAtMost};
ghost use Rattle.figures.specs.State.{CountedIn};

use cause::Cause;
use figures::State;
use sheet::SHEET_ROOM;
use std::io;
use std::io::{ErrorKind, Read};
use tally::LONGEST;

// As much is read at once.
const CHUNK: usize = 65536;

// Says what failed, and what the system says of it.
fn fail(rt: &HostRuntime, what: &str, e: io::Error) -> io::Result<()> {
    eprintln!(rt; "yearly_figures: {what}: {}", Cause(e))
}

// The sheet of a stream that has ended.
fn print_sheet(rt: &HostRuntime, s: State) -> io::Result<()>
    requires { CountedIn s }
{
    let mut text = [0u8; SHEET_ROOM];
    let n = figures::finish(s, &mut text);
    match rt.write_all(&text[..n]) {
        Ok(()) => Ok(()),
        Err(e) => fail(rt, "standard output", e),
    }
}

// The bytes that come next, as many as the read says: none at the end of the stream, or where nothing more is taken.
fn read_next(input: &mut impl Read, s: State, chunk: &mut [u8]) -> io::Result<usize>
    ensures { ReadsAtMost result chunk.new }
{
    if figures::is_over(s) {
        return Ok(0);
    }
    input.read(chunk)
}

// Reads a stream and prints its sheet. A read that was interrupted brought nothing, and another follows. A proved loop has to
// end: no run uses up so many turns.
fn read_stream(
    rt: &HostRuntime,
    chunk: &mut [u8; CHUNK],
    buffer: &mut [u8; LONGEST],
) -> io::Result<()> {
    let mut s = figures::start();
    for _ in 0..u64::MAX {
        match read_next(&mut rt.stdin(), s, chunk) {
            Ok(0) => return print_sheet(rt, s),
            Ok(n) => s = figures::feed(s, buffer, &chunk[..n]),
            Err(e) if e.kind() == ErrorKind::Interrupted => {}
            Err(e) => return fail(rt, "standard input", e),
        }
    }
    Ok(())
}

fn main(rt: HostRuntime) -> io::Result<()> {
    let mut chunk = [0u8; CHUNK];
    let mut buffer = [0u8; LONGEST];
    read_stream(&rt, &mut chunk, &mut buffer)
}
