// What is read: an input to its end, an argument, and a number.
ghost use Rattle.std.specs.Prelude.{◌≡◌};
ghost use Rattle.salvage_file.specs.Number.{number_of};

use arrayvec::ArrayVec;
use std::env::{Env, FillError};
use std::io;
use std::io::Read;

// Reads an input that is whole, or as much of it as there is room for. What goes on behind its end is refused, with no error
// of the system's. A read that a signal interrupts is made again.
pub fn read_whole<const ROOM: usize>(input: &mut impl Read) -> io::Result<ArrayVec<u8, ROOM>> {
    let mut bytes = ArrayVec::new();
    io::copy(&mut input.by_ref().take(ROOM as u64), &mut bytes)?;
    let more = io::copy(&mut input.by_ref().take(1), &mut io::sink())?;
    if more != 0 && !bytes.is_full() {
        return Err(io::Error::from_raw_os_error(0));
    }
    Ok(bytes)
}

// Whether the program was started with an argument i; its own name is argument 0.
pub fn has_argument(env: &impl Env, i: usize) -> bool {
    !matches!(env.arg(i, &mut []), Err(FillError::NotPresent))
}

// Argument i, if it is there and there is room for it.
pub fn argument<'a>(env: &impl Env, i: usize, room: &'a mut [u8]) -> Option<&'a [u8]> {
    let len = env.arg(i, room).ok()?;
    Some(&room[..len])
}

// A decimal number up to 999.
pub fn number(text: &[u8]) -> Option<u64>
    ensures { result ≡ number_of text.now }
{
    let mut n = 0;
    for &c in text {
        if !c.is_ascii_digit() || 99 < n {
            return None;
        }
        n = n * 10 + u64::from(c - b'0');
    }
    Some(n)
}
